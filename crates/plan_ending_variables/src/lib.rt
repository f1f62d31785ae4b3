// The variables of an ending, in test 6: bound by some branch, none repeated, a key's among the rows'.
#![tactic(auto)]

ghost use Rattle.std.specs.Prelude.{◌≡◌, true, ◌&&◌};
ghost use Rattle.sequences.specs.Sequences.{all, distinct};
ghost use Rattle.plans.specs.Branches.{read_branches, binds};
ghost use Rattle.plans.specs.Endings.{key_among, ending_form, ending_at, ending_right};
ghost use Rattle.plans.specs.Reading.{is_read, branches_in};

use plan_ending_forms::{all_differ, ending_form};
use plan_endings::{ending_kind, keys, measured, variables};
use plan_parts::branch_words;
use plans::{EndingKind, terms};
use words::{PlanWord, Term};

// Whether one of the first `count` branches that `p` starts with has `word` among its patterns' terms.
pub fn some_binds(p: &[u32], count: u32, word: u32) -> bool
    requires { is_read (read_branches count p.now) ≡ true }
    ensures { result ≡ binds (branches_in count p.now) word }
{
    let mut at: usize = 0;
    for _ in 0..count {
        let rest = &p[at..];
        if terms(rest).contains(&word) {
            return true;
        }
        at += branch_words(rest);
    }
    false
}

// Whether each variable of `list` is bound by one of those branches.
pub fn all_bound(p: &[u32], count: u32, list: &[u32]) -> bool
    requires { is_read (read_branches count p.now) ≡ true }
    ensures { result ≡ all (binds (branches_in count p.now)) list.now }
{
    list.iter().all(|word| some_binds(p, count, *word))
}

fn is_key_among(key: u32, list: &[u32]) -> bool
    ensures { result ≡ key_among list.now key }
{
    list.contains(&Term::variable(PlanWord(key).low()).0)
}

// Whether the variable of each of `keys` is in `list`.
pub fn keys_among(keys: &[u32], list: &[u32]) -> bool
    ensures { result ≡ all (key_among list.now) keys.now }
{
    keys.iter().all(|key| is_key_among(*key, list))
}

// Whether the variables of `list` are bound and differ.
fn variables_right(p: &[u32], count: u32, list: &[u32]) -> bool
    requires { is_read (read_branches count p.now) ≡ true }
    ensures { result ≡ (all (binds (branches_in count p.now)) list.now && distinct list.now) }
{
    all_bound(p, count, list) && all_differ(list)
}

// Whether `e` is an ending whose variables are right, after the `count` branches that `p` starts with.
pub fn ending_right(p: &[u32], count: u32, e: &[u32]) -> bool
    requires { is_read (read_branches count p.now) ≡ true }
    ensures { result ≡ (ending_form e.now && ending_right (binds (branches_in count p.now)) (ending_at e.now)) }
{
    if !ending_form(e) {
        return false;
    }
    let list = variables(e);
    if !variables_right(p, count, list) {
        return false;
    }
    match ending_kind(e) {
        EndingKind::Rows => true,
        EndingKind::Top => keys_among(keys(e), list),
        EndingKind::Group => some_binds(p, count, measured(e)),
        EndingKind::Registers => true,
        EndingKind::Invalid => false,
    }
}
