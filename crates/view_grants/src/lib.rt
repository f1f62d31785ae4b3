// The grant of an adviser: names that ascend (test 20), and a search among them for words that do not fall.
#![tactic(auto)]

ghost use Rattle.std.specs.Prelude.{◌≡◌, true, ◌≤◌, ltb};
ghost use Rattle.sequences.specs.Sequences.{all, neighbours, member};
ghost use Rattle.views.specs.Viewing.{is_name, grant_right};
ghost use Rattle.view_grants.specs.Places.{first_from};

use words::Term;

// Where a word was looked for in a grant: the first place whose word is not less, and whether it is that word. No Result as binary_search has it: both
// users go on from the place whether the word is there or not.
#[derive(Clone, Copy)]
pub struct Sought {
    pub at: usize,
    pub found: bool,
}

// Whether the words of `grant` ascend strictly.
fn ascends(grant: &[u32]) -> bool
    ensures { result ≡ neighbours ltb grant.now }
{
    for at in 1..grant.len() {
        let earlier = grant[at - 1];
        let later = grant[at];
        if later <= earlier {
            return false;
        }
    }
    true
}

// Whether each word of `grant`, which ascends, is a name: names are the least words, so the last tells.
fn last_named(grant: &[u32]) -> bool
    requires { neighbours ltb grant.now ≡ true }
    ensures { result ≡ all is_name grant.now }
{
    match grant.last() {
        Some(last) => Term(*last).kind() == Term::NAME,
        None => true,
    }
}

// Whether `grant` is right: names alone, strictly ascending.
pub fn grant_right(grant: &[u32]) -> bool
    ensures { result ≡ grant_right grant.now }
{
    ascends(grant) && last_named(grant)
}

// Looks for `word` in `grant`, from `from` on, a place that is not past the first word that is not less.
pub fn seek(grant: &[u32], from: usize, word: u32) -> Sought
    requires grant_value { neighbours ltb grant.now ≡ true }
    requires from_bound { from ≤ first_from grant.now word }
    ensures { (result.at ≡ first_from grant.now word) × (result.found ≡ member word grant.now) }
{
    for at in from..grant.len() {
        let next = grant[at];
        if word <= next {
            return Sought {
                at,
                found: next == word,
            };
        }
    }
    Sought {
        at: grant.len(),
        found: false,
    }
}
