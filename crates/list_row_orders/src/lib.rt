// The order of rows by the keys of a best-of ending.
#![tactic(auto)]

ghost use Rattle.std.specs.Prelude.{◌≡◌, true, ◌≤◌, length};
ghost use Rattle.words.specs.Words.{variable, low};
ghost use Rattle.sequences.specs.Sequences.{all};
ghost use Rattle.plans.specs.Endings.{key_among};
ghost use Rattle.lists.specs.Rows.{index_of, rank_by, row_before};

use words::{PlanWord, Term};

// The rank of `word` by `key`: a falling key reverses the order of keys.
pub fn rank_by(key: u32, word: u32) -> u32
    ensures { result ≡ rank_by key word }
{
    let rank = Term(word).key_rank();
    if PlanWord(key).kind() == PlanWord::FALLING {
        return Term::LAST_RANK - rank;
    }
    rank
}

// Where `word` stands among `words`, or their number where it is not there.
fn index_of(word: u32, words: &[u32]) -> usize
    ensures { result ≡ index_of word words.now }
{
    words
        .iter()
        .position(|other| *other == word)
        .unwrap_or(words.len())
}

// The column of a row with the variables `vars` that has the value of the variable of `key`.
pub fn column_of(vars: &[u32], key: u32) -> usize
    ensures { result ≡ index_of (variable (low key)) vars.now }
{
    let variable = Term::variable(PlanWord(key).low());
    index_of(variable.0, vars)
}

// Whether row `a` comes strictly before row `b` by `keys`, the first key that tells them apart deciding.
pub fn comes_before(vars: &[u32], keys: &[u32], a: &[u32], b: &[u32]) -> bool
    requires { (all (key_among vars.now) keys.now ≡ true) × (length vars.now ≤ length a.now) × (length vars.now ≤ length b.now) }
    ensures { result ≡ row_before vars.now keys.now a.now b.now }
{
    for key in keys {
        let column = column_of(vars, *key);
        let x = rank_by(*key, a[column]);
        let y = rank_by(*key, b[column]);
        if x < y {
            return true;
        }
        if y < x {
            return false;
        }
    }
    false
}
