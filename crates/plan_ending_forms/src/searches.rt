// Tests of each word of a list.
ghost use Rattle.std.specs.Prelude.{◌≡◌};
ghost use Rattle.sequences.specs.Sequences.{all, distinct};
ghost use Rattle.words.specs.Words.{is_variable};
ghost use Rattle.plans.specs.Branches.{term_right};
ghost use Rattle.plans.specs.Endings.{is_key};

use words::{PlanWord, Term};

// The number of a plan's variables.
pub const VARIABLES: u32 = 16;

// Whether no word stands twice in `words`.
pub fn all_differ(words: &[u32]) -> bool
    ensures { result ≡ distinct words.now }
{
    for (i, word) in words.iter().enumerate() {
        if words[i + 1..].contains(word) {
            return false;
        }
    }
    true
}

fn is_key(word: u32) -> bool
    ensures { result ≡ is_key word }
{
    let kind = PlanWord(word).kind();
    kind == PlanWord::RISING || kind == PlanWord::FALLING
}

// Whether `word` is no variable above ?15.
fn is_right(word: u32) -> bool
    ensures { result ≡ term_right word }
{
    let t = Term(word);
    !t.is_variable() || t.value() < VARIABLES
}

// Whether each of `words` is a variable.
pub fn all_variables(words: &[u32]) -> bool
    ensures { result ≡ all is_variable words.now }
{
    words.iter().all(|word| Term(*word).is_variable())
}

// Whether each of `words` is a key.
pub fn all_keys(words: &[u32]) -> bool
    ensures { result ≡ all is_key words.now }
{
    words.iter().all(|word| is_key(*word))
}

// Whether none of `words` is a variable above ?15.
pub fn all_right(words: &[u32]) -> bool
    ensures { result ≡ all term_right words.now }
{
    words.iter().all(|word| is_right(*word))
}
