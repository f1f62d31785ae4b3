// Tests that lists of each kind share: of their words, and of a threshold where there is none.
ghost use Rattle.std.specs.Prelude.{◌≡◌, List, ℕ};
ghost use Rattle.sequences.specs.Sequences.{all};
ghost use Rattle.words.specs.Words.{is_value};
ghost use Rattle.plans.specs.Endings.{rows, group, registers};
ghost use Rattle.lists.specs.Gathering.{threshold_right};

use words::Term;

// Whether each word of `list` is one that a delivered row may have.
pub fn is_values(list: &[u32]) -> bool
    ensures { result ≡ all is_value list.now }
{
    list.iter().all(|word| Term(*word).is_value())
}

// Whether `threshold` is right for an ending that has none: rows, groups, or registers.
pub fn no_threshold(threshold: &[u32]) -> bool
    ensures rows { (vs : List ℕ) → result ≡ threshold_right (rows vs) threshold.now }
    ensures groups { (vs : List ℕ) (m : ℕ) → result ≡ threshold_right (group vs m) threshold.now }
    ensures registers { (v : ℕ) → result ≡ threshold_right (registers v) threshold.now }
{
    threshold.is_empty()
}
