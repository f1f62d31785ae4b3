// What the first word of some words is, and what it counts; a word looked for.
ghost use Rattle.std.specs.Prelude.{◌≡◌, ◌≤◌, get_or};
ghost use Rattle.sequences.specs.Sequences.{member};
ghost use Rattle.plans.specs.Reading.{count_in};

use words::PlanWord;

// The first word of `p`, or 0, which begins no head, branch, condition or ending, where there is none.
pub fn first(p: &[u32]) -> u32
    ensures { result ≡ get_or p.now 0 0 }
{
    p.first().copied().unwrap_or(0)
}

// The count in the first word of `p`, or 0 where that is not of the kind `kind` or the count is above `most`.
pub fn count_in(p: &[u32], kind: u32, most: u32) -> u32
    ensures { (result ≡ count_in kind most (get_or p.now 0 0)) × (result ≤ most) }
{
    let w = PlanWord(first(p));
    if w.kind() != kind {
        return 0;
    }
    let n = w.low();
    if n > most {
        return 0;
    }
    n
}

// Whether `word` is among `words`.
pub fn among(word: u32, words: &[u32]) -> bool
    ensures { result ≡ member word words.now }
{
    words.contains(&word)
}
