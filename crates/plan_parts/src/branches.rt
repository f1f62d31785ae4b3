// Branches: the words of those that were read.
ghost use Rattle.std.specs.Prelude.{◌≡◌, true};
ghost use Rattle.plans.specs.Branches.{read_branch, read_branches};
ghost use Rattle.plans.specs.Reading.{is_read, words_read};

use crate::nodes::condition;
use plans::{MOST_DEPTH, PATTERN_WIDTH, pattern_count};

// The words of the branch that `p` starts with.
pub fn branch_words(p: &[u32]) -> usize
    requires { is_read (read_branch p.now) ≡ true }
    ensures { result ≡ words_read (read_branch p.now) }
{
    let at = 1 + PATTERN_WIDTH * pattern_count(p);
    match condition(&p[at..], MOST_DEPTH, &[]) {
        None => at,
        Some(tree) => at + tree.words,
    }
}

// The words of the first `count` branches that `p` starts with.
pub fn branches_words(p: &[u32], count: u32) -> usize
    requires { is_read (read_branches count p.now) ≡ true }
    ensures { result ≡ words_read (read_branches count p.now) }
{
    let mut at: usize = 0;
    for _ in 0..count {
        at += branch_words(&p[at..]);
    }
    at
}
