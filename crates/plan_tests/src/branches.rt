// Branches read from words, in tests 5 and 6.
ghost use Rattle.std.specs.Prelude.{◌≡◌};
ghost use Rattle.sequences.specs.Sequences.{all};
ghost use Rattle.plans.specs.Branches.{read_branch, read_branches, branch_right};
ghost use Rattle.plan_tests.specs.Testing.{part_of};

use crate::Part;
use plan_ending_forms::all_right;
use plan_parts::condition;
use plans::{MOST_DEPTH, PATTERN_WIDTH, pattern_count};

// The most nodes that a condition has.
pub const MOST_NODES: usize = 31;

// Reads the branch at the start of `p`.
pub fn branch(p: &[u32]) -> Option<Part>
    ensures { result ≡ part_of branch_right (read_branch p.now) }
{
    let n = pattern_count(p);
    if n == 0 {
        return None;
    }
    let at = 1 + PATTERN_WIDTH * n;
    if p.len() < at {
        return None;
    }
    let terms = &p[1..at];
    let tree = condition(&p[at..], MOST_DEPTH, terms)?;
    if tree.nodes > MOST_NODES {
        return None;
    }
    Some(Part {
        words: at + tree.words,
        right: all_right(terms) && tree.bound,
    })
}

// Reads `count` branches at the start of `p`.
pub fn branches(p: &[u32], count: u32) -> Option<Part>
    ensures { result ≡ part_of (all branch_right) (read_branches count p.now) }
{
    if count == 0 {
        return Some(Part {
            words: 0,
            right: true,
        });
    }
    let first = branch(p)?;
    let rest = branches(&p[first.words..], count - 1)?;
    Some(Part {
        words: first.words + rest.words,
        right: first.right && rest.right,
    })
}
