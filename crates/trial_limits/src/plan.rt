// Plans at the limits of their form.
use words::{PlanWord, Term};

pub const MOST: usize = 300;

// A plan under way: its words so far.
#[derive(Clone, Copy)]
pub struct Draft {
    pub words: [u32; 300],
    pub used: usize,
}

pub fn empty() -> Draft {
    Draft {
        words: [0; 300],
        used: 0,
    }
}

// `d` with `word` behind it; `d` as it is where there is no room.
pub fn with(d: Draft, word: u32) -> Draft {
    let mut next = d;
    let at = next.used;
    if at < MOST {
        next.words[at] = word;
        next.used = at + 1;
    }
    next
}

// `d` with `word` behind it, `times` times.
fn repeated(d: Draft, word: u32, times: u32) -> Draft {
    let mut next = d;
    for _ in 0..times {
        next = with(next, word);
    }
    next
}

// The pattern ?0 ?1 ?2.
fn with_pattern(d: Draft) -> Draft {
    with(
        with(with(d, Term::variable(0).0), Term::variable(1).0),
        Term::variable(2).0,
    )
}

// The comparison ?0 = ?1.
fn with_comparison(d: Draft) -> Draft {
    with(
        with(with(d, PlanWord::comparison(0).0), Term::variable(0).0),
        Term::variable(1).0,
    )
}

// The pairs that open before leaf number `leaf` of a whole tree with `levels` levels of pairs, in the sequence of a plan.
fn pairs_before(leaf: u32, levels: u32) -> u32 {
    if leaf == 0 {
        return levels;
    }
    u32::trailing_zeros(leaf)
}

// A condition: `nots` nots over a whole tree with `levels` levels of pairs, and `leaves` leaves.
fn with_condition(d: Draft, nots: u32, levels: u32, leaves: u32) -> Draft {
    let mut next = repeated(d, PlanWord::not().0, nots);
    for leaf in 0..leaves {
        next = with_comparison(repeated(next, PlanWord::and().0, pairs_before(leaf, levels)));
    }
    next
}

// A branch of `patterns` patterns, and such a condition.
fn with_branch(d: Draft, patterns: u32, nots: u32, levels: u32, leaves: u32) -> Draft {
    let mut next = with(d, PlanWord::branch(patterns).0);
    for _ in 0..patterns {
        next = with_pattern(next);
    }
    with_condition(next, nots, levels, leaves)
}

// The rows of ?0, as a plan's ending.
fn ended(d: Draft) -> Draft {
    with(with(d, PlanWord::rows(1).0), Term::variable(0).0)
}

// One branch with one pattern, its condition of `nots` nots over a tree.
pub fn with_tree(nots: u32, levels: u32, leaves: u32) -> Draft {
    ended(with_branch(with(empty(), PlanWord::head(1).0), 1, nots, levels, leaves))
}

// The same of `year`, which the plan names, with one comparison.
pub fn of_year(year: u32) -> Draft {
    let named = with(empty(), PlanWord::year(year).0);
    ended(with_branch(with(named, PlanWord::head(1).0), 1, 0, 0, 1))
}

// Four branches, 254 words and `nots` nots.
pub fn long(nots: u32) -> Draft {
    let first = with_branch(with(empty(), PlanWord::head(4).0), 8, 0, 4, 16);
    let second = with_branch(first, 8, 0, 4, 16);
    let third = with_branch(second, 8, 0, 3, 8);
    ended(with_branch(third, 5, nots, 0, 1))
}
