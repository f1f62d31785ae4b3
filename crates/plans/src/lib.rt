// Plans: one read from words (test 5), its variables (6) and years (23); which words are accepted, said without a reader. In code its head, the patterns
// of a branch and the node of a word.
#![tactic(auto)]

mod branches;
mod heads;
mod searches;

ghost use Rattle.std.specs.Prelude.{◌≡◌, ◌≤◌};
ghost use Rattle.plans.specs.Conditions.{node_of};
ghost use Rattle.plans.specs.Years.{head_of};
ghost use Rattle.plans.specs.Plans.{branch_count, most_branches};

pub use branches::{
    MOST_PATTERNS, OBJECT_FIELD, PATTERN_WIDTH, PREDICATE_FIELD, SUBJECT_FIELD, condition_part,
    pattern_count, terms,
};
pub use heads::{from_head, year_allowed, years_in};
pub use searches::{among, count_in, first};
use words::PlanWord;

// The most that a condition is deep, a lone node being 1 deep.
pub const MOST_DEPTH: u32 = 8;

pub const MOST_BRANCHES: u32 = 4;

// What a word of a condition begins.
#[derive(Clone, Copy)]
pub enum Node {
    Always,
    Pair,
    Negated,
    Compared,
    Wrong,
}

// A condition that was read: its words, its nodes, and whether its variables are bound.
#[derive(Clone, Copy)]
pub struct Tree {
    pub words: usize,
    pub nodes: usize,
    pub bound: bool,
}

// The years whose rows a plan reads: the latest that the tables have, every one, or one by its number.
#[derive(Clone, Copy)]
pub enum Years {
    Latest,
    Every,
    Named(u32),
}

// What the first word of an ending begins.
#[derive(Clone, Copy)]
pub enum EndingKind {
    Rows,
    Top,
    Group,
    Registers,
    Invalid,
}

// The node that `word` begins.
pub fn node_of(word: u32) -> Node
    ensures { result ≡ node_of word }
{
    let w = PlanWord(word);
    let kind = w.kind();
    let low = w.low();
    if kind == PlanWord::COMPARISON {
        if low <= PlanWord::LAST_OPERATOR {
            return Node::Compared;
        }
        return Node::Wrong;
    }
    if low != 0 {
        return Node::Wrong;
    }
    match kind {
        PlanWord::TRUE => Node::Always,
        PlanWord::AND => Node::Pair,
        PlanWord::OR => Node::Pair,
        PlanWord::NOT => Node::Negated,
        _ => Node::Wrong,
    }
}

// How many branches the head of `plan` names, or 0 where it has no head.
pub fn branch_count(plan: &[u32]) -> u32
    ensures { (result ≡ branch_count (head_of plan.now)) × (result ≤ most_branches) }
{
    count_in(from_head(plan), PlanWord::HEAD, MOST_BRANCHES)
}
