// Where the right operands of pairs stand: found once for a whole plan, so that no row takes a walk over words.
ghost use Rattle.std.specs.Prelude.{◌≡◌, ◌≤◌, length, take};
ghost use Rattle.plans.specs.Conditions.{read_condition, most_depth};
ghost use Rattle.plans.specs.Plans.{most_plan_words};
ghost use Rattle.plans.specs.Reading.{words_read};
ghost use Rattle.conditions.specs.Values.{left_words, lefts_of};

use plan_parts::condition;
use plans::{MOST_DEPTH, Node};

// The words of the condition that `p` starts with, or 0 where it starts with none. No comparison is made.
fn condition_words(p: &[u32]) -> usize
    ensures { result ≡ words_read (read_condition most_depth p.now) }
{
    match condition(p, MOST_DEPTH, &[]) {
        None => 0,
        Some(tree) => tree.words,
    }
}

// The words of the left operand of the pair that `p` starts with, or 0 where it starts with none.
fn left_words(p: &[u32]) -> usize
    ensures { result ≡ left_words p.now }
{
    if p.len() == 0 {
        return 0;
    }
    match plans::node_of(p[0]) {
        Node::Wrong => 0,
        Node::Always => 0,
        Node::Compared => 0,
        Node::Negated => 0,
        Node::Pair => condition_words(&p[1..]),
    }
}

// Writes to the front of `lefts`, for each place of `plan`, the words of the left operand of the pair that starts there, or 0.
pub fn index_operands(plan: &[u32], lefts: &mut [u32])
    requires { (length plan.now ≤ most_plan_words) × (length plan.now ≤ length lefts.old) }
    ensures { take (length plan.now) lefts.new ≡ lefts_of plan.now }
{
    for at in 0..plan.len() {
        lefts[at] = left_words(&plan[at..]) as u32;
    }
}
