// Conditions evaluated in code, the short side of an "and" first: true, false or error, and how many comparisons were read; where right operands
// stand, found once a turn.
#![tactic(auto)]

mod operands;

ghost use Rattle.std.specs.Prelude.{◌≡◌, true};
ghost use Rattle.conditions.specs.Truth.{keeps_row};
ghost use Rattle.conditions.specs.Evaluated.{evaluated};
ghost use Rattle.conditions.specs.Values.{Readable, condition_in, lefts_of};
ghost use Rattle.plans.specs.Conditions.{always};

use condition_comparisons::compared;
use condition_joins::{is_short, joined, negated};
use condition_truths::{is_false, is_true};
use conditions::{Evaluated, Truth};
pub use operands::index_operands;
use plans::Node;

// The condition that `p` starts with, evaluated, with the words of every pair's left operand in `lefts`. A lone comparison on the right of an "and" is
// read first, and where it is false the left operand is skipped: nothing of it is looked at. Both orders are written out, and each call is handed parts
// of both lists: an operand chosen by its number, or a list handed on as it is, would have each call wait for memory.
pub fn evaluate(p: &[u32], lefts: &[u32], bound: &[u32; 16]) -> Evaluated
    requires readable { Readable p.now }
    requires lefts_value { lefts.now ≡ lefts_of p.now }
    ensures { result ≡ evaluated bound.now (condition_in p.now) }
{
    let word = p[0];
    match plans::node_of(word) {
        Node::Wrong => Evaluated {
            truth: Truth::True,
            reads: 0,
        },
        Node::Always => Evaluated {
            truth: Truth::True,
            reads: 0,
        },
        Node::Compared => compared(p, bound),
        Node::Negated => negated(evaluate(&p[1..], &lefts[1..], bound)),
        Node::Pair => {
            let right = 1 + words::wide(lefts[0]);
            if is_short(word, p[right]) {
                let lone = evaluate(&p[right..], &lefts[right..], bound);
                let truth = lone.truth;
                if is_false(truth) {
                    return lone;
                }
                return joined(word, lone, evaluate(&p[1..], &lefts[1..], bound));
            }
            let first = evaluate(&p[1..], &lefts[1..], bound);
            joined(word, first, evaluate(&p[right..], &lefts[right..], bound))
        }
    }
}

// Whether `p` starts with the condition that keeps every row: most plans have it.
fn always(p: &[u32]) -> bool
    requires { Readable p.now }
    ensures { result ≡ true → condition_in p.now ≡ always }
{
    matches!(plans::node_of(p[0]), Node::Always)
}

// Whether the condition that `p` starts with is true: only then is a row kept.
pub fn keeps(p: &[u32], lefts: &[u32], bound: &[u32; 16]) -> bool
    requires readable { Readable p.now }
    requires lefts_value { lefts.now ≡ lefts_of p.now }
    ensures { result ≡ keeps_row bound.now (condition_in p.now) }
{
    always(p) || is_true(evaluate(p, lefts, bound).truth)
}
