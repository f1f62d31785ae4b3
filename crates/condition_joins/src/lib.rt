// Values put together: what is known of a condition from its operands, and which right operand is read first.
#![tactic(auto)]

ghost use Rattle.std.specs.Prelude.{◌≡◌};
ghost use Rattle.conditions.specs.Evaluated.{negated_read, pair_read};
ghost use Rattle.conditions.specs.Values.{joined_by, Few, is_short};

use condition_truths::{join, negation};
use conditions::Evaluated;
use words::PlanWord;

// The condition `v` under "not".
pub fn negated(v: Evaluated) -> Evaluated
    ensures { result ≡ negated_read v }
{
    let truth = v.truth;
    Evaluated {
        truth: negation(truth),
        reads: v.reads,
    }
}

// The conditions `first` and `second`, both read, joined by `word`.
pub fn joined(word: u32, first: Evaluated, second: Evaluated) -> Evaluated
    requires { Few first × Few second }
    ensures { result ≡ pair_read (joined_by word) first second }
{
    let a = first.truth;
    let b = second.truth;
    Evaluated {
        truth: join(word, a, b),
        reads: first.reads + second.reads,
    }
}

// Whether the right operand, which starts with `other`, of the pair that starts with `word` is its short side: a comparison under "and".
pub fn is_short(word: u32, other: u32) -> bool
    ensures { result ≡ is_short word other }
{
    PlanWord(word).kind() == PlanWord::AND && PlanWord(other).kind() == PlanWord::COMPARISON
}
