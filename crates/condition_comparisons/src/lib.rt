// Comparisons of two terms.
#![tactic(auto)]

ghost use Rattle.std.specs.Prelude.{◌≡◌, ◌≤◌, cond, length};
ghost use Rattle.plans.specs.Conditions.{comparison_words};
ghost use Rattle.conditions.specs.declared.Truth.TheVariants.{Error};
ghost use Rattle.conditions.specs.Truth.{of_test, kinds_are, equality, comparison};
ghost use Rattle.conditions.specs.Values.{have_order, are_mixed, comparison_read};

use condition_truths::{negation, of_test};
use conditions::{Evaluated, Truth};
use words::{PlanWord, Term, value_of};

// Whether `a` is of the kind `j` and `b` of the kind `k`.
fn kinds_are(j: u32, k: u32, a: u32, b: u32) -> bool
    ensures { result ≡ kinds_are j k a b }
{
    Term(a).kind() == j && Term(b).kind() == k
}

// Whether `a` and `b` are two numbers or two texts.
fn have_order(a: u32, b: u32) -> bool
    ensures { result ≡ have_order a b }
{
    kinds_are(Term::NUMBER, Term::NUMBER, a, b) || kinds_are(Term::TEXT, Term::TEXT, a, b)
}

// Whether one of `a` and `b` is a number and the other a text.
fn are_mixed(a: u32, b: u32) -> bool
    ensures { result ≡ are_mixed a b }
{
    kinds_are(Term::NUMBER, Term::TEXT, a, b) || kinds_are(Term::TEXT, Term::NUMBER, a, b)
}

fn equality(a: u32, b: u32) -> Truth
    ensures { result ≡ equality a b }
{
    if a == b {
        return Truth::True;
    }
    if are_mixed(a, b) {
        return Truth::Error;
    }
    Truth::False
}

// What two terms say that have an order, where `passes` is what the order of their values says; else an error.
fn inequality(a: u32, b: u32, passes: bool) -> Truth
    ensures { result ≡ cond (have_order a b) (of_test passes) Error }
{
    if have_order(a, b) {
        of_test(passes)
    } else {
        Truth::Error
    }
}

// The comparison of `a` and `b` by the operator with the number `operator`: the ranks that two terms of one kind have as keys are in the order of their
// values.
fn compare(operator: u32, a: u32, b: u32) -> Truth
    ensures { result ≡ comparison operator a b }
{
    let (first, second) = (Term(a).key_rank(), Term(b).key_rank());
    match operator {
        PlanWord::EQUAL => equality(a, b),
        PlanWord::UNEQUAL => negation(equality(a, b)),
        PlanWord::LESS => inequality(a, b, first < second),
        PlanWord::AT_MOST => inequality(a, b, first <= second),
        PlanWord::GREATER => inequality(b, a, second < first),
        PlanWord::AT_LEAST => inequality(b, a, second <= first),
        _ => Truth::Error,
    }
}

// The comparison that `p` starts with, evaluated with the values in `bound`: one comparison is read.
pub fn compared(p: &[u32], bound: &[u32; 16]) -> Evaluated
    requires { comparison_words ≤ length p.now }
    ensures { result ≡ comparison_read bound.now p.now }
{
    Evaluated {
        truth: compare(
            PlanWord(p[0]).low(),
            value_of(p[1], bound),
            value_of(p[2], bound),
        ),
        reads: 1,
    }
}
