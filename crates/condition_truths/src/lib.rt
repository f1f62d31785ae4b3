// Truths in code: and, or and not, as SPARQL's tables have them.
#![tactic(auto)]

ghost use Rattle.std.specs.Prelude.{◌≡◌};
ghost use Rattle.conditions.specs.Truth.{conjunction, disjunction, negation, of_test, is_true};
ghost use Rattle.conditions.specs.Evaluated.{is_false};
ghost use Rattle.conditions.specs.Values.{joined_by};

use conditions::Truth;
use words::PlanWord;

fn conjunction(a: Truth, b: Truth) -> Truth
    ensures { result ≡ conjunction a b }
{
    match a {
        Truth::True => b,
        Truth::False => Truth::False,
        Truth::Error => match b {
            Truth::True => Truth::Error,
            Truth::False => Truth::False, // and(error, false) is false
            Truth::Error => Truth::Error,
        },
    }
}

fn disjunction(a: Truth, b: Truth) -> Truth
    ensures { result ≡ disjunction a b }
{
    match a {
        Truth::True => Truth::True,
        Truth::False => b,
        Truth::Error => match b {
            Truth::True => Truth::True, // or(error, true) is true
            Truth::False => Truth::Error,
            Truth::Error => Truth::Error,
        },
    }
}

pub fn negation(a: Truth) -> Truth
    ensures { result ≡ negation a }
{
    match a {
        Truth::True => Truth::False,
        Truth::False => Truth::True,
        Truth::Error => Truth::Error, // not(error) is error
    }
}

pub fn of_test(passes: bool) -> Truth
    ensures { result ≡ of_test passes }
{
    if passes { Truth::True } else { Truth::False }
}

// `a` and `b` joined by `word`: by "and" if it is of kind 4, else by "or".
pub fn join(word: u32, a: Truth, b: Truth) -> Truth
    ensures { result ≡ joined_by word a b }
{
    if PlanWord(word).kind() == PlanWord::AND {
        return conjunction(a, b);
    }
    disjunction(a, b)
}

// Only true keeps a row.
pub fn is_true(truth: Truth) -> bool
    ensures { result ≡ is_true truth }
{
    matches!(truth, Truth::True)
}

// Only a right operand that is false settles an "and" before its left one is read.
pub fn is_false(truth: Truth) -> bool
    ensures { result ≡ is_false truth }
{
    matches!(truth, Truth::False)
}
