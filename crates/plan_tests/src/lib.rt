// The tests of a plan's form (5), of its variables (6) and of a year that it names (23).
#![tactic(auto)]

mod branches;

ghost use Rattle.std.specs.Prelude.{◌≡◌};
ghost use Rattle.words.specs.Tests.{first_failing, number_of};
ghost use Rattle.plans.specs.Branches.{read_branches};
ghost use Rattle.plans.specs.Plans.{with_ending, plan_tests};
ghost use Rattle.plan_tests.specs.Testing.{plan_number};

use plan_ending_forms::ending_form;
use plan_ending_variables::ending_right;
use plan_numbers::{FORM, number_of};
use plans::{Years, year_allowed};

pub const MOST_WORDS: usize = 256;

// The number of the test of a plan's variables.
pub const VARIABLES: u32 = plan_numbers::VARIABLES;

// A part of a plan that was read: its words, and whether its variables are right.
#[derive(Clone, Copy)]
pub struct Part {
    pub words: usize,
    pub right: bool,
}

// The check of a plan that reads `years`, from `body` on, the words after its head: there `count` branches and one ending are to stand.
fn check_body(years: Years, body: &[u32], count: u32) -> u32
    ensures { result ≡ plan_number (with_ending years body.now (read_branches count body.now)) }
{
    match branches::branches(body, count) {
        None => FORM,
        Some(part) => {
            let e = &body[part.words..];
            number_of(
                ending_form(e),
                part.right && ending_right(body, count, e),
                year_allowed(years),
            )
        }
    }
}

// 0, or the number of the first test that `plan` fails: 5 over the whole plan, then 6, and then 23.
pub fn check(plan: &[u32]) -> u32
    ensures { result ≡ number_of (first_failing (plan_tests plan.now)) }
{
    if plan.len() > MOST_WORDS {
        return FORM;
    }
    let count = plans::branch_count(plan);
    if count == 0 {
        return FORM;
    }
    let part = plans::from_head(plan);
    check_body(plans::years_in(plan), &part[1..], count)
}
