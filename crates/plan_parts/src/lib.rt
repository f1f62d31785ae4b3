// Where the branches and the ending of a plan that has the form stand; a condition read, and whether its variables are bound.
#![tactic(auto)]

mod branches;
mod nodes;

ghost use Rattle.std.specs.Prelude.{◌≡◌, true, ◌<◌, length, drop};
ghost use Rattle.plans.specs.Conditions.{read_condition, most_depth};
ghost use Rattle.plans.specs.Branches.{read_branch};
ghost use Rattle.plans.specs.Endings.{ending_form, ending_at};
ghost use Rattle.plans.specs.Years.{body_of};
ghost use Rattle.plans.specs.Plans.{read_plan, has_form, plan_of, branch_at};
ghost use Rattle.plans.specs.Reading.{Gives, branch_start};

pub use branches::branch_words;
pub use nodes::condition;
use plans::{branch_count, condition_part, from_head, terms};

// The part of `plan` behind its head.
fn body_part(plan: &[u32]) -> &[u32]
    requires { has_form (read_plan plan.now) ≡ true }
    ensures { result.now ≡ body_of plan.now }
{
    let part = from_head(plan);
    &part[1..]
}

// The part of `plan` from its branch number `number` (from 0) on.
pub fn branch_part(plan: &[u32], number: u32) -> &[u32]
    requires { (has_form (read_plan plan.now) ≡ true) × (number < length (plan_of plan.now).branches) }
    ensures start { result.now ≡ drop (branch_start number plan.now) plan.now }
    ensures branch { Gives (read_branch result.now) (branch_at (plan_of plan.now) number) }
{
    let body = body_part(plan);
    let at = branches::branches_words(body, number);
    &body[at..]
}

// The terms of the patterns of branch number `number` of `plan`.
pub fn branch_terms(plan: &[u32], number: u32) -> &[u32]
    requires { (has_form (read_plan plan.now) ≡ true) × (number < length (plan_of plan.now).branches) }
    ensures { result.now ≡ (branch_at (plan_of plan.now) number).terms }
{
    terms(branch_part(plan, number))
}

// The words of `plan` from the condition of its branch number `number` on.
pub fn branch_condition(plan: &[u32], number: u32) -> &[u32]
    requires { (has_form (read_plan plan.now) ≡ true) × (number < length (plan_of plan.now).branches) }
    ensures { Gives (read_condition most_depth result.now) (branch_at (plan_of plan.now) number).condition }
{
    condition_part(branch_part(plan, number))
}

// The part of `plan` from its ending on.
pub fn ending_part(plan: &[u32]) -> &[u32]
    requires { has_form (read_plan plan.now) ≡ true }
    ensures { (ending_form result.now ≡ true) × (ending_at result.now ≡ (plan_of plan.now).ending) }
{
    let body = body_part(plan);
    let at = branches::branches_words(body, branch_count(plan));
    &body[at..]
}
