// The words before the branches: the years whose rows a plan reads, and where its head stands.
ghost use Rattle.std.specs.Prelude.{◌≡◌};
ghost use Rattle.plans.specs.Years.{years_in, from_head, year_allowed};

use crate::Years;
use words::{MOST_YEAR, PlanWord};

// The part of `plan` from its head on.
pub fn from_head(plan: &[u32]) -> &[u32]
    ensures { result.now ≡ from_head plan.now }
{
    if plan.len() == 0 {
        return plan;
    }
    if PlanWord(plan[0]).kind() != PlanWord::YEAR {
        return plan;
    }
    &plan[1..]
}

// The years whose rows `plan` reads.
pub fn years_in(plan: &[u32]) -> Years
    ensures { result ≡ years_in plan.now }
{
    if plan.len() == 0 {
        return Years::Latest;
    }
    let w = PlanWord(plan[0]);
    if w.kind() != PlanWord::YEAR {
        return Years::Latest;
    }
    let number = w.low();
    if number == 0 {
        return Years::Every;
    }
    Years::Named(number)
}

// Whether a plan may read `years`. (23)
pub fn year_allowed(years: Years) -> bool
    ensures { result ≡ year_allowed years }
{
    match years {
        Years::Latest => true,
        Years::Every => true,
        Years::Named(number) => number <= MOST_YEAR,
    }
}
