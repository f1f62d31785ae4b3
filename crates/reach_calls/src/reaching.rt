// The call: its tests, and how far its state is.
ghost use Rattle.std.specs.Prelude.{◌≡◌, true, [], ◌<◌, length};
ghost use Rattle.words.specs.Words.{number};
ghost use Rattle.calls.specs.Calls.{AnswersRight};
ghost use Rattle.tables.specs.Tables.{tables_of, section_of};
ghost use Rattle.tables.specs.Right.{Right};
ghost use Rattle.tables.specs.Ranges.{range_start, range_end};
ghost use Rattle.plans.specs.Plans.{read_plan, has_form, plan_of, branch_at};
ghost use Rattle.steps.specs.Levels.{under};
ghost use Rattle.step_cursors.specs.Carried.{year_of};
ghost use Rattle.step_cursors.specs.Held.{upper_of, state_of};
ghost use Rattle.turns.specs.Surveys.{survey_of};
ghost use Rattle.turns.specs.Opening.{open_input};
ghost use Rattle.reach.specs.Reach.{outermost, far_of, as_answer, reach_schema, reached_of};

use crate::years::{year_count, year_number};
use reach::HowFar;
use step_cursors::Cursor;
use step_fields::level_of;
use step_levels::level_range;
use tables::{Bounds, Place};
use turn_tests::{ACCEPTED, check};
use words::Term;

// The range of the first pattern of branch number `branch`, over the rows that begin with `year`, looked for near `near`, which may be any place.
fn first_range(
    rows: &[u32],
    pos: &[u32],
    osp: &[u32],
    plan: &[u32],
    year: u32,
    branch: u32,
    near: Place,
) -> Bounds
    requires right { Right (tables_of rows.now pos.now osp.now) }
    requires plan_value { (has_form (read_plan plan.now) ≡ true) × (branch < length (plan_of plan.now).branches) }
    ensures first_value { result.first.0 ≡ range_start (tables_of rows.now pos.now osp.now)
        (under (section_of rows.now pos.now osp.now year) (branch_at (plan_of plan.now) branch).terms []) }
    ensures end_value { result.end.0 ≡ range_end (tables_of rows.now pos.now osp.now)
        (under (section_of rows.now pos.now osp.now year) (branch_at (plan_of plan.now) branch).terms []) }
{
    let bound = [Term::UNBOUND; 16];
    let f = level_of(year, plan_parts::branch_terms(plan, branch), 0, &bound);
    level_range(rows, pos, osp, f, near)
}

// The place of the first level of `c`.
fn outer(c: Cursor) -> Place
    ensures { result.0 ≡ outermost (upper_of c.upper c.level) c.place.0 }
{
    if c.level == 0 { c.place } else { c.upper[0] }
}

// How far `c` is.
fn far(rows: &[u32], pos: &[u32], osp: &[u32], plan: &[u32], c: Cursor) -> HowFar
    requires right { Right (tables_of rows.now pos.now osp.now) }
    requires plan_value { (has_form (read_plan plan.now) ≡ true) × (c.branch < length (plan_of plan.now).branches) }
    requires year_value { c.fields.year ≡ number (year_of c) }
    ensures { result ≡ as_answer (far_of (tables_of rows.now pos.now osp.now)
        (plan_of plan.now) (state_of c)) }
{
    let f = c.fields;
    let branch = c.branch;
    let place = outer(c);
    let range = first_range(rows, pos, osp, plan, f.year, branch, place);
    let first = range.first;
    let end = range.end;
    let years = year_count(rows, plans::years_in(plan));
    let year = year_number(rows, plans::years_in(plan), Term(f.year).value());
    HowFar::At {
        years,
        year,
        branches: plans::branch_count(plan),
        branch,
        places: end.0.saturating_sub(first.0),
        passed: place.0.saturating_sub(first.0),
    }
}

// How far the query is whose state is `state`, over these tables under the number `survey`; or the number of the first test that fails, of a turn's on
// tables, plan and state.
pub fn reached(
    rows: &[u32],
    pos: &[u32],
    osp: &[u32],
    survey: u32,
    plan: &[u32],
    state: &[u32],
) -> HowFar
    ensures value { result ≡ reached_of (survey_of rows.now pos.now osp.now survey)
        plan.now state.now }
    ensures number { AnswersRight reach_schema (open_input (survey_of rows.now pos.now osp.now survey)
        plan.now state.now) result }
{
    let early = check(rows, pos, osp, plan);
    if early != ACCEPTED {
        return HowFar::Refused(early);
    }
    let mut bound = [Term::UNBOUND; 16];
    let loaded = state_loading::load(rows, pos, osp, survey, plan, state, &mut bound);
    let late = loaded.refused;
    if late != ACCEPTED {
        return HowFar::Refused(late);
    }
    let from = loaded.from;
    far(rows, pos, osp, plan, from)
}
