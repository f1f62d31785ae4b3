// The tests of opening and of a turn, in their order.
ghost use Rattle.std.specs.Prelude.{◌≡◌, true, ◌&&◌, ◌++◌, leb, length, take};
ghost use Rattle.words.specs.Tests.{first_failing, number_of};
ghost use Rattle.tables.specs.Tables.{tables_of, table_tests};
ghost use Rattle.tables.specs.Right.{Right};
ghost use Rattle.plans.specs.Plans.{read_plan, has_form, plan_of, plan_tests};
ghost use Rattle.steps.specs.Saved.{state_in, shape_right, survey_right, places_right};
ghost use Rattle.step_cursors.specs.Held.{state_of, current_branch, Held, EndsHeld};
ghost use Rattle.lists.specs.Gathering.{threshold_right};
ghost use Rattle.turns.specs.Turns.{turn_tests, turn_input};
ghost use Rattle.turn_sizes.specs.Testing.{late_number};

use list_limits::threshold_right;
use state_loading::{Loaded, refused};
use turn_sizes::sizes;

// The tests of state and threshold, by their numbers; and that all pass.
pub const STATE: u32 = 9;

pub const THRESHOLD: u32 = 11;

pub const ACCEPTED: u32 = 0;

// The tests of tables and plan: 0, or the number of the first that fails.
pub fn check(rows: &[u32], pos: &[u32], osp: &[u32], plan: &[u32]) -> u32
    ensures { result ≡ number_of (first_failing (table_tests (tables_of rows.now pos.now osp.now)
        ++ plan_tests plan.now)) }
{
    let number = table_tests::check(rows, pos, osp);
    if number != 0 {
        return number;
    }
    plan_tests::check(plan)
}

// Tests 9, 22, 10 and 11: the cursor of the state in the first `given` words of `state`, or the number of the first test that fails.
fn load(
    rows: &[u32],
    pos: &[u32],
    osp: &[u32],
    survey: u32,
    plan: &[u32],
    state: &[u32],
    given: usize,
    threshold: &[u32],
    bound: &mut [u32; 16],
) -> Loaded
    requires right { Right (tables_of rows.now pos.now osp.now) }
    requires plan_value { has_form (read_plan plan.now) ≡ true }
    ensures refused_value { result.refused ≡ late_number
        (leb given (length state.now) && shape_right (tables_of rows.now pos.now osp.now)
        (plan_of plan.now) (take given state.now))
        (survey_right survey (take given state.now))
        (places_right (tables_of rows.now pos.now osp.now) (plan_of plan.now) (take given state.now))
        (threshold_right (plan_of plan.now).ending threshold.now) }
    ensures from_value { result.refused ≡ 0 → (state_of result.from ≡ state_in (take given state.now))
        × Held (tables_of rows.now pos.now osp.now) plan.now result.from bound.new }
    ensures ends { result.refused ≡ 0 → EndsHeld (tables_of rows.now pos.now osp.now)
        (current_branch plan.now result.from).terms result.from }
{
    if given > state.len() {
        return refused(STATE);
    }
    let loaded = state_loading::load(rows, pos, osp, survey, plan, &state[..given], bound);
    if loaded.refused != ACCEPTED {
        return loaded;
    }
    if threshold_right(plan_parts::ending_part(plan), threshold) {
        return loaded;
    }
    refused(THRESHOLD)
}

// All tests of a turn: the cursor of its state, or the number of the first test that its input fails.
pub fn prepare(
    rows: &[u32],
    pos: &[u32],
    osp: &[u32],
    survey: u32,
    plan: &[u32],
    state: &[u32],
    given: usize,
    quantum: u32,
    threshold: &[u32],
    output: &[u32],
    bound: &mut [u32; 16],
) -> Loaded
    ensures refused_value { result.refused
        ≡ number_of (first_failing (turn_tests (turn_input rows.now pos.now osp.now survey plan.now
        state.now given quantum threshold.now output.now))) }
    ensures from_value { result.refused ≡ 0 → (state_of result.from ≡ state_in (take given state.now))
        × Held (tables_of rows.now pos.now osp.now) plan.now result.from bound.new }
    ensures ends { result.refused ≡ 0 → EndsHeld (tables_of rows.now pos.now osp.now)
        (current_branch plan.now result.from).terms result.from }
{
    let number = check(rows, pos, osp, plan);
    if number != ACCEPTED {
        return refused(number);
    }
    let size = sizes(plan_parts::ending_part(plan), state, quantum, output);
    if size != ACCEPTED {
        return refused(size);
    }
    load(rows, pos, osp, survey, plan, state, given, threshold, bound)
}
