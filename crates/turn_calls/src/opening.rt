// Opening a query: the words of its start state.
ghost use Rattle.std.specs.Prelude.{◌≡◌};
ghost use Rattle.calls.specs.Calls.{AnswersRight};
ghost use Rattle.turns.specs.Surveys.{survey_of};
ghost use Rattle.turns.specs.Opening.{open_input, open_schema, open_of};

use turn_sizes::start;
use turn_tests::{ACCEPTED, check};
use words::{Term, Written};

// Writes the start state of a query to `state`, or refuses by the number of the first test that fails.
pub fn open(
    rows: &[u32],
    pos: &[u32],
    osp: &[u32],
    survey: u32,
    plan: &[u32],
    state: &mut [u32],
) -> Written
    ensures state_after { record { answer = result; buffers = state.new }
        ≡ open_of (survey_of rows.now pos.now osp.now survey) plan.now state.old }
    ensures number { AnswersRight open_schema (open_input (survey_of rows.now pos.now osp.now survey)
        plan.now state.old) result }
{
    let number = check(rows, pos, osp, plan);
    if number != ACCEPTED {
        return Written::Refused(number);
    }
    let own = start(survey, state);
    if own != ACCEPTED {
        return Written::Refused(own);
    }
    let mut bound = [Term::UNBOUND; 16];
    let from = step_moves::start(rows, pos, osp, plan, &mut bound);
    Written::Words(state_saving::save(survey, from, state))
}
