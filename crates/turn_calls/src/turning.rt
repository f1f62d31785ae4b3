// A turn: its tests, its steps, and the words that it writes.
ghost use Rattle.std.specs.Prelude.{◌≡◌, ◌≤◌, ◌<◌, length};
ghost use Rattle.words.specs.Words.{low_numbers};
ghost use Rattle.sequences.specs.Sequences.{over};
ghost use Rattle.calls.specs.Calls.{AnswersRight};
ghost use Rattle.steps.specs.Saved.{saved_words, least_state_words};
ghost use Rattle.state_saving.specs.Loading.{Storable};
ghost use Rattle.turns.specs.declared.TurnEnding.{TurnEnding};
ghost use Rattle.turns.specs.Turns.{turn_input, turn_result, turn_schema, turn_of};
ghost use Rattle.turn_savings.specs.Leaving.{left_at};
ghost use Rattle.turn_runs.specs.Running.{answer_of};

use turn_runs::{Ran, run};
use turn_savings::save_left;
use turn_tests::{ACCEPTED, prepare};
use turns::{TurnEnding, Turned};
use words::Term;

// The answer of a turn whose steps are made, as `ran` says.
fn finish(survey: u32, ran: Ran, state: &mut [u32]) -> Turned
    requires { (survey < low_numbers) × (least_state_words ≤ length state.old)
        × ((ran.ending ≡ TurnEnding.Done → ⊥) → Storable ran.next) }
    ensures { (result ≡ answer_of survey ran)
        × (state.new ≡ over (saved_words survey (left_at ran.ending ran.next)) state.old) }
{
    let ending = ran.ending;
    let next = ran.next;
    let saved = save_left(survey, ending, next, state);
    Turned {
        steps: ran.steps,
        ending,
        saved,
        listed: ran.used,
    }
}

// Runs one turn of a query: at most `quantum` steps from its state, which is the first `given` words of `state`.
pub fn turn(
    rows: &[u32],
    pos: &[u32],
    osp: &[u32],
    survey: u32,
    plan: &[u32],
    state: &mut [u32],
    given: usize,
    quantum: u32,
    threshold: &[u32],
    output: &mut [u32],
) -> Turned
    ensures output_after { turn_result result state.new output.new
        ≡ turn_of (turn_input rows.now pos.now osp.now survey plan.now state.old given quantum
        threshold.now output.old) }
    ensures number { AnswersRight turn_schema
        (turn_input rows.now pos.now osp.now survey plan.now state.old given quantum
        threshold.now output.old) result }
{
    let mut bound = [Term::UNBOUND; 16];
    let loaded = prepare(
        rows, pos, osp, survey, plan, state, given, quantum, threshold, output, &mut bound,
    );
    let number = loaded.refused;
    if number != ACCEPTED {
        return Turned {
            steps: 0,
            ending: TurnEnding::Refused(number),
            saved: 0,
            listed: 0,
        };
    }
    let from = loaded.from;
    finish(
        survey,
        run(
            rows, pos, osp, plan, threshold, from, quantum, &mut bound, output,
        ),
        state,
    )
}
