// One turn of a query, its list taken, and how the query goes on.
#![tactic(auto)]

ghost use Rattle.std.specs.Prelude.{◌≡◌, []};
ghost use Rattle.turns.specs.Turns.{turn_input};
ghost use Rattle.queries.specs.Stepping.{take_turn_of, went_of};
ghost use Rattle.queries.specs.Rounds.{buffers, standing_of};

use queries::{Keeping, Step, Went};
use query_answers::is_served;
use turns::TurnEnding;
use words::Written;

// Runs one turn, with no threshold, and takes its list into the kept one, which is the first `used` words of `kept`.
pub fn take_turn(
    rows: &[u32],
    pos: &[u32],
    osp: &[u32],
    survey: u32,
    plan: &[u32],
    state: &mut [u32],
    saved: usize,
    quantum: u32,
    output: &mut [u32],
    kept: &mut [u32],
    used: usize,
    keeping: Keeping,
) -> Step
    ensures { record { answer = result; state = state.new; output = output.new; kept = kept.new }
        ≡ take_turn_of keeping (turn_input rows.now pos.now osp.now survey plan.now state.old
        saved quantum [] output.old) kept.old used }
{
    let turned = turn_calls::turn(
        rows,
        pos,
        osp,
        survey,
        plan,
        state,
        saved,
        quantum,
        &plan[..0],
        output,
    );
    let taken = if is_served(turned.ending) {
        query_lists::take_list(plan, kept, used, &output[..turned.listed], keeping)
    } else {
        Written::Words(used)
    };
    Step { turned, taken }
}

// How the query goes on after `step`, a turn whose list was taken, or not.
pub fn outcome(step: Step) -> Went
    ensures { result ≡ went_of step }
{
    let turned = step.turned;
    match step.taken {
        Written::Refused(x) => Went::Stopped(x),
        Written::Words(words) => match turned.ending {
            TurnEnding::Done => Went::Over(words),
            TurnEnding::Spent | TurnEnding::Full => Went::On {
                saved: turned.saved,
                words,
            },
            TurnEnding::Refused(x) => Went::Stopped(x),
        },
    }
}

// Runs one turn, takes its list, and tells how the query goes on.
pub fn advance(
    rows: &[u32],
    pos: &[u32],
    osp: &[u32],
    survey: u32,
    plan: &[u32],
    state: &mut [u32],
    saved: usize,
    quantum: u32,
    output: &mut [u32],
    kept: &mut [u32],
    used: usize,
    keeping: Keeping,
) -> Went
    ensures { record { went = result; held = buffers state.new output.new kept.new }
        ≡ standing_of (take_turn_of keeping (turn_input rows.now pos.now osp.now survey plan.now state.old
        saved quantum [] output.old) kept.old used) }
{
    outcome(take_turn(
        rows, pos, osp, survey, plan, state, saved, quantum, output, kept, used, keeping,
    ))
}
