// One turn of an entry: what it answers, and the entry after it.
ghost use Rattle.std.specs.Prelude.{◌≤◌};
ghost use Rattle.turns.specs.Surveys.{survey_of};
ghost use Rattle.turns.specs.Turns.{turn_of};
ghost use Rattle.queues.specs.Serving.{entry_turn};
ghost use Rattle.queue_outcomes.specs.Services.{EndedBy};

use crate::numbers::planned;
use queue_outcomes::{Ended, entry_with};
use queues::Entry;

// A turn of `e`, for at most `steps` steps.
pub fn turn_entry(
    rows: &[u32],
    pos: &[u32],
    osp: &[u32],
    survey: u32,
    e: Entry,
    steps: u32,
    threshold: &[u32],
    output: &mut [u32],
) -> Ended
    requires { steps ≤ e.allowance }
    ensures { EndedBy (turn_of (entry_turn (survey_of rows.now pos.now osp.now survey)
        (record { quantum = steps; threshold = threshold.now; output = output.old }) e steps)) e result output.new }
{
    let words = e.plan;
    let mut state = e.state;
    let count = planned(e);
    let turned = turn_calls::turn(
        rows,
        pos,
        osp,
        survey,
        &words[..count],
        &mut state,
        e.saved as usize,
        steps,
        threshold,
        output,
    );
    Ended {
        turned,
        entry: entry_with(e, turned.steps, turned.saved as u32, state),
    }
}
