// Serving: the tests of the front entry and of both lists, one turn of the entry, and where it goes.
ghost use Rattle.std.specs.Prelude.{◌≡◌, ◌&&◌, List, ◌≤◌, min, get_or};
ghost use Rattle.words.specs.Tests.{first_failing, number_of};
ghost use Rattle.turns.specs.Surveys.{survey_of};
ghost use Rattle.queues.specs.declared.Entry.{Entry};
ghost use Rattle.queues.specs.Lists.{lent_as};
ghost use Rattle.queues.specs.Serving.{serve_of};
ghost use Rattle.queue_entries.specs.Entries.{nobody};
ghost use Rattle.queue_entries.specs.Seeing.{SeenOf};
ghost use Rattle.queue_changes.specs.Changes.{first_number};
ghost use Rattle.queue_outcomes.specs.Services.{front_by, DecidesServing};

use crate::numbers::{empty_number, front_number, list_number, quantum_number};
use crate::turning::turn_entry;
use queue_changes::{first_of, room_right};
use queue_entries::Seen;
use queue_outcomes::{ServeChanges, refused, turn_outcome};
use queues::Entry;

// Test 17 of both lists.
fn lists_right(seen: Seen) -> bool
    ensures { result ≡ seen.lined && seen.rested }
{
    seen.lined && seen.rested
}

// The most steps of a turn: `quantum`, and no more than `allowance`, which are left.
fn least_steps(quantum: u32, allowance: u64) -> u32
    ensures { result ≡ min quantum allowance }
{
    allowance.min(u64::from(quantum)) as u32
}

// The number of the first test that fails, or 0: those of the front entry `e`, or of an empty line; then `late`, the number of both lists.
fn serve_number(
    rows: &[u32],
    pos: &[u32],
    osp: &[u32],
    survey: u32,
    waiting: usize,
    e: Entry,
    quantum: u32,
    threshold: &[u32],
    output: &[u32],
    late: u32,
) -> u32
    ensures { result ≡ first_number (number_of (first_failing (front_by (survey_of rows.now pos.now osp.now survey)
        (record { quantum = quantum; threshold = threshold.now; output = output.now }) waiting e))) late }
{
    if waiting == 0 {
        return first_of(empty_number(rows, pos, osp, survey, quantum), late);
    }
    first_of(
        front_number(rows, pos, osp, survey, e, quantum, threshold, output),
        late,
    )
}

// How both lists change by a turn of the front entry `e`, and what serving answers. The tables are checked once: where no test of both lists
// and of the quantum fails, by the turn.
pub fn serve(
    rows: &[u32],
    pos: &[u32],
    osp: &[u32],
    survey: u32,
    seen: Seen,
    given: usize,
    kept: usize,
    e: Entry,
    quantum: u32,
    threshold: &[u32],
    output: &mut [u32],
) -> ServeChanges
    requires { seen.waiting ≤ given }
    ensures { (line aside : List Entry) → SeenOf (lent_as line given aside kept) 0 seen → e ≡ get_or line 0 nobody
        → DecidesServing (lent_as line given aside kept) result output.new
        (serve_of (survey_of rows.now pos.now osp.now survey) (lent_as line given aside kept)
        (record { quantum = quantum; threshold = threshold.now; output = output.old })) }
{
    let room = room_right(seen.room, seen.spare, given, kept, 0);
    let late = list_number(lists_right(seen), room, seen.waiting);
    if first_of(late, quantum_number(quantum)) != 0 {
        return refused(serve_number(
            rows,
            pos,
            osp,
            survey,
            seen.waiting,
            e,
            quantum,
            threshold,
            output,
            late,
        ));
    }
    let steps = least_steps(quantum, e.allowance);
    turn_outcome(
        turn_entry(rows, pos, osp, survey, e, steps, threshold, output),
        given,
        kept,
    )
}
