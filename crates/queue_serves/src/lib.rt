// The call `serve`: looks over both lists, makes a turn of the front entry by value, and settles both lists.
#![tactic(auto)]

ghost use Rattle.std.specs.Prelude.{◌≡◌};
ghost use Rattle.queues.specs.Lists.{lent_as};
ghost use Rattle.queues.specs.Serving.{serve_of};
ghost use Rattle.turns.specs.Surveys.{survey_of};

use queue_entries::{entry_at, look, remove_then_append};
use queues::{Entry, Service};

// Serves the front entry of the line: one turn of its query, for at most `quantum` steps and no more than are left to it.
pub fn serve(
    rows: &[u32],
    pos: &[u32],
    osp: &[u32],
    survey: u32,
    line: &mut [Entry],
    given: usize,
    aside: &mut [Entry],
    kept: usize,
    quantum: u32,
    threshold: &[u32],
    output: &mut [u32],
) -> Service
    ensures { record { answer = result; buffers = record { line = line.new; aside = aside.new; output = output.new } }
        ≡ serve_of (survey_of rows.now pos.now osp.now survey)
        (lent_as line.old given aside.old kept)
        (record { quantum = quantum; threshold = threshold.now; output = output.old }) }
{
    let seen = look(line, given, aside, kept, 0);
    let e = entry_at(line, 0);
    let d = queue_turns::serve(
        rows, pos, osp, survey, seen, given, kept, e, quantum, threshold, output,
    );
    remove_then_append(line, d.line.gap, d.line.last, d.line.adds, d.entry);
    remove_then_append(aside, d.aside.gap, d.aside.last, d.aside.adds, d.entry);
    d.answer
}
