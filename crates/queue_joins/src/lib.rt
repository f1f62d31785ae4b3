// The calls `join` and `top_up`: each looks over both lists, decides on numbers and an entry by value, and settles both lists.
#![tactic(auto)]

ghost use Rattle.std.specs.Prelude.{◌≡◌};
ghost use Rattle.queues.specs.Lists.{lent_as};
ghost use Rattle.queues.specs.ToppingUp.{top_up_of};
ghost use Rattle.queues.specs.Joining.{join_queue_of};
ghost use Rattle.turns.specs.Surveys.{survey_of};

use queue_entries::{entry_at, look, remove_then_append};
use queues::{Entry, Queued};

// A query of `owner` joins: with steps at the end of the line, without at the end of the list set aside.
pub fn join(
    rows: &[u32],
    pos: &[u32],
    osp: &[u32],
    survey: u32,
    line: &mut [Entry],
    given: usize,
    aside: &mut [Entry],
    kept: usize,
    owner: u32,
    allowance: u64,
    plan: &[u32],
    state: &[u32],
) -> Queued
    ensures { record { answer = result; buffers = record { line = line.new; aside = aside.new } }
        ≡ join_queue_of (survey_of rows.now pos.now osp.now survey)
        (lent_as line.old given aside.old kept)
        (record { owner = owner; allowance = allowance; plan = plan.now; state = state.now }) }
{
    let seen = look(line, given, aside, kept, owner);
    let d = queue_tests::join(
        rows, pos, osp, survey, seen, given, kept, owner, allowance, plan, state,
    );
    remove_then_append(line, d.line.gap, d.line.last, d.line.adds, d.entry);
    remove_then_append(aside, d.aside.gap, d.aside.last, d.aside.adds, d.entry);
    d.answer
}

// Brings the entry of `owner` that is set aside back to the end of the line, with `amount` steps.
pub fn top_up(
    line: &mut [Entry],
    given: usize,
    aside: &mut [Entry],
    kept: usize,
    owner: u32,
    amount: u64,
) -> Queued
    ensures { record { answer = result; buffers = record { line = line.new; aside = aside.new } }
        ≡ top_up_of (lent_as line.old given aside.old kept) owner amount }
{
    let seen = look(line, given, aside, kept, owner);
    let e = entry_at(aside, seen.found);
    let d = queue_tests::top_up(seen, given, kept, owner, amount, e);
    remove_then_append(line, d.line.gap, d.line.last, d.line.adds, d.entry);
    remove_then_append(aside, d.aside.gap, d.aside.last, d.aside.adds, d.entry);
    d.answer
}
