// Joining: the tests of tables and plan, 9, 22, 10, 17 and 18, and the new entry to the end of one of the lists.
ghost use Rattle.std.specs.Prelude.{◌≡◌, List, ◌+◌, ◌<◌, ◌≤◌, length};
ghost use Rattle.words.specs.Tests.{first_failing, number_of};
ghost use Rattle.turns.specs.Surveys.{survey_of};
ghost use Rattle.queues.specs.declared.Entry.{Entry};
ghost use Rattle.queues.specs.Lists.{most_entries, entry_plan_room, entry_state_room, lent_as};
ghost use Rattle.queues.specs.Joining.{new_entry, join_queue_of};
ghost use Rattle.queue_entries.specs.Seeing.{SeenOf};
ghost use Rattle.queue_changes.specs.Changes.{Decides, admitted_by};
ghost use Rattle.queue_tests.specs.Queries.{query_tests};

use queue_changes::{
    Queueing, appended, first_of, join_right, lists_number, refused, room_right, unchanged,
};
use queue_entries::Seen;
use queues::{Entry, Queued};
use words::Term;

// The number of the first of the tests of tables and plan, and of 9, 22 and 10, that a query fails, or 0.
fn query_number(
    rows: &[u32],
    pos: &[u32],
    osp: &[u32],
    survey: u32,
    plan: &[u32],
    state: &[u32],
) -> u32
    ensures { result ≡ number_of (first_failing (query_tests (survey_of rows.now pos.now osp.now survey)
        plan.now state.now)) }
{
    let number = turn_tests::check(rows, pos, osp, plan);
    if number != 0 {
        return number;
    }
    let mut bound = [Term::UNBOUND; 16];
    state_loading::load(rows, pos, osp, survey, plan, state, &mut bound).refused
}

// The entry of a query of `owner` that joins.
fn entry_of(owner: u32, allowance: u64, plan: &[u32], state: &[u32]) -> Entry
    requires { (length plan.now ≤ entry_plan_room) × (length state.now ≤ entry_state_room) }
    ensures { result ≡ new_entry (record { owner = owner; allowance = allowance; plan = plan.now; state = state.now }) }
{
    let mut words = [0u32; 256];
    words::copy_in(&mut words, 0, plan);
    let mut saved = [0u32; 11];
    words::copy_in(&mut saved, 0, state);
    Entry {
        allowance,
        owner,
        planned: plan.len() as u32,
        saved: state.len() as u32,
        plan: words,
        state: saved,
    }
}

// `e` goes to the end of the line, or to the end of the list set aside if it has no steps.
fn admitted(e: Entry, given: usize, kept: usize) -> Queueing
    requires { given + kept < most_entries }
    ensures { result ≡ admitted_by e given kept }
{
    if e.allowance == 0 {
        return Queueing {
            answer: Queued::Lists(given, kept + 1),
            line: unchanged(),
            aside: appended(kept),
            entry: e,
        };
    }
    Queueing {
        answer: Queued::Lists(given + 1, kept),
        line: appended(given),
        aside: unchanged(),
        entry: e,
    }
}

// How both lists change by a query of `owner` that joins.
pub fn join(
    rows: &[u32],
    pos: &[u32],
    osp: &[u32],
    survey: u32,
    seen: Seen,
    given: usize,
    kept: usize,
    owner: u32,
    allowance: u64,
    plan: &[u32],
    state: &[u32],
) -> Queueing
    ensures { (line aside : List Entry) → SeenOf (lent_as line given aside kept) owner seen
        → Decides (lent_as line given aside kept) result (join_queue_of (survey_of rows.now pos.now osp.now survey)
        (lent_as line given aside kept)
        (record { owner = owner; allowance = allowance; plan = plan.now; state = state.now })) }
{
    let room = room_right(seen.room, seen.spare, given, kept, 1);
    let late = lists_number(join_right(seen), room);
    let number = first_of(query_number(rows, pos, osp, survey, plan, state), late);
    if number != 0 {
        return refused(number);
    }
    admitted(entry_of(owner, allowance, plan, state), given, kept)
}
