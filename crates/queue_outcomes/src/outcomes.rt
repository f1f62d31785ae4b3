// Where an entry goes after its turn, and what serving answers.
ghost use Rattle.std.specs.Prelude.{◌≡◌, ◌+◌, ◌≤◌};
ghost use Rattle.queues.specs.Lists.{most_entries};
ghost use Rattle.queue_outcomes.specs.Services.{entry_with, serving_refused, answered_by, dequeued_by, requeued_by, turn_outcome_by};

use crate::{Ended, ServeChanges};
use queue_changes::{appended, removed, rotated, unchanged};
use queue_entries::nobody;
use queues::{Entry, Service};
use turns::{TurnEnding, Turned};

// `e` after `steps` steps, with its new state, the first `saved` words of `state`.
pub fn entry_with(e: Entry, steps: u32, saved: u32, state: [u32; 11]) -> Entry
    requires { steps ≤ e.allowance }
    ensures { result ≡ entry_with e steps saved state }
{
    Entry {
        allowance: e.allowance - u64::from(steps),
        saved,
        state,
        ..e
    }
}

// A call that is refused by `number` changes neither list.
pub fn refused(number: u32) -> ServeChanges
    ensures { result ≡ serving_refused number }
{
    ServeChanges {
        answer: Service {
            turned: Turned {
                steps: 0,
                ending: TurnEnding::Refused(number),
                saved: 0,
                listed: 0,
            },
            owner: 0,
            left: 0,
            waiting: 0,
            resting: 0,
        },
        line: unchanged(),
        aside: unchanged(),
        entry: nobody(),
    }
}

// The answer after the turn `ended`, with `waiting` entries in the line and `resting` set aside.
fn answered(ended: Ended, waiting: usize, resting: usize) -> Service
    ensures { result ≡ answered_by ended waiting resting }
{
    let turned = ended.turned;
    let entry = ended.entry;
    Service {
        turned,
        owner: entry.owner,
        left: entry.allowance,
        waiting,
        resting,
    }
}

// Done, the entry of the turn `ended` leaves the line.
fn dequeued(ended: Ended, given: usize, kept: usize) -> ServeChanges
    requires { 1 ≤ given }
    ensures { result ≡ dequeued_by ended given kept }
{
    let entry = ended.entry;
    ServeChanges {
        answer: answered(ended, given - 1, kept),
        line: removed(0, given),
        aside: unchanged(),
        entry,
    }
}

// Unfinished, it goes to the back of the line, or to the end of the list set aside if it has no steps left.
fn requeued(ended: Ended, given: usize, kept: usize) -> ServeChanges
    requires { (1 ≤ given) × (given + kept ≤ most_entries) }
    ensures { result ≡ requeued_by ended given kept }
{
    let entry = ended.entry;
    if entry.allowance == 0 {
        return ServeChanges {
            answer: answered(ended, given - 1, kept + 1),
            line: removed(0, given),
            aside: appended(kept),
            entry,
        };
    }
    ServeChanges {
        answer: answered(ended, given, kept),
        line: rotated(given),
        aside: unchanged(),
        entry,
    }
}

// Where the entry of the turn `ended` goes, by how it ended.
pub fn turn_outcome(ended: Ended, given: usize, kept: usize) -> ServeChanges
    requires { (1 ≤ given) × (given + kept ≤ most_entries) }
    ensures { result ≡ turn_outcome_by ended.turned.ending ended given kept }
{
    match ended.turned.ending {
        TurnEnding::Done => dequeued(ended, given, kept),
        TurnEnding::Spent | TurnEnding::Full => requeued(ended, given, kept),
        TurnEnding::Refused(number) => refused(number),
    }
}
