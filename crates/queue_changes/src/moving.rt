// The entry of an owner that is set aside, brought back to the line.
ghost use Rattle.std.specs.Prelude.{◌≡◌, ◌<◌, ◌≤◌};
ghost use Rattle.queues.specs.Lists.{most_entries};
ghost use Rattle.queues.specs.ToppingUp.{with_allowance};
ghost use Rattle.queue_changes.specs.Changes.{topped_by};

use crate::Queueing;
use crate::changes::{appended, removed};
use queues::{Entry, Queued};

// `e` with the new allowance `amount`.
pub fn with_allowance(e: Entry, amount: u64) -> Entry
    ensures { result ≡ with_allowance amount e }
{
    Entry {
        allowance: amount,
        ..e
    }
}

// `e` goes from the place `found` of the list set aside, which has `kept` entries, to the end of the line, which has `given`.
pub fn topped(found: usize, given: usize, kept: usize, e: Entry) -> Queueing
    requires { (given < most_entries) × (1 ≤ kept) }
    ensures { result ≡ topped_by found given kept e }
{
    Queueing {
        answer: Queued::Lists(given + 1, kept - 1),
        line: appended(given),
        aside: removed(found, kept),
        entry: e,
    }
}
