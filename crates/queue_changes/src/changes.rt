// Tests 17 and 18 of both lists, and how a list changes.
ghost use Rattle.std.specs.Prelude.{◌≡◌, ◌≤◌};
ghost use Rattle.queue_changes.specs.Changes.{unchanged, appended, removed, rotated, room_by, first_number, queueing_refused};
ghost use Rattle.words.specs.Tests.{first_failing, number_of};
ghost use Rattle.queues.specs.ToppingUp.{top_up_tests_by};

use crate::{Change, Queueing};
use queue_entries::nobody;
use queues::Queued;

// The most entries in all.
pub const MOST_ENTRIES: usize = 32;

// The tests of both lists, by their numbers.
pub const ENTRIES: u32 = 17;

pub const SPACE: u32 = 18;

// A list stays as it is.
pub fn unchanged() -> Change
    ensures { result ≡ unchanged }
{
    Change {
        gap: 0,
        last: 0,
        adds: false,
    }
}

// An entry is written behind the first `count`.
pub fn appended(count: usize) -> Change
    ensures { result ≡ appended count }
{
    Change {
        gap: count,
        last: count,
        adds: true,
    }
}

// The entry at `gap` leaves the first `count`.
pub fn removed(gap: usize, count: usize) -> Change
    requires { 1 ≤ count }
    ensures { result ≡ removed gap count }
{
    Change {
        gap,
        last: count - 1,
        adds: false,
    }
}

// The front entry leaves the first `count`, and one is written behind them.
pub fn rotated(count: usize) -> Change
    requires { 1 ≤ count }
    ensures { result ≡ rotated count }
{
    Change {
        gap: 0,
        last: count - 1,
        adds: true,
    }
}

// Test 18: both buffers, of `room` and of `spare` entries, have room for the most entries, and `given`, `kept` and `more` together are not too many.
pub fn room_right(room: usize, spare: usize, given: usize, kept: usize, more: usize) -> bool
    ensures { result ≡ room_by room spare given kept more }
{
    room >= MOST_ENTRIES
        && spare >= MOST_ENTRIES
        && given <= MOST_ENTRIES
        && kept <= MOST_ENTRIES - given
        && more <= MOST_ENTRIES - given - kept
}

// The number of the first of tests 17 and 18 that fails, or 0: `entries` says whether the one passes, `room` whether the other does.
pub fn lists_number(entries: bool, room: bool) -> u32
    ensures { result ≡ number_of (first_failing (top_up_tests_by entries room)) }
{
    if !entries {
        return ENTRIES;
    }
    if !room {
        return SPACE;
    }
    0
}

// Of `number` and `late`, that of the tests which follow, the one that refuses first, or 0.
pub fn first_of(number: u32, late: u32) -> u32
    ensures { result ≡ first_number number late }
{
    if number == 0 {
        return late;
    }
    number
}

// A call that is refused by `number` changes neither list.
pub fn refused(number: u32) -> Queueing
    ensures { result ≡ queueing_refused number }
{
    Queueing {
        answer: Queued::Refused(number),
        line: unchanged(),
        aside: unchanged(),
        entry: nobody(),
    }
}
