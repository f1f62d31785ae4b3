// How both lists of a queue change, on numbers and an entry by value: tests 17 and 18 by what was seen of them, and where an entry goes.
#![tactic(auto)]

mod changes;
mod listing;
mod moving;

pub use changes::{
    appended, first_of, lists_number, refused, removed, room_right, rotated, unchanged,
};
pub use listing::{join_right, top_up_right};
pub use moving::{topped, with_allowance};
use queues::{Entry, Queued};

// How a list changes: the entries behind the gap move up, up to the one at the last place; and there one is written, if it is to be.
#[derive(Clone, Copy)]
pub struct Change {
    pub gap: usize,
    pub last: usize,
    pub adds: bool,
}

// How both lists change, with which entry, and what the call answers.
#[derive(Clone, Copy)]
pub struct Queueing {
    pub answer: Queued,
    pub line: Change,
    pub aside: Change,
    pub entry: Entry,
}
