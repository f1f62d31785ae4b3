// Serving, after the turn: an entry after its steps, where it goes, and what serving answers.
#![tactic(auto)]

mod outcomes;

pub use outcomes::{entry_with, refused, turn_outcome};
use queue_changes::Change;
use queues::{Entry, Service};
use turns::Turned;

// An entry after a turn, and what the turn answered.
#[derive(Clone, Copy)]
pub struct Ended {
    pub turned: Turned,
    pub entry: Entry,
}

// How both lists change, with which entry, and what serving answers.
#[derive(Clone, Copy)]
pub struct ServeChanges {
    pub answer: Service,
    pub line: Change,
    pub aside: Change,
    pub entry: Entry,
}
