// Lines of a file's query handed to the writer: a refusal, a turn, each row or record of a list, or its registers. Each is of the file's uncut run.
#![tactic(auto)]

mod lines;
mod plan_lists;
mod writing;

pub use lines::{print_list, print_refused, print_turn};
pub use plan_lists::lists_of;
use plans::EndingKind;

// What the lists of a plan hold, and the words of each row or record, or of all registers.
#[derive(Clone, Copy)]
pub struct Listing {
    pub kind: EndingKind,
    pub width: usize,
}
