// Two lists of groups merged over the kept list: tests 13 and 14, then the first write; test 12 of a list of groups.
#![tactic(auto)]

mod merge_backwards;
mod validity;

pub use merge_backwards::merge_groups;
pub use validity::is_groups;

// Why two lists of groups are not merged: a total would leave its range, or the buffer of the kept list has no room.
#[derive(Clone, Copy)]
pub enum MergeFault {
    Overflow,
    NoRoom,
}
