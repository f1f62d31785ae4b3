// The code that lists of each kind share: rows written, words moved in a buffer, and the tests that hold for any list.
#![tactic(auto)]

mod rows;
mod shifts;
mod tests;

pub use rows::{put_row, row_of};
pub use shifts::{insert, shift};
pub use tests::{is_values, no_threshold};
