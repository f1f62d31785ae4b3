// What the call writes of an upload, row by row: the words of its kept rows, and the report of the dropped ones.
#![tactic(auto)]

mod reports;
mod rows;

pub use reports::{count_kept, write_report};
pub use rows::write_rows;
