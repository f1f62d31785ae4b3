// Saved states read in code: the cursor of a state's words over the rows of their year, if they pass tests 9, 22 and 10.
#![tactic(auto)]

mod loading;

pub use loading::{load, refused};
use step_cursors::Cursor;

// A state's cursor. `refused` is 0, or the number of the test that the state's words fail.
#[derive(Clone, Copy)]
pub struct Loaded {
    pub refused: u32,
    pub from: Cursor,
}
