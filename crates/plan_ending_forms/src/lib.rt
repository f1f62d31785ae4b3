// The form of an ending (test 5), and tests of each word of a list.
#![tactic(auto)]

mod endings;
mod searches;

pub use endings::ending_form;
pub use searches::{all_differ, all_right};
