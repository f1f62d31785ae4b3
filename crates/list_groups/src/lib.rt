// Lists of groups: a row counted in its group.
#![tactic(auto)]

mod groups;

pub use groups::{by_group, put_group};
