// The tests of opening and of a turn, in their order.
#![tactic(auto)]

mod testing;

pub use testing::{ACCEPTED, check, prepare};
