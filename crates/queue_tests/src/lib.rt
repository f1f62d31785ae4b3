// Joining and topping up, on numbers and an entry by value: their tests in order, and how both lists change.
#![tactic(auto)]

mod joining;
mod topping;

pub use joining::join;
pub use topping::top_up;
