// What tests 7 and 11 ask of a list, by the ending of a plan: the words that an output has at least, and a threshold.
#![tactic(auto)]

mod sizes;
mod thresholds;

pub use sizes::{least_output, plan_output};
pub use thresholds::threshold_right;
