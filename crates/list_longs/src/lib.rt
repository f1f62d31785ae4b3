// Numbers of 64 bits in two words and signed sums, as groups have them.
#![tactic(auto)]

mod longs;
mod sums;

pub use longs::{fits, long, read64, write64};
pub use sums::{sum_of, sums_fit};
