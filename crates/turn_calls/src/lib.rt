// The calls `open` and `turn`, which a service runs: opening a query, and one turn of it.
#![tactic(auto)]

mod opening;
mod turning;

pub use opening::open;
pub use steps::STATE_WORDS;
pub use turning::turn;
