// Best-of lists: a row taken up, and two lists merged.
#![tactic(auto)]

mod best_of;

pub use best_of::{merge_best, put_best};
