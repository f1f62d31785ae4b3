// Serving on numbers and an entry by value: the tests of the front entry and of both lists, and one turn of the entry.
#![tactic(auto)]

mod numbers;
mod serving;
mod turning;

pub use numbers::{empty_number, front_number, list_number};
pub use serving::serve;
pub use turning::turn_entry;
