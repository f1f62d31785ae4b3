// The call `reached`: how far a query has come, by its state. A page shows it as a bar that never goes back.
#![tactic(auto)]

mod reaching;
mod years;

pub use reaching::reached;
