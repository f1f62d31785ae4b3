// Saved states in code: the words of a cursor's state; laws of saving and loading.
#![tactic(auto)]

mod saving;

pub use saving::save;
