// Sixteen registers in code: those of no values, one value more, test 12 of a list, two lists merged.
#![tactic(auto)]

mod merging;
mod tests;
mod values;

pub use merging::merge_registers;
pub use tests::{are_registers, kept_registers};
pub use values::{no_values, put_counted};

// How many registers there are.
pub const REGISTERS: usize = 16;
