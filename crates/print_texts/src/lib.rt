// Numbers and bytes as text, written into a line that is lent.
#![tactic(auto)]

mod digits;
mod texts;

pub use digits::put_decimal;
pub use texts::{put_byte, put_bytes, put_number, put_signed, put_sum};
