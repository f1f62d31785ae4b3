// Sums: integers in 64 bits of two's complement.
ghost use Rattle.std.specs.Prelude.{◌≡◌, ◌+ℤ◌};
ghost use Rattle.words.specs.Words.{number_value};
ghost use Rattle.lists.specs.Sums.{sum_fits, sum_bits, sum_in};

use crate::longs::long;
use words::{HALF_VALUES, Term};

// Half of the values of 64 bits: from there on they stand for a sum below zero.
const HALF_LONGS: u64 = 0x8000_0000_0000_0000;

// The bits above a number's 30, of one below zero.
const SIGN_BITS: u64 = 0xFFFF_FFFF_C000_0000;

// The 64 bits of what the number `word` counts for.
pub fn sum_of(word: u32) -> u64
    ensures { result ≡ sum_bits (number_value word) }
{
    let value = Term(word).value();
    if value < HALF_VALUES {
        return long(value);
    }
    SIGN_BITS + long(value)
}

// Whether `x` and `y` together are from -2^63 to 2^63 - 1: two sums of one sign may leave that range.
pub fn sums_fit(x: u64, y: u64) -> bool
    ensures { result ≡ sum_fits (sum_in x +ℤ sum_in y) }
{
    if x < HALF_LONGS {
        if y < HALF_LONGS {
            return x + y < HALF_LONGS;
        }
        return true;
    }
    if y < HALF_LONGS {
        return true;
    }
    HALF_LONGS <= x - HALF_LONGS + (y - HALF_LONGS)
}
