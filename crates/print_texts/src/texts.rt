// Bytes and numbers, put on a line from a place on; each function answers the place after what it put.
ghost use Rattle.std.specs.Prelude.{◌∷◌, [], ◌+◌, ◌<◌, ◌≤◌, length};
ghost use Rattle.words.specs.Words.{signed};
ghost use Rattle.lists.specs.Sums.{sum_in};
ghost use Rattle.print_texts.specs.Texts.{integer_text, number_field, integer_field};
ghost use Rattle.print_texts.specs.Placing.{PlacedText};

use crate::digits::put_decimal;

// Half the values of 64 bits: from there on they are below zero.
const HALF_LONGS: u64 = 0x8000000000000000;

pub fn put_byte(line: &mut [u8], at: usize, byte: u8) -> usize
    requires { at < length line.old }
    ensures { PlacedText (byte ∷ []) at line.old line.new result }
{
    line[at] = byte;
    at + 1
}

pub fn put_bytes(line: &mut [u8], at: usize, text: &[u8]) -> usize
    requires { at + length text.now ≤ length line.old }
    ensures { PlacedText text.now at line.old line.new result }
{
    let end = at + text.len();
    line[at..end].copy_from_slice(text);
    end
}

// Puts `x`, after a blank.
pub fn put_number(line: &mut [u8], at: usize, x: u64) -> usize
    requires { at + length (number_field x) ≤ length line.old }
    ensures { PlacedText (number_field x) at line.old line.new result }
{
    let next = put_byte(line, at, b' ');
    put_decimal(line, next, x)
}

// Puts `bits` in decimal, in two's complement with `half` values from zero up.
pub fn put_signed(line: &mut [u8], at: usize, bits: u64, half: u64) -> usize
    requires { (bits < half + half) × (at + length (integer_text (signed half bits)) ≤ length line.old) }
    ensures { PlacedText (integer_text (signed half bits)) at line.old line.new result }
{
    if bits < half {
        return put_decimal(line, at, bits);
    }
    let next = put_byte(line, at, b'-');
    put_decimal(line, next, half - (bits - half))
}

// Puts the sum whose 64 bits are `bits`, after a blank.
pub fn put_sum(line: &mut [u8], at: usize, bits: u64) -> usize
    requires { at + length (integer_field (sum_in bits)) ≤ length line.old }
    ensures { PlacedText (integer_field (sum_in bits)) at line.old line.new result }
{
    let next = put_byte(line, at, b' ');
    put_signed(line, next, bits, HALF_LONGS)
}
