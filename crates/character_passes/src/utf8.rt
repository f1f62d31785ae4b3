// One character of UTF-8.
ghost use Rattle.std.specs.Prelude.{◌≡◌, ◌+◌, ◌<◌, ◌≤◌, length, get_or, drop};
ghost use Rattle.dictionaries.specs.Utf8.{first_bits};
ghost use Rattle.dictionary_checks.specs.Steps.{spans_in};
ghost use Rattle.characters.specs.Sequences.{sequence_from, sequence_of};

use characters::Character;
use dictionary_checks::{Rest, next, nothing_left};

// What a byte that is no UTF-8 is read as.
const BAD_BYTE: Character = Character {
    point: 0x110000,
    more: 0,
};

// The bits of its character that the first byte `a` has, where `rest` is still to come.
fn first_bits(rest: Rest, a: u8) -> u32
    ensures { (result ≡ first_bits (spans_in rest) a) × (result < 256) }
{
    u32::from(match rest {
        Rest::Nothing => a,
        Rest::One => a.saturating_sub(0xC0),
        Rest::Two | Rest::AfterE0 | Rest::AfterEd => a.saturating_sub(0xE0),
        Rest::Three | Rest::AfterF0 | Rest::AfterF4 => a.saturating_sub(0xF0),
    })
}

// The character whose first byte has the bits `bits` and leaves `first` to come, from `from` on; or a bad byte.
fn sequence_rest(text: &[u8], from: usize, first: Rest, bits: u32) -> Character
    requires { (from ≤ length text.now) × (bits < 256) }
    ensures { result ≡ sequence_from (drop from text.now) (spans_in first) bits 0 }
{
    let mut rest = first;
    let mut point = bits;
    let mut at = from;
    // no iterator: what is still to come ends it
    while !nothing_left(rest) {
        if at == text.len() {
            return BAD_BYTE;
        }
        let b = text[at];
        match next(rest, b) {
            Some(r) => {
                point = point * 64 + u32::from(b.saturating_sub(0x80));
                rest = r;
                at += 1;
            }
            None => return BAD_BYTE,
        }
    }
    Character {
        point,
        more: at - from,
    }
}

// The character at `at`, or a bad byte.
pub fn sequence(text: &[u8], at: usize) -> Character
    requires { at < length text.now }
    ensures { result ≡ sequence_of (get_or text.now at 0) (drop (at + 1) text.now) }
{
    let a = text[at];
    match next(Rest::Nothing, a) {
        Some(r) => sequence_rest(text, at + 1, r, first_bits(r, a)),
        None => BAD_BYTE,
    }
}
