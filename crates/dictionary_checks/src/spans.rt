// The bytes after a character's first one: whether each is in its span of table 3-7.
ghost use Rattle.std.specs.Prelude.{◌≡◌, [], ◌∷◌, ◌≤◌, length, drop};
ghost use Rattle.dictionaries.specs.Utf8.{span, trailing};
ghost use Rattle.dictionary_checks.specs.Steps.{spans_in, each_in_span};

use crate::{Rest, is_in};

// Whether a byte from `least` to `greatest` stands at place `i`.
fn one_in(bytes: &[u8], i: usize, least: u8, greatest: u8) -> bool
    ensures { result ≡ each_in_span (drop i bytes.now) (span least greatest ∷ []) }
{
    i < bytes.len() && is_in(bytes[i], least, greatest)
}

// And behind it one that may stand after any first byte.
fn two_in(bytes: &[u8], i: usize, least: u8, greatest: u8) -> bool
    requires { i ≤ length bytes.now }
    ensures { result ≡ each_in_span (drop i bytes.now) (span least greatest ∷ trailing ∷ []) }
{
    one_in(bytes, i, least, greatest) && one_in(bytes, i + 1, 0x80, 0xBF)
}

// And two of them.
fn three_in(bytes: &[u8], i: usize, least: u8, greatest: u8) -> bool
    requires { i ≤ length bytes.now }
    ensures { result ≡ each_in_span (drop i bytes.now) (span least greatest ∷ trailing ∷ trailing ∷ []) }
{
    one_in(bytes, i, least, greatest) && two_in(bytes, i + 1, 0x80, 0xBF)
}

// Whether the bytes from place `i` on are what is still to come of a character.
pub fn rest_in(bytes: &[u8], i: usize, rest: Rest) -> bool
    requires { i ≤ length bytes.now }
    ensures { result ≡ each_in_span (drop i bytes.now) (spans_in rest) }
{
    match rest {
        Rest::Nothing => true,
        Rest::One => one_in(bytes, i, 0x80, 0xBF),
        Rest::Two => two_in(bytes, i, 0x80, 0xBF),
        Rest::Three => three_in(bytes, i, 0x80, 0xBF),
        Rest::AfterE0 => two_in(bytes, i, 0xA0, 0xBF),
        Rest::AfterEd => two_in(bytes, i, 0x80, 0x9F),
        Rest::AfterF0 => three_in(bytes, i, 0x90, 0xBF),
        Rest::AfterF4 => three_in(bytes, i, 0x80, 0x8F),
    }
}

// How many bytes that are.
pub fn rest_length(rest: Rest) -> usize
    ensures { result ≡ length (spans_in rest) }
{
    match rest {
        Rest::Nothing => 0,
        Rest::One => 1,
        Rest::Two | Rest::AfterE0 | Rest::AfterEd => 2,
        Rest::Three | Rest::AfterF0 | Rest::AfterF4 => 3,
    }
}
