// The escapes of SPARQL 1.1, 19.2.
#![tactic(auto, using(std::proofs::lemmas::Bool::Decides::nat_tests), unfolding(characters::specs::Escapes::hex_digit, characters::specs::Escapes::escape_to))]

ghost use Rattle.std.specs.Prelude.{◌≡◌, ◌≤◌, length, drop};
ghost use Rattle.characters.specs.Escapes.{hex_digit, hex_from, escape_to, escape_of};

use characters::Character;

const NO_POINT: u32 = 0x110000;

// A backslash that begins no escape.
const BACKSLASH: Character = Character {
    point: 0x5C,
    more: 0,
};

// What `b` counts for as a hexadecimal digit, or 16 where it is none: no Option, since the definition, `hex_digit`, counts so.
fn hex_digit(b: u8) -> u32
    ensures { result ≡ hex_digit b }
{
    match b {
        b'0'..=b'9' => u32::from(b - 0x30),
        b'A'..=b'F' => u32::from(b - 0x37),
        b'a'..=b'f' => u32::from(b - 0x57),
        _ => 16,
    }
}

// The code point that `digits` hexadecimal digits from `from` on write, or a number from `NO_POINT` on where they write none.
fn hex_number(text: &[u8], from: usize, digits: usize) -> u32
    requires { from ≤ length text.now }
    ensures { result ≡ hex_from digits (drop from text.now) 0 }
{
    let mut v: u32 = 0;
    for i in 0..digits {
        if from + i == text.len() {
            return NO_POINT;
        }
        let d = hex_digit(text[from + i]);
        if d >= 16 || v >= NO_POINT {
            return NO_POINT;
        }
        v = v * 16 + d;
    }
    v
}

// The character with the number `v`, written with `more` bytes after the backslash; the backslash alone where there is no such character.
fn escape_to(v: u32, more: usize) -> Character
    ensures { result ≡ escape_to v more }
{
    match v {
        0..=0xD7FF | 0xE000..=0x10FFFF => Character { point: v, more },
        _ => BACKSLASH,
    }
}

// The character that a backslash begins, by what stands behind it, from `from` on.
pub fn escape(text: &[u8], from: usize) -> Character
    requires { from ≤ length text.now }
    ensures { result ≡ escape_of (drop from text.now) }
{
    if from == text.len() {
        return BACKSLASH;
    }
    match text[from] {
        b'u' => escape_to(hex_number(text, from + 1, 4), 5),
        b'U' => escape_to(hex_number(text, from + 1, 8), 9),
        _ => BACKSLASH,
    }
}
