// Whether bytes are well-formed UTF-8, character by character, and whether all are ASCII; one byte's step of it, which character_passes takes too.
#![tactic(auto, using(std::proofs::lemmas::Bool::Decides::nat_tests), unfolding(crate::specs::Steps::first_step))]

mod spans;

ghost use Rattle.std.specs.Prelude.{◌≡◌};
ghost use Rattle.sequences.specs.Sequences.{all};
ghost use Rattle.dictionaries.specs.Utf8.{span, is_in, well_formed};
ghost use Rattle.dictionary_checks.specs.Steps.{first_step, later_step, next_step, nothing_left};

use spans::{rest_in, rest_length};

// What is still to come of a character.
#[derive(Clone, Copy)]
pub enum Rest {
    Nothing,
    One,
    Two,
    Three,
    AfterE0,
    AfterEd,
    AfterF0,
    AfterF4,
}

pub fn is_in(b: u8, least: u8, greatest: u8) -> bool
    ensures { result ≡ is_in (span least greatest) b }
{
    (least..=greatest).contains(&b)
}

// What the first byte of a character leaves to come, none where no character begins with it.
fn first(b: u8) -> Option<Rest>
    ensures { result ≡ first_step b }
{
    match b {
        0x00..=0x7F => Some(Rest::Nothing),
        0xC2..=0xDF => Some(Rest::One),
        0xE0 => Some(Rest::AfterE0),
        0xE1..=0xEC => Some(Rest::Two),
        0xED => Some(Rest::AfterEd),
        0xEE..=0xEF => Some(Rest::Two),
        0xF0 => Some(Rest::AfterF0),
        0xF1..=0xF3 => Some(Rest::Three),
        0xF4 => Some(Rest::AfterF4),
        _ => None,
    }
}

fn later(b: u8, least: u8, greatest: u8, rest: Rest) -> Option<Rest>
    ensures { result ≡ later_step (span least greatest) rest b }
{
    is_in(b, least, greatest).then_some(rest)
}

// What is still to come behind `b`, none where it may not stand there.
pub fn next(rest: Rest, b: u8) -> Option<Rest>
    ensures { result ≡ next_step rest b }
{
    match rest {
        Rest::Nothing => first(b),
        Rest::One => later(b, 0x80, 0xBF, Rest::Nothing),
        Rest::Two => later(b, 0x80, 0xBF, Rest::One),
        Rest::Three => later(b, 0x80, 0xBF, Rest::Two),
        Rest::AfterE0 => later(b, 0xA0, 0xBF, Rest::One),
        Rest::AfterEd => later(b, 0x80, 0x9F, Rest::One),
        Rest::AfterF0 => later(b, 0x90, 0xBF, Rest::Two),
        Rest::AfterF4 => later(b, 0x80, 0x8F, Rest::Two),
    }
}

pub fn nothing_left(rest: Rest) -> bool
    ensures { result ≡ nothing_left rest }
{
    matches!(rest, Rest::Nothing)
}

// Whether all `bytes` are ASCII. The greatest tells, and no byte ends the loop, so that compilers take many bytes at once.
pub fn is_ascii(bytes: &[u8]) -> bool
    ensures { result ≡ all (is_in (span 0x00 0x7F)) bytes.now }
{
    let mut greatest: u8 = 0;
    for b in bytes {
        greatest = greatest.max(*b);
    }
    greatest <= 0x7F
}

// Whether `bytes` are well-formed, character by character.
pub fn well_formed(bytes: &[u8]) -> bool
    ensures { result ≡ well_formed bytes.now }
{
    // no iterator: a character goes as many bytes as its first one says
    let mut i: usize = 0;
    while i < bytes.len() {
        let b = bytes[i];
        if b <= 0x7F {
            i += 1;
        } else {
            match first(b) {
                Some(rest) => {
                    if !rest_in(bytes, i + 1, rest) {
                        return false;
                    }
                    i = i + 1 + rest_length(rest);
                }
                None => return false,
            }
        }
    }
    true
}
