// Parts of a token's characters, in code: the first so many, the others, runs of a class, and whether two strings are the same.
#![tactic(auto)]

ghost use Rattle.std.specs.Prelude.{◌≡◌, ◌≤◌, length, take, drop};
ghost use Rattle.dictionaries.specs.Utf8.{span, is_in};
ghost use Rattle.dictionaries.specs.Strings.{same_string};
ghost use Rattle.tokens.specs.Runs.{run_length, first_is, starts_with};
ghost use Rattle.terminals.specs.Names.{is_scheme_character};
ghost use Rattle.terminal_letters.specs.Letters.{is_letter_of};

use token_classes::{is_ascii_letter, is_digit};

// What a run is of: anything but a colon, the characters of an IRI's scheme, or digits.
#[derive(Clone, Copy)]
pub enum Letters {
    NoColon,
    Scheme,
    Digits,
}

// The first `n` characters, or all.
pub fn front(s: &[u32], n: usize) -> &[u32]
    ensures { result.now ≡ take n s.now }
{
    &s[..n.min(s.len())]
}

// The characters behind the first `n`, or none.
pub fn rest(s: &[u32], n: usize) -> &[u32]
    ensures { result.now ≡ drop n s.now }
{
    &s[n.min(s.len())..]
}

// Whether the first character is `a`.
pub fn starts_with(s: &[u32], a: u32) -> bool
    ensures { result ≡ starts_with a s.now }
{
    matches!(s.first(), Some(c) if *c == a)
}

// Whether there is a first character, and it is one from `least` to `greatest`.
pub fn first_in(s: &[u32], least: u32, greatest: u32) -> bool
    ensures { result ≡ first_is (is_in (span least greatest)) s.now }
{
    matches!(s.first(), Some(c) if (least..=greatest).contains(c))
}

// Whether two strings are the same.
pub fn same_string(a: &[u32], b: &[u32]) -> bool
    ensures { result ≡ same_string a.now b.now }
{
    a == b
}

fn is_scheme_character(c: u32) -> bool
    ensures { result ≡ is_scheme_character c }
{
    is_ascii_letter(c) || is_digit(c) || matches!(c, 0x2B | 0x2E | 0x2D)
}

fn is_letter_of(letters: Letters, c: u32) -> bool
    ensures { result ≡ is_letter_of letters c }
{
    match letters {
        Letters::NoColon => c != 0x3A,
        Letters::Scheme => is_scheme_character(c),
        Letters::Digits => is_digit(c),
    }
}

// How many characters of a kind stand first.
pub fn run_size(s: &[u32], letters: Letters) -> usize
    ensures { (result ≡ run_length (is_letter_of letters) s.now) × (result ≤ length s.now) }
{
    s.iter().take_while(|c| is_letter_of(letters, **c)).count()
}
