// What is written within brackets and quotes, and which IRIs, prefixes, years and whole numbers have the right form.
#![tactic(auto, unfolding(terminals::specs::Computing::computing))]

ghost use Rattle.std.specs.Prelude.{◌≡◌};
ghost use Rattle.terminals.specs.Names.{within, has_scheme, is_bare, is_year_name, year_scheme};
ghost use Rattle.terminals.specs.Terminals.{is_long, quoted, unsigned, is_whole_number, is_shortest};

use terminal_letters::{Letters, first_in, front, rest, run_size, same_string, starts_with};
use token_classes::is_ascii_letter;

// What stands between the first and the last character.
pub fn within(s: &[u32]) -> &[u32]
    ensures { result.now ≡ within s.now }
{
    front(rest(s, 1), s.len().saturating_sub(2))
}

// Whether a text has three quotes on each side.
fn is_long(s: &[u32]) -> bool
    ensures { result ≡ is_long s.now }
{
    s.len() >= 6 && same_string(front(s, 1), front(rest(s, 1), 1))
}

// What stands within a text's quotes.
pub fn quoted(s: &[u32]) -> &[u32]
    ensures { result.now ≡ quoted s.now }
{
    if is_long(s) {
        within(within(within(s)))
    } else {
        within(s)
    }
}

// Whether an IRI has a scheme.
pub fn has_scheme(s: &[u32]) -> bool
    ensures { result ≡ has_scheme s.now }
{
    matches!(s.first(), Some(c) if is_ascii_letter(*c))
        && starts_with(rest(s, run_size(s, Letters::Scheme)), 0x3A)
}

// Whether a prefix stands with its colon and nothing behind it.
pub fn is_bare(s: &[u32]) -> bool
    ensures { result ≡ is_bare s.now }
{
    run_size(s, Letters::NoColon) + 1 == s.len()
}

// Whether a name is year: and a number from 1 to 9,999; `scheme` is year: itself.
pub fn is_year(s: &[u32], scheme: &[u32]) -> bool
    requires { scheme.now ≡ year_scheme }
    ensures { result ≡ is_year_name s.now }
{
    let number = rest(s, 5);
    same_string(front(s, 5), scheme)
        && first_in(number, 0x31, 0x39)
        && run_size(number, Letters::Digits) == number.len()
        && number.len() <= 4
}

// A number without its sign.
fn unsigned(s: &[u32]) -> &[u32]
    ensures { result.now ≡ unsigned s.now }
{
    match s {
        [0x2B | 0x2D, digits @ ..] => digits,
        _ => s,
    }
}

// Whether some characters are a whole number, with a sign or none.
pub fn is_whole(s: &[u32]) -> bool
    ensures { result ≡ is_whole_number s.now }
{
    let digits = unsigned(s);
    first_in(digits, 0x30, 0x39) && run_size(digits, Letters::Digits) == digits.len()
}

// Whether a whole number is in its shortest writing.
pub fn is_shortest(s: &[u32]) -> bool
    ensures { result ≡ is_shortest s.now }
{
    if starts_with(s, 0x2B) {
        return false;
    }
    if starts_with(s, 0x2D) {
        return first_in(rest(s, 1), 0x31, 0x39);
    }
    first_in(s, 0x31, 0x39) || s.len() == 1
}
