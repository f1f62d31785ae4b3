// Texts in quotes, from a place on, in code.
#![tactic(auto, using(crate::proofs::TextsRead::escape_read), unfolding(crate::specs::TextSteps::text_step))]

ghost use Rattle.std.specs.Prelude.{◌≡◌, ◌&&◌, ◌||◌, not, ◌+◌, ◌-◌, ◌≤◌, ◌<◌, eqb, length, get_or, drop};
ghost use Rattle.tokens.specs.Texts.{two_more, text_from, text_of};
ghost use Rattle.token_texts.specs.TextSteps.{escape_step, text_step, text_end};

use token_classes::{is_line_end, is_text_escape};
use token_runs::point_at;
use tokens::{Token, TokenKind, make_token};

// What ends a text.
#[derive(Clone, Copy)]
pub enum TextEnding {
    Closed,
    BadByte,
    WrongEscape,
    Unended,
}

// Whether a quote at `at` ends the text: by itself, or with two more in a long one.
fn closes(points: &[u32], long: bool, q: u32, at: usize) -> bool
    requires { (at < length points.now) × (q < 1114112) }
    ensures { result ≡ (eqb (get_or points.now at 0) q && (not long || two_more q (drop (at + 1) points.now))) }
{
    points[at] == q && (!long || two_more(points, q, at + 1))
}

// Whether `q` stands at `at` and behind it.
fn two_more(points: &[u32], q: u32, at: usize) -> bool
    requires { (at ≤ length points.now) × (q < 1114112) }
    ensures { result ≡ two_more q (drop at points.now) }
{
    point_at(points, at) == q && point_at(points, at + 1) == q
}

// What `next`, behind a backslash, makes of it: an escape, or a wrong one.
fn escape_step(next: u32) -> Result<usize, TextEnding>
    ensures { result ≡ escape_step next }
{
    if is_text_escape(next) {
        Ok(2)
    } else {
        Err(TextEnding::WrongEscape)
    }
}

// How many characters the text goes on from `at`, or how it ends.
fn text_step(points: &[u32], long: bool, q: u32, at: usize) -> Result<usize, TextEnding>
    requires { (at < length points.now) × (q < 1114112) }
    ensures { result ≡ text_step long q (get_or points.now at 0) (drop (at + 1) points.now) }
{
    if closes(points, long, q, at) {
        return Err(TextEnding::Closed);
    }
    match points[at] {
        0x110000 => Err(TextEnding::BadByte),
        0x5C => escape_step(point_at(points, at + 1)),
        c if is_line_end(c) && !long => Err(TextEnding::Unended),
        _ => Ok(1),
    }
}

// The token of a text that ends behind `n` characters, by what ends it.
fn text_end(ending: TextEnding, long: bool, n: usize) -> Token
    requires { n + 3 < 18446744073709551616 }
    ensures { result ≡ text_end ending long n }
{
    match ending {
        TextEnding::Closed => make_token(TokenKind::QuotedText, if long { n + 3 } else { n + 1 }),
        TextEnding::BadByte => Token {
            kind: TokenKind::BadByte,
            start: n,
            size: 1,
        },
        TextEnding::WrongEscape => Token {
            kind: TokenKind::WrongEscape,
            start: n,
            size: 1,
        },
        TextEnding::Unended => make_token(TokenKind::Unended, n),
    }
}

// The text whose first quote stands at `first`, read from `from` on.
fn text_from(points: &[u32], long: bool, q: u32, first: usize, from: usize) -> Token
    requires { (first ≤ from) × (from ≤ length points.now) × (q < 1114112) }
    ensures { result ≡ text_from long q 0 (drop from points.now) (from - first) }
{
    let mut at = from;
    // no iterator: an escape is a step of two characters
    while at < points.len() {
        match text_step(points, long, q, at) {
            Ok(n) => at += n,
            Err(ending) => return text_end(ending, long, at - first),
        }
    }
    text_end(TextEnding::Unended, long, at - first)
}

// The text whose first quote, `q`, stands at `first`.
pub fn text_of(points: &[u32], q: u32, first: usize) -> Token
    requires { (first < length points.now) × (q < 1114112) }
    ensures { result ≡ text_of q (drop (first + 1) points.now) }
{
    if two_more(points, q, first + 1) {
        return text_from(points, true, q, first, first + 3);
    }
    text_from(points, false, q, first, first + 1)
}
