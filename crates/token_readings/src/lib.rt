// The token at a place, in code: by what its first character says of it.
#![tactic(auto, using(crate::proofs::TokensBegun::begun), unfolding(tokens::specs::Tokens::token_of))]

ghost use Rattle.std.specs.Prelude.{◌≡◌, ◌≤◌, ◌<◌, length, get_or, drop};
ghost use Rattle.tokens.specs.Classes.{name_spans};
ghost use Rattle.tokens.specs.Tokens.{token_of, token_here};
ghost use Rattle.token_classes.specs.SpanWords.{spans_of};

use token_classes::is_name_base;
use token_kinds::{angle_of, blank_of, named_of, prefixed_of, sign_of, tag_of, variable_or_sign};
use token_numbers::{number_or, signed_or};
use token_texts::text_of;
use tokens::{Token, TokenKind, make_token};

// The token that `c`, which stands at `at`, begins; its start is counted from `at` on.
fn token_of(points: &[u32], names: &[u32], c: u32, at: usize) -> Token
    requires { (at < length points.now) × (c ≡ get_or points.now at 0) × (spans_of names.now ≡ name_spans) }
    ensures { result ≡ token_of (drop at points.now) }
{
    match c {
        0x110000 => make_token(TokenKind::BadByte, 1),
        0x5C => make_token(TokenKind::WrongEscape, 1),
        0x22 | 0x27 => text_of(points, c, at),
        0x3F | 0x24 => variable_or_sign(points, names, c, at + 1),
        0x3C => angle_of(points, names, at + 1),
        0x30..=0x39 => number_or(make_token(TokenKind::NoToken, 1), points, names, at),
        0x2E => number_or(make_token(TokenKind::Sign, 1), points, names, at),
        0x2B | 0x2D => signed_or(make_token(TokenKind::Sign, 1), points, names, at + 1),
        0x3A => prefixed_of(points, names, 0, at + 1),
        _ if is_name_base(names, c) => named_of(points, names, c, at + 1),
        0x5F => blank_of(points, names, at + 1),
        0x40 => tag_of(points, names, at + 1),
        _ => sign_of(points, c, at + 1),
    }
}

// The token at `from`, with its place.
pub fn read_token(points: &[u32], names: &[u32], from: usize) -> Token
    requires { (from ≤ length points.now) × (spans_of names.now ≡ name_spans) }
    ensures { result ≡ token_here from (token_of (drop from points.now)) }
{
    match points.get(from) {
        Some(c) => {
            let t = token_of(points, names, *c, from);
            Token {
                start: from + t.start,
                ..t
            }
        }
        None => Token {
            kind: TokenKind::End,
            start: from,
            size: 0,
        },
    }
}
