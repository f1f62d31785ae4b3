// Each kind of token from its first character on, in code: variables, IRIs, names, words, blank node labels, language tags and signs.
#![tactic(auto, using(crate::proofs::TokensRead::angle_read, crate::proofs::TokensRead::first_variable, token_runs::proofs::Advancing::starts_at))]

ghost use Rattle.std.specs.Prelude.{◌≡◌, ◌≤◌, ◌<◌, length, drop};
ghost use Rattle.tokens.specs.Classes.{name_spans};
ghost use Rattle.tokens.specs.Numerals.{token};
ghost use Rattle.tokens.specs.Tokens.{variable_or_sign, angle_of, prefixed_of, word_token, named_of, blank_of, tag_of, pair_or, sign_of};
ghost use Rattle.token_classes.specs.SpanWords.{spans_of};

use token_classes::{is_ascii_letter, is_sign};
use token_letters::begins_variable;
use token_names::{dotted_end, local_length, tag_end};
use token_runs::{RunClass, point_at, run_length};
use tokens::{Token, TokenKind, make_token};

// A variable, or its sign alone, `c`, which stands before `from`.
pub fn variable_or_sign(points: &[u32], names: &[u32], c: u32, from: usize) -> Token
    requires { (from ≤ length points.now) × (spans_of names.now ≡ name_spans) }
    ensures { result ≡ variable_or_sign c (drop from points.now) }
{
    if begins_variable(names, point_at(points, from)) {
        let n = run_length(points, names, RunClass::InVariable, from);
        return make_token(TokenKind::Variable, n + 1);
    }
    if c == 0x3F {
        return make_token(TokenKind::Sign, 1);
    }
    make_token(TokenKind::NoToken, 1)
}

// What begins with <, which stands before `from`.
pub fn angle_of(points: &[u32], names: &[u32], from: usize) -> Token
    requires { (from ≤ length points.now) × (spans_of names.now ≡ name_spans) }
    ensures { result ≡ angle_of (drop from points.now) }
{
    let n = run_length(points, names, RunClass::InIri, from);
    match point_at(points, from + n) {
        0x3E => make_token(TokenKind::Iri, n + 2),
        0x110000 => Token {
            kind: TokenKind::BadByte,
            start: n + 1,
            size: 1,
        },
        _ => pair_or(points, TokenKind::Sign, 0x3D, from),
    }
}

// A name with a prefix of `n` characters; its local name stands at `from`.
pub fn prefixed_of(points: &[u32], names: &[u32], n: usize, from: usize) -> Token
    requires { (n ≤ from) × (from ≤ length points.now) × (spans_of names.now ≡ name_spans) }
    ensures { result ≡ prefixed_of n (drop from points.now) }
{
    let local = local_length(points, names, from);
    make_token(TokenKind::PrefixedName, n + 1 + local)
}

// A word, or nothing where `c`, which stands before `from`, is no ASCII letter.
fn word_token(points: &[u32], names: &[u32], c: u32, from: usize) -> Token
    requires { (from ≤ length points.now) × (spans_of names.now ≡ name_spans) }
    ensures { result ≡ word_token c (drop from points.now) }
{
    if is_ascii_letter(c) {
        let n = run_length(points, names, RunClass::Word, from);
        return make_token(TokenKind::Word, n + 1);
    }
    make_token(TokenKind::NoToken, 1)
}

// What begins with a letter, `c`, which stands before `from`: a name with a prefix, or a word.
pub fn named_of(points: &[u32], names: &[u32], c: u32, from: usize) -> Token
    requires { (from ≤ length points.now) × (spans_of names.now ≡ name_spans) }
    ensures { result ≡ named_of c (drop from points.now) }
{
    let end = dotted_end(points, names, false, from);
    if point_at(points, end) == 0x3A {
        return prefixed_of(points, names, end - from + 1, end + 1);
    }
    word_token(points, names, c, from)
}

// A blank node's label, whose _ stands before `from`.
pub fn blank_of(points: &[u32], names: &[u32], from: usize) -> Token
    requires { (from ≤ length points.now) × (spans_of names.now ≡ name_spans) }
    ensures { result ≡ blank_of (drop from points.now) }
{
    if point_at(points, from) != 0x3A || !begins_variable(names, point_at(points, from + 1)) {
        return make_token(TokenKind::NoToken, 1);
    }
    let end = dotted_end(points, names, false, from + 2);
    make_token(TokenKind::BlankLabel, end - from + 1)
}

// A language tag, whose @ stands before `from`.
pub fn tag_of(points: &[u32], names: &[u32], from: usize) -> Token
    requires { (from ≤ length points.now) × (spans_of names.now ≡ name_spans) }
    ensures { result ≡ tag_of (drop from points.now) }
{
    let n = run_length(points, names, RunClass::Letter, from);
    if n == 0 {
        return make_token(TokenKind::NoToken, 1);
    }
    if point_at(points, from + n) != 0x2D {
        return make_token(TokenKind::LanguageTag, n + 1);
    }
    let end = tag_end(points, from + n);
    make_token(TokenKind::LanguageTag, end - from + 1)
}

// A sign of two characters where `a` stands at `from`, else a token of one.
fn pair_or(points: &[u32], other: TokenKind, a: u32, from: usize) -> Token
    requires { a < 1114112 }
    ensures { result ≡ pair_or (token other 1) a (drop from points.now) }
{
    if point_at(points, from) == a {
        return make_token(TokenKind::Sign, 2);
    }
    make_token(other, 1)
}

// A sign, or nothing, that begins with `c`, which stands before `from`.
pub fn sign_of(points: &[u32], c: u32, from: usize) -> Token
    ensures { result ≡ sign_of c (drop from points.now) }
{
    match c {
        0x26 => pair_or(points, TokenKind::NoToken, 0x26, from),
        0x7C | 0x5E => pair_or(points, TokenKind::Sign, c, from),
        0x21 | 0x3E => pair_or(points, TokenKind::Sign, 0x3D, from),
        _ if is_sign(c) => make_token(TokenKind::Sign, 1),
        _ => make_token(TokenKind::NoToken, 1),
    }
}
