// Numbers from a place on, in code.
#![tactic(auto)]

ghost use Rattle.std.specs.Prelude.{◌≡◌, ◌+◌, ◌≤◌, ◌<◌, length, drop};
ghost use Rattle.std.specs.Option.{unwrap_or};
ghost use Rattle.tokens.specs.Classes.{name_spans};
ghost use Rattle.token_classes.specs.SpanWords.{spans_of};
ghost use Rattle.tokens.specs.Numerals.{exponent_by, exponent_length, whole_or, pointed_or, number_or, signed_or};

use token_classes::either;
use token_runs::{RunClass, point_at, run_length};
use tokens::{Token, TokenKind, make_token};

// An exponent's size from the number of its digits and of what stands before them.
fn exponent_by(digits: usize, before: usize) -> usize
    requires { before + digits < 18446744073709551616 }
    ensures { result ≡ exponent_by digits before }
{
    if digits == 0 { 0 } else { before + digits }
}

// How many characters the exponent at `at` has, which may be 0: no Option, since 0 is a length.
fn exponent_length(points: &[u32], names: &[u32], at: usize) -> usize
    requires { (at ≤ length points.now) × (spans_of names.now ≡ name_spans) }
    ensures { (result ≡ exponent_length (drop at points.now)) × (at + result ≤ length points.now) }
{
    if !either(point_at(points, at), 0x65, 0x45) {
        return 0;
    }
    if either(point_at(points, at + 1), 0x2B, 0x2D) {
        return exponent_by(run_length(points, names, RunClass::Digit, at + 2), 2);
    }
    exponent_by(run_length(points, names, RunClass::Digit, at + 1), 1)
}

// The number of `n` digits and an exponent of `x` characters, if there are digits.
fn whole(n: usize, x: usize) -> Option<Token>
    requires { n + x < 18446744073709551616 }
    ensures { (other : Token) → unwrap_or result other ≡ whole_or other n x }
{
    match (n, x) {
        (0, _) => None,
        (_, 0) => Some(make_token(TokenKind::Integer, n)),
        _ => Some(make_token(TokenKind::Double, n + x)),
    }
}

// The number of `n` digits, a point, `m` digits and an exponent of `x` characters, if it is one.
fn pointed(n: usize, m: usize, x: usize) -> Option<Token>
    requires { n + 1 + m + x < 18446744073709551616 }
    ensures { (other : Token) → unwrap_or result other ≡ pointed_or other n m x }
{
    match (n, m, x) {
        (0, 0, _) | (_, 0, 0) => whole(n, 0),
        (_, 0, _) => Some(make_token(TokenKind::Double, n + 1 + x)),
        (_, _, 0) => Some(make_token(TokenKind::Decimal, n + 1 + m)),
        _ => Some(make_token(TokenKind::Double, n + 1 + m + x)),
    }
}

// The number that stands from `from` on, if one does.
fn number(points: &[u32], names: &[u32], from: usize) -> Option<Token>
    requires { (from ≤ length points.now) × (spans_of names.now ≡ name_spans) }
    ensures { (other : Token) → unwrap_or result other ≡ number_or other (drop from points.now) }
{
    let n = run_length(points, names, RunClass::Digit, from);
    let at = from + n;
    if point_at(points, at) != 0x2E {
        return whole(n, exponent_length(points, names, at));
    }
    let behind = at + 1;
    let m = run_length(points, names, RunClass::Digit, behind);
    pointed(n, m, exponent_length(points, names, behind + m))
}

// The number that stands from `from` on, or `other`.
pub fn number_or(other: Token, points: &[u32], names: &[u32], from: usize) -> Token
    requires { (from ≤ length points.now) × (spans_of names.now ≡ name_spans) }
    ensures { result ≡ number_or other (drop from points.now) }
{
    number(points, names, from).unwrap_or(other)
}

// The number that stands behind a sign, from `from` on, with it, or `other`.
pub fn signed_or(other: Token, points: &[u32], names: &[u32], from: usize) -> Token
    requires { (from ≤ length points.now) × (spans_of names.now ≡ name_spans) }
    ensures { result ≡ signed_or other (drop from points.now) }
{
    match number(points, names, from) {
        Some(number) => make_token(number.kind, number.size + 1),
        None => other,
    }
}
