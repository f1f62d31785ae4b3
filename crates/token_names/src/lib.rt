// Names with dots, local names and language tags from a place on, in code.
#![tactic(auto, using(crate::proofs::Dotting::plx_read, crate::proofs::Dotting::tags_at))]

ghost use Rattle.std.specs.Prelude.{◌≡◌, ◌+◌, ◌≤◌, ◌<◌, eqb, length, get_or, drop};
ghost use Rattle.tokens.specs.Classes.{name_spans, is_hex_digit, is_name_escape};
ghost use Rattle.token_classes.specs.SpanWords.{spans_of};
ghost use Rattle.tokens.specs.Runs.{plx_item, local_first, dotted_end, local_length};
ghost use Rattle.tokens.specs.Tokens.{is_tag_character, goes_on_tag, tag_end};
ghost use Rattle.token_names.specs.Items.{counted, item_of, plx_by};

use token_classes::{is_ascii_letter, is_digit, is_hex_digit, is_name_escape};
use token_letters::{begins_variable, is_name_character};
use token_runs::point_at;

// The characters of a % or a backslash, `c`, with those behind it that it takes, if it takes them.
fn plx_item(c: u32, next: u32, second: u32) -> Option<usize>
    ensures { result ≡ counted (plx_by (eqb c 0x25) (is_hex_digit next) (is_hex_digit second) (eqb c 0x5C) (is_name_escape next)) }
{
    match c {
        0x25 if is_hex_digit(next) && is_hex_digit(second) => Some(3),
        0x5C if is_name_escape(next) => Some(2),
        _ => None,
    }
}

// The same of `c`, which stands at `at`.
fn plx_at(points: &[u32], at: usize, c: u32) -> Option<usize>
    requires { at < length points.now }
    ensures { result ≡ counted (plx_item c (drop (at + 1) points.now)) }
{
    plx_item(c, point_at(points, at + 1), point_at(points, at + 2))
}

// The characters of a local name's first item at `at`, if one stands there.
fn local_first(points: &[u32], names: &[u32], at: usize) -> Option<usize>
    requires { (at < length points.now) × (spans_of names.now ≡ name_spans) }
    ensures { result ≡ counted (local_first (get_or points.now at 0) (drop (at + 1) points.now)) }
{
    let c = points[at];
    if begins_variable(names, c) || c == 0x3A {
        Some(1)
    } else {
        plx_at(points, at, c)
    }
}

// The characters of an item at `at` of a name, a local one or not, if one stands there.
fn item(points: &[u32], names: &[u32], local: bool, at: usize) -> Option<usize>
    requires { (at < length points.now) × (spans_of names.now ≡ name_spans) }
    ensures { result ≡ counted (item_of local (get_or points.now at 0) (drop (at + 1) points.now)) }
{
    let c = points[at];
    if is_name_character(names, c) || (local && c == 0x3A) {
        Some(1)
    } else if local {
        plx_at(points, at, c)
    } else {
        None
    }
}

// Where the last item ends of a run of items and dots from `from` on, or `from` where there is none.
pub fn dotted_end(points: &[u32], names: &[u32], local: bool, from: usize) -> usize
    requires { (from ≤ length points.now) × (spans_of names.now ≡ name_spans) }
    ensures { (result ≡ dotted_end (item_of local) 0 (drop from points.now) from from)
        × (from ≤ result) × (result ≤ length points.now) }
{
    let mut at = from;
    let mut end = from;
    // no iterator: an item has one character to three
    while at < points.len() {
        if points[at] == 0x2E {
            at += 1;
            continue;
        }
        match item(points, names, local, at) {
            Some(size) => {
                at += size;
                end = at;
            }
            None => return end,
        }
    }
    end
}

// How many characters the local name from `from` on has.
pub fn local_length(points: &[u32], names: &[u32], from: usize) -> usize
    requires { (from ≤ length points.now) × (spans_of names.now ≡ name_spans) }
    ensures { (result ≡ local_length (drop from points.now)) × (from + result ≤ length points.now) }
{
    if from >= points.len() {
        return 0;
    }
    match local_first(points, names, from) {
        Some(first) => dotted_end(points, names, true, from + first) - from,
        None => 0,
    }
}

fn is_tag_character(c: u32) -> bool
    ensures { result ≡ is_tag_character c }
{
    is_ascii_letter(c) || is_digit(c)
}

// Whether a language tag goes on with the character at `at`: a letter, a digit, or a - before one.
fn in_tag(points: &[u32], at: usize) -> bool
    requires { at < length points.now }
    ensures { result ≡ goes_on_tag (get_or points.now at 0) (drop (at + 1) points.now) }
{
    let c = points[at];
    is_tag_character(c) || (c == 0x2D && is_tag_character(point_at(points, at + 1)))
}

// Where the parts of a language tag end, from `from` on.
pub fn tag_end(points: &[u32], from: usize) -> usize
    requires { from ≤ length points.now }
    ensures { (result ≡ tag_end (drop from points.now) from) × (from ≤ result) × (result ≤ length points.now) }
{
    for at in from..points.len() {
        if !in_tag(points, at) {
            return at;
        }
    }
    points.len()
}
