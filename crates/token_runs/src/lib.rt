// Runs of characters from a place on, in code: blanks and comments, and the characters of a class.
#![tactic(auto)]

ghost use Rattle.std.specs.Prelude.{◌≡◌, false, ◌+◌, ◌≤◌, length, drop, get_or};
ghost use Rattle.tokens.specs.Classes.{is_word_character, name_spans};
ghost use Rattle.tokens.specs.Runs.{run_length, blanks_length};
ghost use Rattle.token_classes.specs.SpanWords.{spans_of};
ghost use Rattle.token_runs.specs.BlankSteps.{blank_step};
ghost use Rattle.token_runs.specs.RunClasses.{is_of_class, past_end};

use token_classes::{
    is_ascii_letter, is_blank, is_digit, is_iri_character, is_line_end, is_word_character,
};
use token_letters::is_variable_character;

// The classes that runs are of.
#[derive(Clone, Copy)]
pub enum RunClass {
    Word,
    Digit,
    Letter,
    InIri,
    InVariable,
}

// Whether a comment goes on behind the character `c` of blanks and comments; none where `c` is not of them.
fn blank_step(comment: bool, c: u32) -> Option<bool>
    ensures { result ≡ blank_step comment c }
{
    match c {
        0x110000 if comment => None,
        _ if comment => Some(!is_line_end(c)),
        0x23 => Some(true),
        _ if is_blank(c) => Some(false),
        _ => None,
    }
}

// The first place from `from` on that is neither blank nor in a comment.
pub fn skip_blanks(points: &[u32], from: usize) -> usize
    requires { from ≤ length points.now }
    ensures { (result ≡ from + blanks_length false (drop from points.now)) × (result ≤ length points.now) }
{
    let mut comment = false;
    for (i, c) in points[from..].iter().enumerate() {
        match blank_step(comment, *c) {
            Some(goes_on) => comment = goes_on,
            None => return from + i,
        }
    }
    points.len()
}

// Where the characters of a word end, from `from` on.
pub fn word_end(points: &[u32], from: usize) -> usize
    requires { from ≤ length points.now }
    ensures { (result ≡ from + run_length is_word_character (drop from points.now)) × (result ≤ length points.now) }
{
    let run = points[from..].iter().take_while(|c| is_word_character(**c));
    from + run.count()
}

// The character at `at`, or behind the last one a number that is in no class.
pub fn point_at(points: &[u32], at: usize) -> u32
    ensures { result ≡ get_or points.now at past_end }
{
    points.get(at).copied().unwrap_or(0x110001)
}

fn is_of_class(class: RunClass, names: &[u32], c: u32) -> bool
    requires { spans_of names.now ≡ name_spans }
    ensures { result ≡ is_of_class class c }
{
    match class {
        RunClass::Word => is_word_character(c),
        RunClass::Digit => is_digit(c),
        RunClass::Letter => is_ascii_letter(c),
        RunClass::InIri => is_iri_character(c),
        RunClass::InVariable => is_variable_character(names, c),
    }
}

// How many characters of a class stand from `from` on.
pub fn run_length(points: &[u32], names: &[u32], class: RunClass, from: usize) -> usize
    requires { (from ≤ length points.now) × (spans_of names.now ≡ name_spans) }
    ensures { (result ≡ run_length (is_of_class class) (drop from points.now)) × (from + result ≤ length points.now) }
{
    let run = points[from..]
        .iter()
        .take_while(|c| is_of_class(class, names, **c));
    run.count()
}
