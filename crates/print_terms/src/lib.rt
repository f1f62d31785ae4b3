// Terms as text, put on a line from a place on; each function answers the place after what it put.
#![tactic(auto)]

ghost use Rattle.std.specs.Prelude.{◌≡◌, ◌+◌, ◌≤◌, length};
ghost use Rattle.print_texts.specs.Texts.{kind_letter, value_text, term_text, term_field, fields, number_fields, term_fields};
ghost use Rattle.print_texts.specs.Placing.{PlacedText};
ghost use Rattle.print_terms.specs.Fields.{field_as};

use print_texts::{put_byte, put_decimal, put_number, put_signed};
use words::Term;

// Half the values of a number's 30 bits: from there on they are below zero.
const HALF_VALUES: u64 = words::HALF_VALUES as u64;

// How a word is shown: as a term, or as a number. An enum of two and no closure, which would need a contract of its own.
#[derive(Clone, Copy)]
pub enum ShownAs {
    Term,
    Number,
}

// The letter of `kind`, that of a term: n for a name, i for a number, t for a text.
fn letter_of(kind: u32) -> u8
    ensures { result ≡ kind_letter kind }
{
    match kind {
        Term::NAME => b'n',
        Term::NUMBER => b'i',
        _ => b't',
    }
}

// Puts the value of the term `word`, a number's with its sign.
fn put_value(line: &mut [u8], at: usize, word: u32) -> usize
    requires { at + length (value_text word) ≤ length line.old }
    ensures { PlacedText (value_text word) at line.old line.new result }
{
    let term = Term(word);
    let value = list_longs::long(term.value());
    if term.is_number() {
        return put_signed(line, at, value, HALF_VALUES);
    }
    put_decimal(line, at, value)
}

// Puts the term `word`: a letter and its value, or a dash for unbound.
fn put_text(line: &mut [u8], at: usize, word: u32) -> usize
    requires { at + length (term_text word) ≤ length line.old }
    ensures { PlacedText (term_text word) at line.old line.new result }
{
    let term = Term(word);
    if term.is_variable() {
        return put_byte(line, at, b'-');
    }
    let next = put_byte(line, at, letter_of(term.kind()));
    put_value(line, next, word)
}

// Puts the term `word`, after a blank.
fn put_term(line: &mut [u8], at: usize, word: u32) -> usize
    requires { at + length (term_field word) ≤ length line.old }
    ensures { PlacedText (term_field word) at line.old line.new result }
{
    let next = put_byte(line, at, b' ');
    put_text(line, next, word)
}

// Puts `word` as a field, after a blank.
fn put_field(line: &mut [u8], at: usize, word: u32, shown: ShownAs) -> usize
    requires { at + length (field_as shown word) ≤ length line.old }
    ensures { PlacedText (field_as shown word) at line.old line.new result }
{
    match shown {
        ShownAs::Term => put_term(line, at, word),
        ShownAs::Number => put_number(line, at, list_longs::long(word)),
    }
}

// Puts `words` as fields, each after a blank.
fn put_fields(line: &mut [u8], at: usize, words: &[u32], shown: ShownAs) -> usize
    requires { at + length (fields (field_as shown) words.now) ≤ length line.old }
    ensures { PlacedText (fields (field_as shown) words.now) at line.old line.new result }
{
    let mut next = at;
    for word in words {
        next = put_field(line, next, *word, shown);
    }
    next
}

// Puts `terms` as fields, each after a blank.
pub fn put_terms(line: &mut [u8], at: usize, terms: &[u32]) -> usize
    requires { at + length (term_fields terms.now) ≤ length line.old }
    ensures { PlacedText (term_fields terms.now) at line.old line.new result }
{
    put_fields(line, at, terms, ShownAs::Term)
}

// Puts `words` as numbers, each after a blank.
pub fn put_numbers(line: &mut [u8], at: usize, words: &[u32]) -> usize
    requires { at + length (number_fields words.now) ≤ length line.old }
    ensures { PlacedText (number_fields words.now) at line.old line.new result }
{
    put_fields(line, at, words, ShownAs::Number)
}
