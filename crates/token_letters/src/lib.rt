// The characters of names and variables, in code, by the spans of names that the caller lends.
#![tactic(auto, unfolding(tokens::specs::Classes::is_variable_character, tokens::specs::Classes::is_name_character))]

ghost use Rattle.std.specs.Prelude.{◌≡◌};
ghost use Rattle.tokens.specs.Classes.{name_spans, is_name_letter, is_name_mark, begins_variable, is_variable_character, is_name_character};
ghost use Rattle.token_classes.specs.SpanWords.{spans_of};

use token_classes::{is_digit, is_name_base};

// Whether `c` is a letter of a name, `_` included.
pub fn is_name_letter(names: &[u32], c: u32) -> bool
    requires { spans_of names.now ≡ name_spans }
    ensures { result ≡ is_name_letter c }
{
    is_name_base(names, c) || c == 0x5F
}

// Whether a variable's name, or a blank node's label, may begin with `c`.
pub fn begins_variable(names: &[u32], c: u32) -> bool
    requires { spans_of names.now ≡ name_spans }
    ensures { result ≡ begins_variable c }
{
    is_name_letter(names, c) || is_digit(c)
}

fn is_name_mark(c: u32) -> bool
    ensures { result ≡ is_name_mark c }
{
    matches!(c, 0xB7 | 0x300..=0x36F | 0x203F..=0x2040)
}

// Whether a variable's name may go on with `c`.
pub fn is_variable_character(names: &[u32], c: u32) -> bool
    requires { spans_of names.now ≡ name_spans }
    ensures { result ≡ is_variable_character c }
{
    begins_variable(names, c) || is_name_mark(c)
}

// Whether a name may go on with `c`, dots aside.
pub fn is_name_character(names: &[u32], c: u32) -> bool
    requires { spans_of names.now ≡ name_spans }
    ensures { result ≡ is_name_character c }
{
    is_variable_character(names, c) || c == 0x2D
}
