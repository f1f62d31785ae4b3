// What numbers, IRIs, variables and typed texts are for the grammar, by the kind of the terminal before them.
#![tactic(auto)]

ghost use Rattle.std.specs.Prelude.{◌≡◌, ◌&&◌, [], ◌∷◌};
ghost use Rattle.tokens.specs.Classes.{is_one_of, is_digit};
ghost use Rattle.tokens.specs.Runs.{first_is};
ghost use Rattle.syntax.specs.Kinds.{limit_word, offset_word};
ghost use Rattle.terminals.specs.Names.{iri, year_scheme};
ghost use Rattle.terminals.specs.Terminals.{number_terminal, year_or, iri_terminal, variable_terminal, typed_number, typed_terminal, xsd_string, xsd_integer};

use terminal_forms::{has_scheme, is_shortest, is_whole, is_year, quoted};
use terminal_letters::{first_in, rest, same_string};

const VARIABLE: u32 = 1;

const NAME: u32 = 2;

const WHOLE: u32 = 3;

const TYPED_WHOLE: u32 = 4;

const ODD: u32 = 5;

const TYPED_ODD: u32 = 6;

const TYPED_TEXT: u32 = 8;

const PREFIX_NAME: u32 = 9;

const PREFIX_IRI: u32 = 10;

const YEAR: u32 = 11;

const COUNT: u32 = 12;

const YEAR_VARIABLE: u32 = 13;

const RELATIVE: u32 = 15;

const TYPED_OTHER: u32 = 16;

const FROM: u32 = 27;

const LIMIT: u32 = 37;

const OFFSET: u32 = 38;

// Whether a number behind a terminal of the kind `last` is a count.
fn is_count(last: u32, s: &[u32]) -> bool
    ensures { result ≡ (is_one_of (limit_word ∷ offset_word ∷ []) last && first_is is_digit s.now) }
{
    matches!(last, LIMIT | OFFSET) && first_in(s, 0x30, 0x39)
}

// What a whole number is.
pub fn number_kind(last: u32, s: &[u32]) -> u32
    ensures { result ≡ number_terminal last s.now }
{
    if is_count(last, s) {
        COUNT
    } else if is_shortest(s) {
        WHOLE
    } else {
        ODD
    }
}

// What a name is, which stands for `s`; `scheme` is year: itself.
pub fn year_or(last: u32, s: &[u32], scheme: &[u32]) -> u32
    requires { scheme.now ≡ year_scheme }
    ensures { result ≡ year_or last s.now }
{
    if last == FROM && is_year(s, scheme) {
        YEAR
    } else {
        NAME
    }
}

// What an IRI is, by what stands in its brackets.
pub fn iri_kind(last: u32, s: &[u32], scheme: &[u32]) -> u32
    requires { scheme.now ≡ year_scheme }
    ensures { result ≡ iri_terminal last s.now }
{
    if !has_scheme(s) {
        RELATIVE
    } else if last == PREFIX_NAME {
        PREFIX_IRI
    } else {
        year_or(last, s, scheme)
    }
}

// What a variable is, where `graph` is the name of GRAPH's.
pub fn variable_kind(graph: &[u32], s: &[u32]) -> u32
    ensures { result ≡ variable_terminal graph.now s.now }
{
    if same_string(rest(s, 1), graph) {
        YEAR_VARIABLE
    } else {
        VARIABLE
    }
}

// What a text of xsd:integer is, by what stands in its quotes.
fn typed_number(s: &[u32]) -> u32
    ensures { result ≡ typed_number s.now }
{
    if !is_whole(s) {
        TYPED_OTHER
    } else if is_shortest(s) {
        TYPED_WHOLE
    } else {
        TYPED_ODD
    }
}

// What a text is with a datatype behind it; `string` and `integer` are the two that are read.
pub fn typed_kind(s: &[u32], datatype: &[u32], string: &[u32], integer: &[u32]) -> u32
    requires { (string.now ≡ xsd_string) × (integer.now ≡ xsd_integer) }
    ensures { result ≡ typed_terminal s.now (iri datatype.now) }
{
    if same_string(datatype, string) {
        TYPED_TEXT
    } else if same_string(datatype, integer) {
        typed_number(quoted(s))
    } else {
        TYPED_OTHER
    }
}
