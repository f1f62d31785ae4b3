// All tokens of a text's characters, in one pass over a lent buffer: three words a token, the number of its kind, its start and its size.
#![tactic(auto)]

ghost use Rattle.std.specs.Prelude.{◌≡◌, ◌+◌, ◌*◌, ◌≤◌, ◌<◌, length, set};
ghost use Rattle.sequences.specs.Buffers.{Overwritten};
ghost use Rattle.tokens.specs.Classes.{name_spans};
ghost use Rattle.tokens.specs.Tokens.{tokens_of};
ghost use Rattle.tokens.specs.TokenWords.{kind_number, token_words};
ghost use Rattle.token_classes.specs.SpanWords.{spans_of};

use token_readings::read_token;
use token_runs::skip_blanks;
use tokens::{Token, TokenKind};

pub const END: u32 = 0;

pub const WORD: u32 = 1;

pub const VARIABLE: u32 = 2;

pub const IRI: u32 = 3;

pub const PREFIXED_NAME: u32 = 4;

pub const BLANK_LABEL: u32 = 5;

pub const LANGUAGE_TAG: u32 = 6;

pub const INTEGER: u32 = 7;

pub const DECIMAL: u32 = 8;

pub const DOUBLE: u32 = 9;

pub const QUOTED_TEXT: u32 = 10;

pub const SIGN: u32 = 11;

pub const BAD_BYTE: u32 = 12;

pub const NO_TOKEN: u32 = 13;

pub const UNENDED: u32 = 14;

pub const WRONG_ESCAPE: u32 = 15;

pub fn kind_number(kind: TokenKind) -> u32
    ensures { result ≡ kind_number kind }
{
    match kind {
        TokenKind::End => END,
        TokenKind::Word => WORD,
        TokenKind::Variable => VARIABLE,
        TokenKind::Iri => IRI,
        TokenKind::PrefixedName => PREFIXED_NAME,
        TokenKind::BlankLabel => BLANK_LABEL,
        TokenKind::LanguageTag => LANGUAGE_TAG,
        TokenKind::Integer => INTEGER,
        TokenKind::Decimal => DECIMAL,
        TokenKind::Double => DOUBLE,
        TokenKind::QuotedText => QUOTED_TEXT,
        TokenKind::Sign => SIGN,
        TokenKind::BadByte => BAD_BYTE,
        TokenKind::NoToken => NO_TOKEN,
        TokenKind::Unended => UNENDED,
        TokenKind::WrongEscape => WRONG_ESCAPE,
    }
}

// Writes the three words of `t` to `tokens` at `n`.
fn write_token(tokens: &mut [u32], n: usize, t: Token)
    requires { (n + 3 ≤ length tokens.old) × (t.start < 4294967296) × (t.size < 4294967296) }
    ensures { tokens.new ≡ set (set (set tokens.old n (kind_number t.kind)) (n + 1) t.start) (n + 2) t.size }
{
    tokens[n] = kind_number(t.kind);
    tokens[n + 1] = t.start as u32;
    tokens[n + 2] = t.size as u32;
}

// Writes the words of all tokens of `points` to the front of `tokens`, the end of the text as the last; answers how many words they are.
pub fn read_tokens(points: &[u32], names: &[u32], tokens: &mut [u32]) -> usize
    requires { (length points.now < 4294967296) × (spans_of names.now ≡ name_spans) × (3 * length points.now + 3 ≤ length tokens.old) }
    ensures { Overwritten (token_words (tokens_of points.now)) tokens.old tokens.new result }
{
    let mut at = skip_blanks(points, 0);
    let mut n: usize = 0;
    // no iterator: a token and the blanks behind it are of any length
    while at < points.len() {
        let t = read_token(points, names, at);
        write_token(tokens, n, t);
        n += 3;
        at = skip_blanks(points, t.start + t.size);
    }
    let end = Token {
        kind: TokenKind::End,
        start: at,
        size: 0,
    };
    write_token(tokens, n, end);
    n + 3
}
