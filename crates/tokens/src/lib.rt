// Tokens of a query's text, over its code points: classes of characters, the terminals of SPARQL 1.1's grammar by number, all tokens of a text. The
// definitions, and what a token is.
#![tactic(auto)]

ghost use Rattle.std.specs.Prelude.{◌≡◌};
ghost use Rattle.tokens.specs.Numerals.{token};

// What a token is. The last four are wrong ones, which the grammar takes nowhere.
#[derive(Clone, Copy)]
pub enum TokenKind {
    End,
    Word,
    Variable,
    Iri,
    PrefixedName,
    BlankLabel,
    LanguageTag,
    Integer,
    Decimal,
    Double,
    QuotedText,
    Sign,
    BadByte,
    NoToken,
    Unended,
    WrongEscape,
}

// A token: what it is, how many characters stand before it, and how many it has.
#[derive(Clone, Copy)]
pub struct Token {
    pub kind: TokenKind,
    pub start: usize,
    pub size: usize,
}

// A token of `size` characters that stands at the place from which it is counted.
pub fn make_token(kind: TokenKind, size: usize) -> Token
    ensures { result ≡ token kind size }
{
    Token {
        kind,
        start: 0,
        size,
    }
}
