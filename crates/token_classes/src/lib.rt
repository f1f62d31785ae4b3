// The classes of characters that tokens are made of, in code. Those above ASCII go by a list of spans that the caller lends, made once for a text.
#![tactic(auto, unfolding(characters::specs::Escapes::hex_digit, tokens::specs::Classes::is_name_base))]

ghost use Rattle.std.specs.Prelude.{◌≡◌, [], ◌∷◌};
ghost use Rattle.dictionaries.specs.Utf8.{span, is_in};
ghost use Rattle.tokens.specs.Classes.{in_spans, is_one_of, is_digit, is_ascii_letter, is_blank, is_line_end, is_word_character, is_name_base, name_spans};
ghost use Rattle.tokens.specs.Classes.{is_iri_character, is_hex_digit, is_name_escape, is_text_escape, is_sign};
ghost use Rattle.token_classes.specs.SpanWords.{spans_of};

// Whether `c` is from `least` to `greatest`.
pub fn in_span(c: u32, least: u32, greatest: u32) -> bool
    ensures { result ≡ is_in (span least greatest) c }
{
    (least..=greatest).contains(&c)
}

// Whether one of `spans` has the character `c`; each is two words, its least and its greatest.
pub fn in_spans(spans: &[u32], c: u32) -> bool
    ensures { result ≡ in_spans (spans_of spans.now) c }
{
    spans
        .chunks_exact(2)
        .any(|span| in_span(c, span[0], span[1]))
}

// Whether `c` is a letter that a name may begin with, by the spans of `names`.
pub fn is_name_base(names: &[u32], c: u32) -> bool
    requires { spans_of names.now ≡ name_spans }
    ensures { result ≡ is_name_base c }
{
    in_spans(names, c)
}

pub fn is_digit(c: u32) -> bool
    ensures { result ≡ is_digit c }
{
    matches!(c, 0x30..=0x39)
}

pub fn is_ascii_letter(c: u32) -> bool
    ensures { result ≡ is_ascii_letter c }
{
    matches!(c, 0x41..=0x5A | 0x61..=0x7A)
}

// Whether a word may go on with `c`.
pub fn is_word_character(c: u32) -> bool
    ensures { result ≡ is_word_character c }
{
    is_ascii_letter(c) || is_digit(c) || c == 0x5F
}

pub fn is_line_end(c: u32) -> bool
    ensures { result ≡ is_line_end c }
{
    matches!(c, 0x0A | 0x0D)
}

pub fn is_blank(c: u32) -> bool
    ensures { result ≡ is_blank c }
{
    matches!(c, 0x20 | 0x09 | 0x0D | 0x0A)
}

// Whether `c` is one of the ASCII characters of `set`.
fn one_of(set: &[u8], c: u32) -> bool
    ensures { result ≡ is_one_of set.now c }
{
    set.iter().any(|a| c == u32::from(*a))
}

// Whether `c` may stand in an IRI.
pub fn is_iri_character(c: u32) -> bool
    ensures { result ≡ is_iri_character c }
{
    (0x21..0x110000).contains(&c) && !one_of(b"<>\"{}|^`\\", c)
}

// Whether `c` may stand behind a backslash in a text.
pub fn is_text_escape(c: u32) -> bool
    ensures { result ≡ is_text_escape c }
{
    one_of(b"tbnrf\\\"'", c)
}

// Whether `c` may stand behind a backslash in a local name.
pub fn is_name_escape(c: u32) -> bool
    ensures { result ≡ is_name_escape c }
{
    one_of(b"_~.-!$&'()*+,;=/?#@%", c)
}

// Whether `c` is a sign that is a token by itself.
pub fn is_sign(c: u32) -> bool
    ensures { result ≡ is_sign c }
{
    one_of(b"{}()[].;,*/|^?!=<>+-", c)
}

pub fn is_hex_digit(c: u32) -> bool
    ensures { result ≡ is_hex_digit c }
{
    matches!(c, 0x30..=0x39 | 0x41..=0x46 | 0x61..=0x66)
}

// Whether `c` is one of two characters.
pub fn either(c: u32, a: u32, b: u32) -> bool
    ensures { result ≡ is_one_of (a ∷ b ∷ []) c }
{
    c == a || c == b
}
