// Whether bytes may stand in an IRI, between < and >.
#![tactic(auto, unfolding(dictionaries::specs::Checking::iri_character, sequences::specs::Sequences::member))]

ghost use Rattle.std.specs.Prelude.{◌≡◌, cond, eqb};
ghost use Rattle.sequences.specs.Sequences.{all};
ghost use Rattle.dictionaries.specs.Checking.{iri_character, is_iri};

// Whether `b` may stand in an IRI.
fn iri_byte(b: u8) -> bool
    ensures { result ≡ iri_character b }
{
    !matches!(
        b,
        0x00..=0x20 | b'"' | b'<' | b'>' | b'\\' | b'^' | b'`' | b'{' | b'|' | b'}'
    )
}

// Whether `s` has a byte, and each of its bytes may stand in an IRI.
pub fn iri_right(s: &[u8]) -> bool
    ensures { result ≡ is_iri s.now }
{
    !s.is_empty() && s.iter().all(|b| iri_byte(*b))
}

// 1 where `b` is `c`, else `mark`.
fn marked(b: u8, c: u8, mark: u8) -> u8
    ensures { result ≡ cond (eqb b c) 1 mark }
{
    if b == c { 1 } else { mark }
}

// 1 where `b` may not stand in an IRI, else 0: with no branch, so that compilers take many bytes at once.
fn iri_mark(b: u8) -> u8
    ensures { result ≡ cond (iri_character b) 0 1 }
{
    let low = u8::from(b <= 0x20);
    let brace = marked(b, b'}', low);
    let bar = marked(b, b'|', brace);
    let first_brace = marked(b, b'{', bar);
    let backtick = marked(b, b'`', first_brace);
    let caret = marked(b, b'^', backtick);
    let backslash = marked(b, b'\\', caret);
    let greater_than = marked(b, b'>', backslash);
    let less_than = marked(b, b'<', greater_than);
    marked(b, b'"', less_than)
}

// Whether all `bytes` may stand in an IRI. The greatest mark tells, and no byte ends the loop, so that compilers take many bytes at once.
pub fn iri_bytes(bytes: &[u8]) -> bool
    ensures { result ≡ all iri_character bytes.now }
{
    let mut greatest: u8 = 0;
    for b in bytes {
        greatest = greatest.max(iri_mark(*b));
    }
    greatest == 0
}
