// Whether strings are as their kind wants them. Where all bytes are ASCII, which one pass tells, no string is looked at for UTF-8.
ghost use Rattle.std.specs.Prelude.{◌≡◌, ℕ, Bool, true, List, length};
ghost use Rattle.std.specs.Fn.{FnReturnsAt};
ghost use Rattle.sequences.specs.Sequences.{all};
ghost use Rattle.dictionaries.specs.declared.StringKind.TheVariants.{Names};
ghost use Rattle.dictionaries.specs.Utf8.{span, is_in};
ghost use Rattle.dictionaries.specs.Dictionaries.{strings_of, ends_right};
ghost use Rattle.dictionaries.specs.Checking.{string_right};

use crate::names::{iri_bytes, iri_right};
use dictionaries::StringKind;
use dictionary_checks::{is_ascii, well_formed};
use dictionary_searches::string;

// Whether `s` is a string as `kind` wants it.
pub fn string_right(kind: StringKind, s: &[u8]) -> bool
    ensures { result ≡ string_right kind s.now }
{
    well_formed(s)
        && match kind {
            StringKind::Names => iri_right(s),
            StringKind::Texts => true,
        }
}

// Whether each string that is cut off `bytes` at `ends` passes `test`.
fn each_passes<F: Fn(&[u8]) -> bool>(bytes: &[u8], ends: &[u32], test: F) -> bool
    requires ends_value { ends_right (length bytes.now) 0 ends.now ≡ true }
    requires callable { F.IsAlwaysCallable test }
    ensures { (p : List ℕ → Bool) → ((s : List ℕ) (b : Bool) → FnReturnsAt F.Fn test s b → b ≡ p s)
        → result ≡ all p (strings_of bytes.now ends.now) }
{
    for i in 0..ends.len() {
        if !test(string(bytes, ends, i)) {
            return false;
        }
    }
    true
}

// Whether each string is a name, where all bytes are ASCII: where all may stand in one, none may be empty.
fn names_right(bytes: &[u8], ends: &[u32]) -> bool
    requires ends_value { ends_right (length bytes.now) 0 ends.now ≡ true }
    requires bytes_value { all (is_in (span 0x00 0x7F)) bytes.now ≡ true }
    ensures { result ≡ all (string_right Names) (strings_of bytes.now ends.now) }
{
    if iri_bytes(bytes) {
        each_passes(bytes, ends, |s| !s.is_empty())
    } else {
        each_passes(bytes, ends, iri_right)
    }
}

// Whether each string is one of `kind`, where all bytes are ASCII.
fn plain_right(kind: StringKind, bytes: &[u8], ends: &[u32]) -> bool
    requires ends_value { ends_right (length bytes.now) 0 ends.now ≡ true }
    requires bytes_value { all (is_in (span 0x00 0x7F)) bytes.now ≡ true }
    ensures { result ≡ all (string_right kind) (strings_of bytes.now ends.now) }
{
    match kind {
        StringKind::Names => names_right(bytes, ends),
        StringKind::Texts => true,
    }
}

// Whether each string that is cut off `bytes` at `ends` is one of `kind`.
pub fn each_right(kind: StringKind, bytes: &[u8], ends: &[u32]) -> bool
    requires { ends_right (length bytes.now) 0 ends.now ≡ true }
    ensures { result ≡ all (string_right kind) (strings_of bytes.now ends.now) }
{
    if is_ascii(bytes) {
        plain_right(kind, bytes, ends)
    } else {
        each_passes(bytes, ends, |s| string_right(kind, s))
    }
}
