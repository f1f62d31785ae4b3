// The test of a whole dictionary of names or of texts: ends, number of strings, UTF-8, characters of names, order.
#![tactic(auto, using(std::proofs::lemmas::Bool::Decides::nat_tests), unfolding(dictionaries::specs::Checking::dictionary_right))]

mod names;
mod strings;

ghost use Rattle.std.specs.Prelude.{◌≡◌, true, ◌&&◌, length};
ghost use Rattle.sequences.specs.Sequences.{all, neighbours};
ghost use Rattle.dictionaries.specs.Strings.{string_before};
ghost use Rattle.dictionaries.specs.Dictionaries.{strings_of, ends_right};
ghost use Rattle.dictionaries.specs.Checking.{string_right, dictionary_right};

use dictionaries::StringKind;
use dictionary_searches::stands_before;
pub use strings::{each_right, string_right};

// The most strings of a dictionary, so that the number after the last is a value too.
pub const MOST_STRINGS: usize = 0x3FFF_FFFF;

// Whether `ends` do not fall and the last of them is `count`, the number of bytes.
pub fn ends_right(count: usize, ends: &[u32]) -> bool
    ensures { result ≡ ends_right count 0 ends.now }
{
    let mut last: usize = 0;
    for end in ends {
        let end = words::wide(*end);
        if end < last {
            return false;
        }
        last = end;
    }
    last == count
}

// Whether each string comes before the next.
fn strings_ascend(bytes: &[u8], ends: &[u32]) -> bool
    requires { ends_right (length bytes.now) 0 ends.now ≡ true }
    ensures { result ≡ neighbours string_before (strings_of bytes.now ends.now) }
{
    for next in 1..ends.len() {
        if !stands_before(bytes, ends, next - 1, next) {
            return false;
        }
    }
    true
}

// Whether each string is as `kind` wants it, and comes before the next.
fn strings_right(kind: StringKind, bytes: &[u8], ends: &[u32]) -> bool
    requires { ends_right (length bytes.now) 0 ends.now ≡ true }
    ensures { result
        ≡ (all (string_right kind) (strings_of bytes.now ends.now)
        && neighbours string_before (strings_of bytes.now ends.now)) }
{
    each_right(kind, bytes, ends) && strings_ascend(bytes, ends)
}

// Whether a dictionary is right for the strings that `kind` names.
pub fn dictionary_right(kind: StringKind, bytes: &[u8], ends: &[u32]) -> bool
    ensures { result ≡ dictionary_right kind bytes.now ends.now }
{
    ends.len() <= MOST_STRINGS && ends_right(bytes.len(), ends) && strings_right(kind, bytes, ends)
}
