// The tests of numbering: the strings given, and the room for what is written.
#![tactic(auto, using(dictionaries::proofs::Searching::strings_length), unfolding(dictionary_numberings::specs::NumberCall::given_right))]

ghost use Rattle.std.specs.Prelude.{◌≡◌, ◌&&◌, leb};
ghost use Rattle.dictionary_numberings.specs.NumberCall.{given_right};

use dictionaries::StringKind;
use dictionary_tests::{MOST_STRINGS, each_right, ends_right};

// Whether `ends` cut `bytes`, and the strings are of `kind` and not too many.
pub fn given_right(kind: StringKind, bytes: &[u8], ends: &[u32]) -> bool
    ensures { result ≡ given_right kind bytes.now ends.now }
{
    ends_right(bytes.len(), ends) && ends.len() <= MOST_STRINGS && each_right(kind, bytes, ends)
}

// Whether buffers of lengths `out`, `cuts`, `numbers` and `places` have room for `bytes` bytes and `strings` strings.
pub fn has_room(
    bytes: usize,
    strings: usize,
    out: usize,
    cuts: usize,
    numbers: usize,
    places: usize,
) -> bool
    ensures { result ≡ leb bytes out && (leb strings cuts && (leb strings numbers && leb strings places)) }
{
    bytes <= out && strings <= cuts && strings <= numbers && strings <= places
}
