// Strings numbered: the call.
#![tactic(auto)]

mod given;
mod writing;

ghost use Rattle.std.specs.Prelude.{◌≡◌};
ghost use Rattle.calls.specs.Calls.{result_of_call, AnswersRight};
ghost use Rattle.dictionary_numberings.specs.NumberCall.{number_buffers, number_input, number_call};

use dictionaries::StringKind;
use dictionary_numberings::DictionaryWritten;
use given::{given_right, has_room};
use writing::write_dictionary;

// The tests of numbering, by their numbers.
pub const STRINGS: u32 = 26;

pub const ROOM: u32 = 27;

// Numbers the strings of `kind` that are cut off `bytes` at `ends`, in any order and as often as they come: writes the dictionary of them to `out` and `cuts`
// and each one's number to `numbers`. It works in `numbers` and `places`, a word for each string. It is refused by the number of the first test that fails, and
// then nothing is written.
pub fn number(
    kind: StringKind,
    bytes: &[u8],
    ends: &[u32],
    out: &mut [u8],
    cuts: &mut [u32],
    numbers: &mut [u32],
    places: &mut [u32],
) -> DictionaryWritten
    ensures places_after { record { answer = result; buffers = number_buffers out.new cuts.new numbers.new places.new }
        ≡ result_of_call number_call (number_input kind bytes.now ends.now
        (number_buffers out.old cuts.old numbers.old places.old)) }
    ensures number { AnswersRight number_call (number_input kind bytes.now ends.now
        (number_buffers out.old cuts.old numbers.old places.old)) result }
{
    if !given_right(kind, bytes, ends) {
        return DictionaryWritten::Refused(STRINGS);
    }
    let count = ends.len();
    if !has_room(
        bytes.len(),
        count,
        out.len(),
        cuts.len(),
        numbers.len(),
        places.len(),
    ) {
        return DictionaryWritten::Refused(ROOM);
    }
    let extent = write_dictionary(
        bytes,
        ends,
        out,
        cuts,
        &mut numbers[..count],
        &mut places[..count],
    );
    DictionaryWritten::Sizes {
        bytes: extent.bytes,
        strings: extent.strings,
    }
}
