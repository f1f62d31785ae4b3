// The dictionary of strings that passed the tests, and their numbers.
ghost use Rattle.std.specs.Prelude.{◌≡◌, true, ◌≤◌, length};
ghost use Rattle.sequences.specs.Sequences.{over};
ghost use Rattle.dictionaries.specs.Dictionaries.{strings_of, ends_right, most_strings};
ghost use Rattle.dictionary_numberings.specs.Numbering.{strings_once, bytes_once, ends_once, string_numbers};
ghost use Rattle.dictionary_numberings.specs.Sorted.{sorted_places};

use dictionary_sorts::sort;
use dictionary_writes::{Extent, write_strings};

// Sorts the `places` of the strings by them, and writes each string once to `out`, its end to `cuts`, and to `numbers` the number of each. The sort works in
// `numbers`.
pub fn write_dictionary(
    bytes: &[u8],
    ends: &[u32],
    out: &mut [u8],
    cuts: &mut [u32],
    numbers: &mut [u32],
    places: &mut [u32],
) -> Extent
    requires ends_value { ends_right (length bytes.now) 0 ends.now ≡ true }
    requires ends_len_bound { (length ends.now ≤ most_strings) × (length bytes.now ≤ length out.old) × (length ends.now ≤ length cuts.old) }
    requires numbers_len { (length numbers.old ≡ length ends.now) × (length places.old ≡ length ends.now) }
    ensures bytes_value { (result.bytes ≡ length (bytes_once (strings_of bytes.now ends.now)))
        × (result.strings ≡ length (strings_once (strings_of bytes.now ends.now))) }
    ensures bytes { out.new ≡ over (bytes_once (strings_of bytes.now ends.now)) out.old }
    ensures ends { cuts.new ≡ over (ends_once (strings_of bytes.now ends.now)) cuts.old }
    ensures numbers { numbers.new ≡ string_numbers (strings_of bytes.now ends.now) }
    ensures places { places.new ≡ sorted_places bytes.now ends.now }
{
    words::count_up(places);
    sort(bytes, ends, places, numbers);
    write_strings(bytes, ends, places, out, cuts, numbers)
}
