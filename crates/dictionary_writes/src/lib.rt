// The dictionary of strings by their sorted places: each string once, behind the one before it, and the number of each place's string.
#![tactic(auto)]

ghost use Rattle.std.specs.Prelude.{◌≡◌, true, ◌||◌, ◌+◌, ◌≤◌, ◌<◌, eqb, length, get_or};
ghost use Rattle.sequences.specs.Sequences.{all, over};
ghost use Rattle.dictionaries.specs.Dictionaries.{strings_of, ends_right, most_strings, has_string, place_before};
ghost use Rattle.dictionary_numberings.specs.Numbering.{strings_once, bytes_once, ends_once, string_numbers};
ghost use Rattle.dictionary_numberings.specs.Sorted.{sorted_places};

use dictionary_searches::{is_before, string};
use words::copy_in;

// How much was written.
#[derive(Clone, Copy)]
pub struct Extent {
    pub bytes: usize,
    pub strings: usize,
}

// Whether the string of entry `k` of `places` is the last, or comes before the next.
fn is_last(bytes: &[u8], ends: &[u32], places: &[u32], k: usize) -> bool
    requires ends_value { ends_right (length bytes.now) 0 ends.now ≡ true }
    requires places_value { all (has_string ends.now) places.now ≡ true }
    requires k_in_bounds { k < length places.now }
    ensures { result ≡ eqb (k + 1) (length places.now)
        || place_before bytes.now ends.now (get_or places.now k 0) (get_or places.now (k + 1) 0) }
{
    if k + 1 == places.len() {
        true
    } else {
        is_before(
            bytes,
            ends,
            words::wide(places[k]),
            words::wide(places[k + 1]),
        )
    }
}

// Writes the strings that are cut off `bytes` at `ends`, by their sorted `places`: each once to `out` and its end to `cuts`, and to `numbers` the number
// of each.
pub fn write_strings(
    bytes: &[u8],
    ends: &[u32],
    places: &[u32],
    out: &mut [u8],
    cuts: &mut [u32],
    numbers: &mut [u32],
) -> Extent
    requires ends_value { ends_right (length bytes.now) 0 ends.now ≡ true }
    requires places_value { places.now ≡ sorted_places bytes.now ends.now }
    requires ends_len_bound { (length ends.now ≤ most_strings) × (length numbers.old ≡ length ends.now) }
    requires bytes_in_bounds { (length bytes.now ≤ length out.old) × (length ends.now ≤ length cuts.old) }
    ensures bytes_value { (result.bytes ≡ length (bytes_once (strings_of bytes.now ends.now)))
        × (result.strings ≡ length (strings_once (strings_of bytes.now ends.now))) }
    ensures bytes { out.new ≡ over (bytes_once (strings_of bytes.now ends.now)) out.old }
    ensures ends { cuts.new ≡ over (ends_once (strings_of bytes.now ends.now)) cuts.old }
    ensures numbers { numbers.new ≡ string_numbers (strings_of bytes.now ends.now) }
{
    let mut filled: usize = 0;
    let mut count: usize = 0;
    for (k, place) in places.iter().enumerate() {
        let place = words::wide(*place);
        numbers[place] = count as u32;
        if !is_last(bytes, ends, places, k) {
            continue;
        }
        let s = string(bytes, ends, place);
        copy_in(out, filled, s);
        filled += s.len();
        cuts[count] = filled as u32;
        count += 1;
    }
    Extent {
        bytes: filled,
        strings: count,
    }
}
