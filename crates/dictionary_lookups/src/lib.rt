// The calls `find` and `string` over a lent dictionary: the number of a string or its rank, and the string of a number.
#![tactic(auto)]

ghost use Rattle.std.specs.Prelude.{◌≡◌};
ghost use Rattle.calls.specs.Calls.{result_of_call, AnswersRight};
ghost use Rattle.dictionary_lookups.specs.Finding.{find_input, find_call};
ghost use Rattle.dictionary_lookups.specs.Lending.{string_input, string_call};

use dictionaries::StringKind;
use dictionary_searches::start_of;
use dictionary_tests::dictionary_right;

// The test of a dictionary, by its number.
pub const DICTIONARY: u32 = 28;

// What a search answers: the string's number, how many come before one that is not there, or the number of the test that refused it.
#[derive(Clone, Copy)]
pub enum StringFound {
    At(usize),
    Absent(usize),
    Refused(u32),
}

// What a number's string is: where its bytes start and end, that it is past the last number, or the number of the test that refused the call.
#[derive(Clone, Copy)]
pub enum StringBounds {
    Part(usize, usize),
    Past,
    Refused(u32),
}

// Looks for `sought` in a dictionary of names or of texts, as `kind` says.
pub fn find(kind: StringKind, bytes: &[u8], ends: &[u32], sought: &[u8]) -> StringFound
    ensures tt_value { record { answer = result; buffers = tt }
        ≡ result_of_call find_call (find_input kind bytes.now ends.now sought.now) }
    ensures number { AnswersRight find_call (find_input kind bytes.now ends.now sought.now) result }
{
    if !dictionary_right(kind, bytes, ends) {
        return StringFound::Refused(DICTIONARY);
    }
    match dictionary_searches::find(bytes, ends, sought) {
        Ok(n) => StringFound::At(n),
        Err(n) => StringFound::Absent(n),
    }
}

// Where the string with the number `n` starts in `bytes`, and where it ends.
pub fn string(kind: StringKind, bytes: &[u8], ends: &[u32], n: usize) -> StringBounds
    ensures tt_value { record { answer = result; buffers = tt } ≡ result_of_call string_call (string_input kind bytes.now ends.now n) }
    ensures number { AnswersRight string_call (string_input kind bytes.now ends.now n) result }
{
    if !dictionary_right(kind, bytes, ends) {
        return StringBounds::Refused(DICTIONARY);
    }
    if ends.len() <= n {
        return StringBounds::Past;
    }
    let start = start_of(ends, n);
    let end = words::wide(ends[n]);
    StringBounds::Part(start, end)
}
