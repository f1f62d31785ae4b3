// Strings numbered: a dictionary of exactly these strings, and the number of each. The call's definitions and laws.
#![tactic(auto)]

// What numbering answers: the bytes and the strings of the dictionary that is written, or the number of the test that refused the call.
#[derive(Clone, Copy)]
pub enum DictionaryWritten {
    Sizes { bytes: usize, strings: usize },
    Refused(u32),
}
