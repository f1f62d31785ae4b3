// A query's text as code points, each with the byte where it begins: UTF-8 read, the escapes of SPARQL 1.1, 19.2, undone from the left. Definitions and
// laws, and what is read at a place.
#![tactic(auto)]

// A character: its code point, and how many bytes it is written with after the first.
#[derive(Clone, Copy)]
pub struct Character {
    pub point: u32,
    pub more: usize,
}
