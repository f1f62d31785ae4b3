// Merging a turn's list into a kept one: tests in order, answer, buffer at exit. Definitions and laws.
#![tactic(auto)]

// The tests of a merge after those of its plan, by their numbers.
pub const LISTS: u32 = 12;

pub const TOTALS: u32 = 13;

pub const ROOM: u32 = 14;
