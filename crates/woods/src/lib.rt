// A wood made to measure: its draws, stems and rows by seed, count and year, tests 24 and 25, answer and buffers at exit.
#![tactic(auto)]

// How many stems a wood has at most.
pub const MOST_STEMS: u32 = 32768;

// How many rows a stem has: its stand, and its diameter.
pub const STEM_ROWS: usize = 2;
