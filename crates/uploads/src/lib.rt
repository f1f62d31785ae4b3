// Tables from an upload, whose rows come in the order in which they were measured: the fate of each row, what is made and reported, tests 15 and 16.
#![tactic(auto)]

// What making tables answers: the words written to each buffer, or the number of the test that refused it.
#[derive(Clone, Copy)]
pub enum Made {
    Words {
        rows: usize,
        pos: usize,
        osp: usize,
        report: usize,
    },
    Refused(u32),
}

// The fate of a row, by its code in the report: kept rows stand in none.
pub const KEPT: u8 = 0;

pub const WRONG: u8 = 1;

pub const REPEAT: u8 = 2;

// The words that the report has for a dropped row: its place, and its code.
pub const ENTRY_WORDS: usize = 2;
