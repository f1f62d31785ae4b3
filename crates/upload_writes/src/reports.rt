// The fates of an upload's rows, counted, and the report of the dropped ones.
ghost use Rattle.std.specs.Prelude.{◌≡◌, ◌≤◌, length};
ghost use Rattle.sequences.specs.Sequences.{keep, numbers, over};
ghost use Rattle.tables.specs.Tables.{most_rows};
ghost use Rattle.upload_writes.specs.Writing.{is_kept_in, dropped_words};

use uploads::{ENTRY_WORDS, KEPT};
use words::copy_in;

// How many of the first `count` rows are kept.
pub fn count_kept(fates: &[u8], count: usize) -> usize
    requires { (count ≤ length fates.now) × (count ≤ most_rows) }
    ensures { result ≡ length (keep (is_kept_in fates.now) (numbers count)) }
{
    fates[..count].iter().filter(|fate| **fate == KEPT).count()
}

// Writes to `report` the place and the fate of each of the first `count` rows that is dropped; answers its words.
pub fn write_report(fates: &[u8], count: usize, report: &mut [u32]) -> usize
    requires count_in_bounds { (count ≤ length fates.now) × (count ≤ most_rows) }
    requires count_in_bounds_2 { length (dropped_words fates.now count) ≤ length report.old }
    ensures value { result ≡ length (dropped_words fates.now count) }
    ensures report_after { report.new ≡ over (dropped_words fates.now count) report.old }
{
    let mut used: usize = 0;
    for row in 0..count {
        let fate = fates[row];
        if fate != KEPT {
            copy_in(report, used, &[row as u32, u32::from(fate)]);
            used += ENTRY_WORDS;
        }
    }
    used
}
