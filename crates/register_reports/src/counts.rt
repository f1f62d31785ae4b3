// How many registers have each value.
ghost use Rattle.std.specs.Prelude.{◌≡◌, ◌≤◌, [], length};
ghost use Rattle.sequences.specs.Sequences.{over};
ghost use Rattle.registers.specs.Registers.{register_count, registers_in, count_at, report_on};
ghost use Rattle.register_reports.specs.Reporting.{report_words};

use crate::REPORT_WORDS;

// The count of all registers.
const ALL: u32 = 16;

// How many words of `list` are `value`.
fn count_at(list: &[u32], value: u32) -> u32
    requires { length list.now ≤ register_count }
    ensures { result ≡ count_at value list.now }
{
    let mut count: u32 = 0;
    // no `filter` with `count`: a report then takes seven times the instructions
    for register in list {
        count += u32::from(*register == value);
    }
    count
}

// How many registers of an empty list are `value`: all are 0.
fn counted_none(value: u32) -> u32
    ensures { result ≡ count_at value (registers_in []) }
{
    if value == 0 {
        return ALL;
    }
    0
}

// How many registers of `list` are `value`.
fn counted(list: &[u32], value: u32) -> u32
    requires { length list.now ≤ register_count }
    ensures { result ≡ count_at value (registers_in list.now) }
{
    if list.is_empty() {
        return counted_none(value);
    }
    count_at(list, value)
}

// Writes the report on `list` to `report`.
pub fn write_counts(list: &[u32], report: &mut [u32])
    requires list_len_bound { length list.now ≤ register_count }
    requires report_words_in_bounds { report_words ≤ length report.old }
    ensures { report.new ≡ over (report_on list.now) report.old }
{
    for value in 0..REPORT_WORDS {
        report[value] = counted(list, value as u32);
    }
}
