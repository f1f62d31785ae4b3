// The call `report`: counts the registers of a kept list at each value. The list is the first words of its buffer, as many as the call gives.
#![tactic(auto)]

mod counts;

ghost use Rattle.std.specs.Prelude.{◌≡◌};
ghost use Rattle.calls.specs.Calls.{AnswersRight};
ghost use Rattle.register_reports.specs.Reporting.{report_input, report_schema, report_of};

use counts::write_counts;
use list_registers::kept_registers;
use words::Written;

// The tests of a report, by their numbers.
pub const ROOM: u32 = 7;

pub const LISTS: u32 = 12;

// A count for each value that a register may have.
pub const REPORT_WORDS: usize = 62;

// Writes to `report` how many registers, in the first `given` words of `kept`, have each value from 0 to 61. It is refused by the number of the first test
// that fails, and then nothing is written.
pub fn report(kept: &[u32], given: usize, report: &mut [u32]) -> Written
    ensures report_after { record { answer = result; buffers = report.new }
        ≡ report_of (report_input kept.now given report.old) }
    ensures number { AnswersRight report_schema (report_input kept.now given report.old) result }
{
    if report.len() < REPORT_WORDS {
        return Written::Refused(ROOM);
    }
    if kept.len() < given {
        return Written::Refused(LISTS);
    }
    let list = &kept[..given];
    if !kept_registers(list) {
        return Written::Refused(LISTS);
    }
    write_counts(list, report);
    Written::Words(REPORT_WORDS)
}
