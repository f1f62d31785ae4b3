// The call `make`: tables from an upload, and the report of the rows that were dropped.
#![tactic(auto)]

mod within;

ghost use Rattle.std.specs.Prelude.{◌≡◌};
ghost use Rattle.calls.specs.Calls.{AnswersRight};
ghost use Rattle.uploads.specs.Making.{make_input, make_buffers, make_schema, make_of};

use tables::{COLUMNS, MOST_ROWS};
use uploads::Made;
use within::make_within;

// The tests of making tables, by their numbers.
pub const UPLOAD: u32 = 15;

pub const ROOM: u32 = 16;

// The places that a sort works in: half of the most rows.
const HALF: usize = MOST_ROWS / 2;

// Makes tables from `upload`, and a report of the rows that it drops. It is refused by the number of the first test that fails, and then
// nothing is written.
pub fn make(
    upload: &[u32],
    rows: &mut [u32],
    pos: &mut [u32],
    osp: &mut [u32],
    report: &mut [u32],
) -> Made
    ensures report_after { record { answer = result; buffers = make_buffers rows.new pos.new osp.new report.new }
        ≡ make_of (make_input upload.now rows.old pos.old osp.old report.old) }
    ensures number { AnswersRight make_schema (make_input upload.now rows.old pos.old osp.old
        report.old) result }
{
    if upload.len() % COLUMNS != 0 {
        return Made::Refused(UPLOAD);
    }
    if MOST_ROWS < upload.len() / COLUMNS {
        return Made::Refused(UPLOAD);
    }
    let mut list = [0u32; MOST_ROWS];
    let mut spare = [0u32; HALF];
    let mut fates = [0u8; MOST_ROWS];
    make_within(
        upload, rows, pos, osp, report, &mut list, &mut spare, &mut fates,
    )
}
