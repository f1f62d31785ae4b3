// The call `grow`: the tables of a wood.
#![tactic(auto)]

ghost use Rattle.std.specs.Prelude.{◌≡◌};
ghost use Rattle.calls.specs.Calls.{AnswersRight};
ghost use Rattle.table_answers.specs.Writing.{table_buffers};
ghost use Rattle.woods.specs.Growing.{grow_input, asked_right, grow_schema, grow_of};

use table_answers::{TablesWritten, has_room};
use tables::MOST_ROWS;
use wood_tables::write_tables;
use woods::{MOST_STEMS, STEM_ROWS};
use words::MOST_YEAR;

// The tests of growing a wood, by their numbers.
pub const ASKED: u32 = 24;

pub const ROOM: u32 = 25;

// The places that a sort works in: half of the most rows.
const HALF: usize = MOST_ROWS / 2;

// Whether a wood may have `stems` stems, in the year `year`.
fn asked_right(stems: u32, year: u32) -> bool
    ensures { result ≡ asked_right stems year }
{
    stems <= MOST_STEMS && (1..=MOST_YEAR).contains(&year)
}

// Writes the wood of `seed`, with `stems` stems in `year`. It is refused by the number of the first test that fails, and then nothing is written.
pub fn grow(
    seed: u32,
    stems: u32,
    year: u32,
    rows: &mut [u32],
    pos: &mut [u32],
    osp: &mut [u32],
) -> TablesWritten
    ensures osp_after { record { answer = result; buffers = table_buffers rows.new pos.new osp.new }
        ≡ grow_of (grow_input seed stems year rows.old pos.old osp.old) }
    ensures number { AnswersRight grow_schema (grow_input seed stems year rows.old pos.old osp.old) result }
{
    if !asked_right(stems, year) {
        return TablesWritten::Refused(ASKED);
    }
    let count = words::wide(stems) * STEM_ROWS;
    if !has_room(count, rows.len(), pos.len(), osp.len()) {
        return TablesWritten::Refused(ROOM);
    }
    let mut spare = [0u32; HALF];
    let end = write_tables(seed, stems, year, count, rows, pos, osp, &mut spare);
    TablesWritten::Words {
        rows: end,
        pos: count,
        osp: count,
    }
}
