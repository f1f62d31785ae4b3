// The call `view`: the tables that an adviser may see, the rows that are not hidden and both lists with their new numbers.
#![tactic(auto)]

mod within;
mod writing;

ghost use Rattle.std.specs.Prelude.{◌≡◌};
ghost use Rattle.calls.specs.Calls.{AnswersRight};
ghost use Rattle.table_answers.specs.Writing.{table_buffers};
ghost use Rattle.views.specs.Viewing.{view_input, view_schema, view_call_of};

use table_answers::TablesWritten;
use table_tests::check;
use tables::MOST_ROWS;
use view_grants::grant_right;
use within::view_within;

// The tests of the view call after those of the tables, by their numbers.
pub const GRANT: u32 = 20;

pub const ROOM: u32 = 21;

// Writes the tables of the rows that `grant` makes visible. It is refused by the number of the first test that fails, and then nothing is written.
pub fn view(
    rows: &[u32],
    pos: &[u32],
    osp: &[u32],
    grant: &[u32],
    membership: u32,
    view_rows: &mut [u32],
    view_pos: &mut [u32],
    view_osp: &mut [u32],
) -> TablesWritten
    ensures view_osp_after { record { answer = result; buffers = table_buffers view_rows.new view_pos.new view_osp.new }
        ≡ view_call_of (view_input rows.now pos.now osp.now grant.now membership
        view_rows.old view_pos.old view_osp.old) }
    ensures number { AnswersRight view_schema (view_input rows.now pos.now osp.now grant.now membership
        view_rows.old view_pos.old view_osp.old) result }
{
    let refused = check(rows, pos, osp);
    if refused != 0 {
        return TablesWritten::Refused(refused);
    }
    if !grant_right(grant) {
        return TablesWritten::Refused(GRANT);
    }
    let mut marks = [0u32; MOST_ROWS];
    let mut flags = [0u8; MOST_ROWS];
    view_within(
        rows, pos, osp, grant, membership, view_rows, view_pos, view_osp, &mut marks, &mut flags,
    )
}
