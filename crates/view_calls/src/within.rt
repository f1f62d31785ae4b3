// Writing the view with lent places for marks and flags: the room is tested before the first word is written.
ghost use Rattle.std.specs.Prelude.{◌≡◌, true, length};
ghost use Rattle.tables.specs.Tables.{tables_of, most_rows};
ghost use Rattle.tables.specs.Right.{Right};
ghost use Rattle.table_answers.specs.Writing.{table_buffers};
ghost use Rattle.views.specs.Viewing.{view_input, grant_right, view_call_of};
ghost use Rattle.view_members.specs.Flags.{Unflagged};

use crate::ROOM;
use crate::writing::{write_numbers, write_rows};
use table_answers::{TablesWritten, has_room};
use tables::COLUMNS;
use view_marks::mark;
use view_members::flag_members;

// Writes the view of right tables for a right `grant`.
pub fn view_within(
    rows: &[u32],
    pos: &[u32],
    osp: &[u32],
    grant: &[u32],
    membership: u32,
    view_rows: &mut [u32],
    view_pos: &mut [u32],
    view_osp: &mut [u32],
    marks: &mut [u32],
    flags: &mut [u8],
) -> TablesWritten
    requires right { Right (tables_of rows.now pos.now osp.now) }
    requires grant_value { grant_right grant.now ≡ true }
    requires marks_len { length marks.old ≡ most_rows }
    requires unflagged { Unflagged rows.now flags.old }
    ensures { record { answer = result; buffers = table_buffers view_rows.new view_pos.new view_osp.new }
        ≡ view_call_of (view_input rows.now pos.now osp.now grant.now membership
        view_rows.old view_pos.old view_osp.old) }
{
    flag_members(rows, pos, osp, grant, membership, flags);
    let seen = mark(rows, grant, flags, marks);
    if !has_room(seen, view_rows.len(), view_pos.len(), view_osp.len()) {
        return TablesWritten::Refused(ROOM);
    }
    write_rows(rows, marks, seen, view_rows);
    write_numbers(pos, marks, seen, view_pos);
    write_numbers(osp, marks, seen, view_osp);
    TablesWritten::Words {
        rows: seen * COLUMNS,
        pos: seen,
        osp: seen,
    }
}
