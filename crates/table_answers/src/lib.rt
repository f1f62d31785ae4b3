// Calls that write tables, the rows and both lists, to three lent buffers: what they answer and leave, whether there is room, that such a call is right.
// `view` and `grow` are such calls.
#![tactic(auto)]

ghost use Rattle.std.specs.Prelude.{◌≡◌, ◌≤◌};
ghost use Rattle.tables.specs.Tables.{most_rows};
ghost use Rattle.table_answers.specs.Counts.{tables_room_for};

use tables::COLUMNS;

// What writing tables answers: the words written to each buffer, or the number of the test that refused it.
#[derive(Clone, Copy)]
pub enum TablesWritten {
    Words { rows: usize, pos: usize, osp: usize },
    Refused(u32),
}

// Whether buffers of these lengths have room for `count` rows and for both lists of them.
pub fn has_room(count: usize, rows: usize, pos: usize, osp: usize) -> bool
    requires { count ≤ most_rows }
    ensures { result ≡ tables_room_for count rows pos osp }
{
    count * COLUMNS <= rows && count <= pos && count <= osp
}
