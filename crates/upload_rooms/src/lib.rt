// Test 16: whether there is room for the tables of an upload and for the report.
#![tactic(auto)]

ghost use Rattle.std.specs.Prelude.{◌≡◌, ◌≤◌};
ghost use Rattle.tables.specs.Tables.{most_rows};
ghost use Rattle.upload_rooms.specs.Rooms.{make_room_for};

use uploads::ENTRY_WORDS;

// Whether buffers of these lengths have room for `kept` rows, for both lists and for the report on `dropped` rows.
pub fn has_room(
    kept: usize,
    dropped: usize,
    rows: usize,
    pos: usize,
    osp: usize,
    report: usize,
) -> bool
    requires { (kept ≤ most_rows) × (dropped ≤ most_rows) }
    ensures { result ≡ make_room_for kept dropped rows pos osp report }
{
    table_answers::has_room(kept, rows, pos, osp) && dropped * ENTRY_WORDS <= report
}
