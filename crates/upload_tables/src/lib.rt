// The tables of an upload's kept rows.
#![tactic(auto)]

ghost use Rattle.std.specs.Prelude.{◌≡◌, ◌+◌, ◌*◌, ◌≤◌, length};
ghost use Rattle.sequences.specs.Sequences.{over};
ghost use Rattle.tables.specs.Tables.{column_count, most_rows};
ghost use Rattle.uploads.specs.Uploads.{made_tables};
ghost use Rattle.upload_writes.specs.Writing.{ReadyToWrite};

use table_lists::write_lists;
use upload_writes::write_rows;

// Writes the tables of the rows in `list` that `fates` keeps, `kept` of them; answers the words of the rows.
pub fn write_tables(
    upload: &[u32],
    list: &[u32],
    fates: &[u8],
    kept: usize,
    rows: &mut [u32],
    pos: &mut [u32],
    osp: &mut [u32],
    spare: &mut [u32],
) -> usize
    requires ready_to_write { ReadyToWrite upload.now list.now fates.now kept }
    requires column_count_in_bounds { (kept * column_count ≤ length rows.old) × (kept ≤ length pos.old) × (kept ≤ length osp.old) }
    requires most_rows_in_bounds { most_rows ≤ length spare.old + length spare.old }
    ensures value { result ≡ kept * column_count }
    ensures rows_after { rows.new ≡ over (made_tables upload.now).rows rows.old }
    ensures pos_after { pos.new ≡ over (made_tables upload.now).pos pos.old }
    ensures osp_after { osp.new ≡ over (made_tables upload.now).osp osp.old }
{
    let end = write_rows(upload, list, fates, rows);
    write_lists(rows, kept, pos, osp, spare);
    end
}
