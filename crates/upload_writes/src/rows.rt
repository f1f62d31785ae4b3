// The words of an upload's kept rows.
ghost use Rattle.std.specs.Prelude.{◌≡◌, true, ◌≤◌, length};
ghost use Rattle.sequences.specs.Sequences.{all, over};
ghost use Rattle.tables.specs.RowLists.{in_rows};
ghost use Rattle.uploads.specs.Uploads.{upload_count};
ghost use Rattle.upload_writes.specs.Writing.{kept_words};

use tables::{COLUMNS, Order, RowNumber, fields};
use uploads::KEPT;
use words::copy_in;

// Writes to `rows` the rows in `list` that are kept; answers their words.
pub fn write_rows(upload: &[u32], list: &[u32], fates: &[u8], rows: &mut [u32]) -> usize
    requires list_value { all (in_rows upload.now) list.now ≡ true }
    requires upload_in_bounds { upload_count upload.now ≤ length fates.now }
    requires list_in_bounds { length (kept_words upload.now fates.now list.now) ≤ length rows.old }
    ensures value { result ≡ length (kept_words upload.now fates.now list.now) }
    ensures rows_after { rows.new ≡ over (kept_words upload.now fates.now list.now) rows.old }
{
    let mut used: usize = 0;
    for row in list {
        if fates[words::wide(*row)] == KEPT {
            let words = fields(upload, Order::Spo, RowNumber(*row));
            copy_in(rows, used, &words);
            used += COLUMNS;
        }
    }
    used
}
