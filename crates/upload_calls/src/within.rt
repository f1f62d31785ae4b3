// Making tables with lent places to work in: the room is tested before the first word is written.
ghost use Rattle.std.specs.Prelude.{◌≡◌, true, ◌+◌, ◌≤◌, length};
ghost use Rattle.tables.specs.Tables.{most_rows};
ghost use Rattle.uploads.specs.Making.{make_input, make_buffers, upload_right, make_of};

use crate::ROOM;
use tables::COLUMNS;
use upload_fates::judge;
use upload_rooms::has_room;
use upload_tables::write_tables;
use upload_writes::{count_kept, write_report};
use uploads::Made;

// Makes the tables of `upload`, whole rows that are not too many.
pub fn make_within(
    upload: &[u32],
    rows: &mut [u32],
    pos: &mut [u32],
    osp: &mut [u32],
    report: &mut [u32],
    list: &mut [u32],
    spare: &mut [u32],
    fates: &mut [u8],
) -> Made
    requires upload_value { upload_right upload.now ≡ true }
    requires list_len { (length list.old ≡ most_rows) × (length fates.old ≡ most_rows) × (most_rows ≤ length spare.old + length spare.old) }
    ensures { record { answer = result; buffers = make_buffers rows.new pos.new osp.new report.new }
        ≡ make_of (make_input upload.now rows.old pos.old osp.old report.old) }
{
    let count = upload.len() / COLUMNS;
    let right = judge(upload, list, spare, fates);
    let kept = count_kept(fates, count);
    if !has_room(
        kept,
        count - kept,
        rows.len(),
        pos.len(),
        osp.len(),
        report.len(),
    ) {
        return Made::Refused(ROOM);
    }
    let end = write_tables(upload, &list[..right], fates, kept, rows, pos, osp, spare);
    let told = write_report(fates, count, report);
    Made::Words {
        rows: end,
        pos: kept,
        osp: kept,
        report: told,
    }
}
