// The fates of an upload's rows, wrong kinds and then repeats, and the list of those of right kinds in the rows' own order.
#![tactic(auto)]

ghost use Rattle.std.specs.Prelude.{◌≡◌, true, ◌+◌, ◌*◌, ◌≤◌, length};
ghost use Rattle.sequences.specs.Sequences.{all};
ghost use Rattle.tables.specs.Tables.{column_count};
ghost use Rattle.tables.specs.RowLists.{in_rows};
ghost use Rattle.uploads.specs.Uploads.{upload_count, kinds_good};
ghost use Rattle.upload_fates.specs.Judging.{Fits, good_numbers, NumbersListed, Marked, marked, right_numbers, Judged};

use table_row_orders::comes_before;
use table_sorts::sort;
use tables::{COLUMNS, Order, RowNumber, YEAR, row_right, year_right};
use uploads::{KEPT, REPEAT, WRONG};

// Whether row number `row` of `upload` has right kinds, and a year that is one.
fn kinds_good(upload: &[u32], row: usize) -> bool
    requires { row * column_count + column_count ≤ length upload.now }
    ensures { result ≡ kinds_good upload.now row }
{
    let at = row * COLUMNS;
    row_right(upload, at) && year_right(upload[at + YEAR])
}

// Marks each row in `fates` as kept or of a wrong kind, and lists the numbers of those of right kinds in `list`; answers how many these are.
fn mark_kinds(upload: &[u32], list: &mut [u32], fates: &mut [u8]) -> usize
    requires { Fits upload.now (length list.old) (length fates.old) }
    ensures listed { NumbersListed result list.new (good_numbers upload.now (upload_count upload.now)) }
    ensures judged { Marked upload.now fates.new (upload_count upload.now) }
{
    let count = upload.len() / COLUMNS;
    let mut right: usize = 0;
    for row in 0..count {
        if kinds_good(upload, row) {
            fates[row] = KEPT;
            list[right] = row as u32;
            right += 1;
        } else {
            fates[row] = WRONG;
        }
    }
    right
}

// Marks in `fates` the repeats in `list`, the sorted rows of right kinds: each row that its neighbour does not come before.
fn mark_repeats(upload: &[u32], list: &[u32], fates: &mut [u8])
    requires list_value { all (in_rows upload.now) list.now ≡ true }
    requires upload_in_bounds { upload_count upload.now ≤ length fates.old }
    ensures { fates.new ≡ marked upload.now list.now fates.old (length list.now) }
{
    for place in 1..list.len() {
        let row = list[place];
        if !comes_before(
            upload,
            Order::Spo,
            RowNumber(list[place - 1]),
            RowNumber(row),
        ) {
            fates[words::wide(row)] = REPEAT;
        }
    }
}

// Writes the fate of each row to `fates`, and to `list` the numbers of the rows of right kinds, in the rows' own order; answers how many these are.
pub fn judge(upload: &[u32], list: &mut [u32], spare: &mut [u32], fates: &mut [u8]) -> usize
    requires fits { Fits upload.now (length list.old) (length fates.old) }
    requires list_in_bounds { length list.old ≤ length spare.old + length spare.old }
    ensures listed { NumbersListed result list.new (right_numbers upload.now) }
    ensures judged { Judged upload.now fates.new }
{
    let right = mark_kinds(upload, list, fates);
    sort(upload, Order::Spo, &mut list[..right], spare);
    mark_repeats(upload, &list[..right], fates);
    right
}
