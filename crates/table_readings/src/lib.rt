// What an order of lent tables has at a place: whether it names a row, and what the walk compares of that row.
#![tactic(auto)]

ghost use Rattle.std.specs.Prelude.{◌≡◌, ◌+◌, ◌*◌, ◌≤◌, ◌<◌, length};
ghost use Rattle.tables.specs.declared.Order.TheVariants.{Pos, Osp};
ghost use Rattle.tables.specs.Tables.{tables_of, column_count, row_count};
ghost use Rattle.tables.specs.Right.{Sized};
ghost use Rattle.table_walk_keys.specs.Walk.{year_read, keys_of, reading_at};

use table_walk_keys::{KEYS, first_of, long, own_keys, pair_at, second_of};
use tables::{COLUMNS, OBJECT, Order, PREDICATE, Place, RowNumber, YEAR, field, number_at};

// The year of `row`, where it is compared: where all are `alike` it is not read.
fn year_read(rows: &[u32], row: RowNumber, alike: bool) -> u32
    requires { row.0 * column_count + column_count ≤ length rows.now }
    ensures { result ≡ year_read alike rows.now row.0 }
{
    if alike { 0 } else { field(rows, row, YEAR) }
}

// What the walk compares of `row` in POS: the year and the predicate, then the object and the row's number. Predicate and object are read at once.
fn pos_keys(rows: &[u32], row: RowNumber, alike: bool) -> [u64; KEYS]
    requires { row.0 * column_count + column_count ≤ length rows.now }
    ensures { result ≡ keys_of alike Pos rows.now row.0 }
{
    let at = words::wide(row.0) * COLUMNS;
    let pair = pair_at(rows, at + PREDICATE);
    let front = long(year_read(rows, row, alike), second_of(pair));
    let back = long(first_of(pair), row.0);
    [front, back]
}

// And in OSP, no twin, since it reads other columns and fewer words: the year, as a long word that is never the greatest, then the object and the row's number.
fn osp_keys(rows: &[u32], row: RowNumber, alike: bool) -> [u64; KEYS]
    requires { row.0 * column_count + column_count ≤ length rows.now }
    ensures { result ≡ keys_of alike Osp rows.now row.0 }
{
    let front = long(0, year_read(rows, row, alike));
    let back = long(field(rows, row, OBJECT), row.0);
    [front, back]
}

// What the walk compares of `row` in `order`.
fn keys(rows: &[u32], order: Order, row: RowNumber, alike: bool) -> [u64; KEYS]
    requires { row.0 * column_count + column_count ≤ length rows.now }
    ensures { result ≡ keys_of alike order rows.now row.0 }
{
    match order {
        Order::Spo => own_keys(rows, row),
        Order::Pos => pos_keys(rows, row, alike),
        Order::Osp => osp_keys(rows, row, alike),
    }
}

// What the walk compares of the row that `order` has at `place`, where it names one; where all years are `alike`, without them.
pub fn read(
    rows: &[u32],
    pos: &[u32],
    osp: &[u32],
    order: Order,
    place: Place,
    alike: bool,
) -> Option<[u64; KEYS]>
    requires sized { Sized (tables_of rows.now pos.now osp.now) }
    requires place_bound { place.0 < row_count (tables_of rows.now pos.now osp.now) }
    ensures { result ≡ reading_at alike (tables_of rows.now pos.now osp.now) order place.0 }
{
    let row = number_at(rows, pos, osp, order, place);
    if words::wide(row.0) < pos.len() {
        Some(keys(rows, order, row, alike))
    } else {
        None
    }
}
