// The walk over the three orders of lent tables, their places and columns, for tests 3 and 4.
#![tactic(auto)]

ghost use Rattle.std.specs.Prelude.{◌≡◌, ◌<◌, if◌then◌else◌, nat_le, nat_lt};
ghost use Rattle.tables.specs.Tables.{tables_of, row_count};
ghost use Rattle.tables.specs.Right.{Sized};
ghost use Rattle.table_walk_keys.specs.Walk.{order_at, right_orders};

use std::num::wrapping_add_u64;
use table_readings::read;
use table_walk_keys::{KEYS, key_at};
use tables::{COLUMNS, Order, Place};

// How many orders there are.
const ORDERS: u32 = 3;

// The order that the walk takes in its turn number `turn`.
fn order_at(turn: u32) -> Order
    ensures { result ≡ order_at turn }
{
    match turn {
        0 => Order::Spo,
        1 => Order::Pos,
        _ => Order::Osp,
    }
}

// Whether a row comes before another from a column on: by their keys there, `earlier` and `later`, or where these are the same by the columns behind it,
// as `after` says. One sum and one comparison, and no branch; a sum that is too great is less than `later`, and nothing is greater than that.
fn before_from(earlier: u64, later: u64, after: bool) -> bool
    ensures { result ≡ (if after then nat_le earlier later else nat_lt earlier later) }
{
    let sum = wrapping_add_u64(later, u64::from(after));
    u64::from(earlier < sum) + u64::from(sum < later) > 0
}

// Walks the orders, the rows' own first: each row against the one before it, key by key from the last to the first; where all years are `alike`,
// the lists without them. The first place that names no row, or whose row does not come after the one before it, ends the walk; the answer is
// how many orders were right.
pub fn walk(rows: &[u32], pos: &[u32], osp: &[u32], alike: bool) -> u32
    requires sized { Sized (tables_of rows.now pos.now osp.now) }
    requires nonzero { 0 < row_count (tables_of rows.now pos.now osp.now) }
    ensures { result ≡ right_orders alike (tables_of rows.now pos.now osp.now) }
{
    // The tables as long as they are, but by one number of 32 bits: a compiler without the proofs sees by it that each place and each row is there.
    let short = pos.len() as u32;
    let count = short as usize;
    let end = count * COLUMNS;
    let own = &rows[..end];
    let by_predicate = &pos[..count];
    let by_object = &osp[..count];
    let mut right: u32 = 0;
    'orders: for turn in 0..ORDERS {
        let order = order_at(turn);
        let mut last = match read(own, by_predicate, by_object, order, Place(0), alike) {
            Some(keys) => keys,
            None => break 'orders,
        };
        for place in 1..short {
            let next = match read(own, by_predicate, by_object, order, Place(place), alike) {
                Some(keys) => keys,
                None => break 'orders,
            };
            let mut before = false;
            for column in (0..KEYS).rev() {
                before = before_from(key_at(last, column), key_at(next, column), before);
            }
            if !before {
                break 'orders;
            }
            last = next;
        }
        right += 1;
    }
    right
}
