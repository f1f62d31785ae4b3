// The check of lent tables: tests 1, 2, 23, 3 and 4, in this order.
#![tactic(auto)]

ghost use Rattle.std.specs.Prelude.{◌≡◌, true, [], ◌-◌, ◌*◌, ◌%◌, ◌<◌, eqb, length};
ghost use Rattle.words.specs.Tests.{first_failing, number_of};
ghost use Rattle.tables.specs.Tables.{tables_of, column_count, row_count, field_of, year_column, lengths_right, table_tests};
ghost use Rattle.tables.specs.Right.{Sized};
ghost use Rattle.table_walk_keys.specs.Walk.{order_count};
ghost use Rattle.table_tests.specs.Refusals.{rows_refusal, refusal_after, refusal_with};
ghost use Rattle.table_tests.specs.Ends.{bounds_fine, ends_fine, LastNamed, Passing};

use table_walks::walk;
use tables::{
    COLUMNS, MOST_ROWS, OBJECT, Order, PREDICATE, Place, SUBJECT, YEAR, field, number_at, own_row,
    row_right, year_right,
};
use words::{MOST_YEAR, Term, VALUES};

// The numbers of the tests on tables.
const WRONG_LENGTHS: u32 = 1;

const WRONG_KINDS: u32 = 2;

const WRONG_YEARS: u32 = 23;

const WRONG_ROWS: u32 = 3;

const WRONG_LISTS: u32 = 4;

// What the calls answer where no test fails: so it is no Option here.
const ACCEPTED: u32 = 0;

// How many orders there are.
const ALL_ORDERS: u32 = 3;

// Whether the words `year`, `subject`, `predicate` and `object` are right in their columns.
fn bounds_right(year: u32, subject: u32, predicate: u32, object: u32) -> bool
    ensures { result ≡ bounds_fine year subject predicate object }
{
    (Term::NUMBER * VALUES + 1..=Term::NUMBER * VALUES + MOST_YEAR).contains(&year)
        && subject < VALUES
        && predicate < VALUES
        && object < Term::VARIABLE * VALUES
}

// Whether the lengths of lent tables fit each other and are not too great.
fn lengths_right(rows: &[u32], pos: &[u32], osp: &[u32]) -> bool
    ensures { result ≡ lengths_right (tables_of rows.now pos.now osp.now) }
{
    let count = rows.len() / COLUMNS;
    rows.len() % COLUMNS == 0 && pos.len() == count && osp.len() == count && count <= MOST_ROWS
}

// The number of the test of kinds and years that whole rows fail, 0 where they pass: the kinds of all rows come before any year. It is
// asked where something is wrong with the rows.
fn rows_refusal(rows: &[u32]) -> u32
    requires { length rows.now % column_count ≡ 0 }
    ensures { result ≡ rows_refusal (tables_of rows.now [] []) }
{
    let mut kinds = true;
    let mut years = true;
    for row in 0..rows.len() / COLUMNS {
        let at = row * COLUMNS;
        kinds &= row_right(rows, at);
        years &= year_right(rows[at + YEAR]);
    }
    if !kinds {
        return WRONG_KINDS;
    }
    if !years {
        return WRONG_YEARS;
    }
    ACCEPTED
}

// The number of the test that fails where the walk ends after `orders` right orders, 0 where it found all right.
fn refusal_after(orders: u32) -> u32
    ensures { result ≡ refusal_after orders }
{
    match orders {
        0 => WRONG_ROWS,
        1 => WRONG_LISTS,
        2 => WRONG_LISTS,
        _ => ACCEPTED,
    }
}

// Whether the year of the last row and the greatest subject, predicate and object are right: where all orders are, these stand last in the rows,
// in POS and in OSP.
fn ends_right(rows: &[u32], pos: &[u32], osp: &[u32]) -> bool
    requires sized { Sized (tables_of rows.now pos.now osp.now) }
    requires nonzero { 0 < row_count (tables_of rows.now pos.now osp.now) }
    requires last_named { LastNamed (tables_of rows.now pos.now osp.now) }
    ensures { result ≡ ends_fine (tables_of rows.now pos.now osp.now) }
{
    let last = Place(pos.len() as u32 - 1);
    let own = own_row(last);
    let by_predicate = number_at(rows, pos, osp, Order::Pos, last);
    let by_object = number_at(rows, pos, osp, Order::Osp, last);
    let year = field(rows, own, YEAR);
    let subject = field(rows, own, SUBJECT);
    let predicate = field(rows, by_predicate, PREDICATE);
    let object = field(rows, by_object, OBJECT);
    bounds_right(year, subject, predicate, object)
}

// Whether tables with `orders` right orders pass by what stands last in them. Only where there is one year: else no is said, which says nothing.
fn passes(rows: &[u32], pos: &[u32], osp: &[u32], alike: bool, orders: u32) -> bool
    requires sized { Sized (tables_of rows.now pos.now osp.now) }
    requires nonzero { 0 < row_count (tables_of rows.now pos.now osp.now) }
    requires last_named { orders ≡ order_count → LastNamed (tables_of rows.now pos.now osp.now) }
    ensures { result ≡ true → Passing alike orders (tables_of rows.now pos.now osp.now) }
{
    alike && orders == ALL_ORDERS && ends_right(rows, pos, osp)
}

// The number of the test that fails first where `orders` orders are right: kinds and years are looked at by themselves, and come before.
fn first_refusal(rows: &[u32], orders: u32) -> u32
    requires { length rows.now % column_count ≡ 0 }
    ensures { result ≡ refusal_with (rows_refusal (tables_of rows.now [] [])) orders }
{
    let refusal = rows_refusal(rows);
    if refusal != ACCEPTED {
        return refusal;
    }
    refusal_after(orders)
}

// Whether the first and the last of `count` rows have one year: then all that ascend do.
fn years_alike(rows: &[u32], count: u32) -> bool
    requires column_count_value { count * column_count ≡ length rows.now }
    requires count_nonzero { 0 < count }
    ensures { result ≡ eqb (field_of rows.now 0 year_column) (field_of rows.now (count - 1) year_column) }
{
    let first = field(rows, own_row(Place(0)), YEAR);
    let last = field(rows, own_row(Place(count - 1)), YEAR);
    first == last
}

// The number of the first test that lent tables fail, 0 where they pass all.
pub fn check(rows: &[u32], pos: &[u32], osp: &[u32]) -> u32
    ensures { result ≡ number_of (first_failing (table_tests (tables_of rows.now pos.now osp.now))) }
{
    if !lengths_right(rows, pos, osp) {
        return WRONG_LENGTHS;
    }
    if pos.len() == 0 {
        return ACCEPTED;
    }
    let count = pos.len() as u32;
    let alike = years_alike(rows, count);
    let orders = walk(rows, pos, osp, alike);
    if passes(rows, pos, osp, alike, orders) {
        return ACCEPTED;
    }
    first_refusal(rows, orders)
}
