// Which of the years that a plan reads a year is, and how many there are.
ghost use Rattle.std.specs.Prelude.{◌≡◌, ◌&&◌, [], ◌/◌, ◌<◌, ◌≤◌, ltb, length};
ghost use Rattle.tables.specs.Tables.{tables_of, column_count, most_rows};
ghost use Rattle.tables.specs.Years.{year_at};
ghost use Rattle.reach.specs.Reach.{begins_year, or_one, years_before, year_count, year_number};

use plans::Years;
use tables::{COLUMNS, YEAR};
use words::Term;

// No year reaches it.
pub const BEHIND_ALL: u32 = 0x4000_0000;

// The year of `row`.
fn year_at(rows: &[u32], row: usize) -> u32
    requires { row < length rows.now / column_count }
    ensures { result ≡ year_at (tables_of rows.now [] []) row }
{
    Term(rows[row * COLUMNS + YEAR]).value()
}

// Whether `row` begins its year.
fn begins_year(rows: &[u32], row: usize) -> bool
    requires { row < length rows.now / column_count }
    ensures { result ≡ begins_year (tables_of rows.now [] []) row }
{
    row == 0 || year_at(rows, row) != year_at(rows, row - 1)
}

// Whether `row` begins a year before `year`.
fn begins_before(rows: &[u32], row: usize, year: u32) -> bool
    requires { row < length rows.now / column_count }
    ensures { result ≡ begins_year (tables_of rows.now [] []) row && ltb (year_at (tables_of rows.now [] []) row) year }
{
    begins_year(rows, row) && year_at(rows, row) < year
}

// How many years of rows come before `year`.
fn years_before(rows: &[u32], year: u32) -> u32
    requires { length rows.now / column_count ≤ most_rows }
    ensures { result ≡ years_before (tables_of rows.now [] []) year }
{
    let count = rows.len() / COLUMNS;
    let mut begun: u32 = 0;
    for row in 0..count {
        if begins_before(rows, row, year) {
            begun += 1;
        }
    }
    begun
}

// `n`, or 1 where it is 0.
fn or_one(n: u32) -> u32
    ensures { result ≡ or_one n }
{
    n.max(1)
}

// How many years of `years` are read.
pub fn year_count(rows: &[u32], years: Years) -> u32
    requires { length rows.now / column_count ≤ most_rows }
    ensures { result ≡ year_count (tables_of rows.now [] []) years }
{
    match years {
        Years::Every => or_one(years_before(rows, BEHIND_ALL)),
        Years::Latest | Years::Named(_) => 1,
    }
}

// Which of them `year` is, from 0.
pub fn year_number(rows: &[u32], years: Years, year: u32) -> u32
    requires { length rows.now / column_count ≤ most_rows }
    ensures { result ≡ year_number (tables_of rows.now [] []) years year }
{
    match years {
        Years::Every => years_before(rows, year),
        Years::Latest | Years::Named(_) => 0,
    }
}
