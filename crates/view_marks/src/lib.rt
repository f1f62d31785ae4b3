// Which rows an adviser sees: each row marked with its number in the view, or as hidden. Subjects ascend in a year, so the grant is searched on from where
// the one before was.
#![tactic(auto)]

ghost use Rattle.std.specs.Prelude.{◌≡◌, true, cond, ◌||◌, ◌+◌, ◌-◌, ◌*◌, ◌/◌, ◌≤◌, ◌<◌, eqb, ltb, length};
ghost use Rattle.sequences.specs.Sequences.{neighbours, over};
ghost use Rattle.tables.specs.Tables.{column_count, most_rows, year_column, subject_column, field_of};
ghost use Rattle.tables.specs.RowLists.{RowsRight};
ghost use Rattle.views.specs.Views.{is_of};
ghost use Rattle.views.specs.Renumbered.{passed_before};
ghost use Rattle.view_grants.specs.Places.{first_from};
ghost use Rattle.view_marks.specs.Marks.{mark_by, marks_of};
ghost use Rattle.view_marks.specs.Told.{some_told, seen_by, FirstOfSubject};

use tables::{COLUMNS, MOST_ROWS, RowNumber, SUBJECT, YEAR, field};
use view_grants::seek;
use view_members::ADMITS;

// The mark of a hidden row: no row has this number.
pub const HIDDEN: u32 = MOST_ROWS as u32;

// Whether a row is visible, and how far the grant was walked for it: no Option, since it was walked for a hidden row too.
#[derive(Clone, Copy)]
pub struct Seeing {
    pub seen: bool,
    pub from: usize,
}

// Whether a subject is `seen` already, or `flag` admits it.
fn either(seen: bool, flag: u8) -> bool
    ensures { result ≡ (seen || eqb flag 1) }
{
    seen | (flag == ADMITS)
}

// Whether `row` is of `subject` in `year`.
fn is_of(rows: &[u32], row: u32, year: u32, subject: u32) -> bool
    requires { row * column_count + column_count ≤ length rows.now }
    ensures { result ≡ is_of rows.now year subject row }
{
    if field(rows, RowNumber(row), SUBJECT) != subject {
        return false;
    }
    field(rows, RowNumber(row), YEAR) == year
}

// Whether the subject of `row`, `granted` or not, is seen: its rows of the year, from `row` on, which is the first, are looked at for a flag.
fn subject_seen(rows: &[u32], flags: &[u8], row: u32, granted: bool) -> bool
    requires rows_right { RowsRight rows.now }
    requires first_of_subject { FirstOfSubject rows.now row }
    requires column_count_in_bounds { length rows.now / column_count ≤ length flags.now }
    ensures { result ≡ (granted || some_told rows.now flags.now (field_of rows.now row year_column)
        (field_of rows.now row subject_column)) }
{
    let year = field(rows, RowNumber(row), YEAR);
    let subject = field(rows, RowNumber(row), SUBJECT);
    let count = (rows.len() / COLUMNS) as u32;
    let mut seen = granted;
    for next in row..count {
        if !is_of(rows, next, year, subject) {
            return seen;
        }
        seen = either(seen, flags[words::wide(next)]);
    }
    seen
}

// Whether `row`, the first of a subject in a year, is visible; the subject is looked for in `grant` from `from` on.
fn first_seen(rows: &[u32], grant: &[u32], flags: &[u8], row: u32, from: usize) -> Seeing
    requires rows_right { RowsRight rows.now }
    requires grant_value { neighbours ltb grant.now ≡ true }
    requires first_of_subject { FirstOfSubject rows.now row }
    requires column_count_in_bounds { length rows.now / column_count ≤ length flags.now }
    requires from_bound { from ≤ first_from grant.now (field_of rows.now row subject_column) }
    ensures { (result.seen ≡ seen_by rows.now grant.now flags.now row)
        × (result.from ≤ first_from grant.now (field_of rows.now row subject_column)) }
{
    let sought = seek(grant, from, field(rows, RowNumber(row), SUBJECT));
    Seeing {
        seen: subject_seen(rows, flags, row, sought.found),
        from: sought.at,
    }
}

// Whether `row` is visible, where `before` says it of the row before it.
fn next_seen(rows: &[u32], grant: &[u32], flags: &[u8], row: u32, before: Seeing) -> Seeing
    requires rows_right { RowsRight rows.now }
    requires grant_value { neighbours ltb grant.now ≡ true }
    requires row_in_bounds { (row < length rows.now / column_count) × (length rows.now / column_count ≤ length flags.now) }
    requires from_bound { 0 < row → field_of rows.now (row - 1) year_column ≡ field_of rows.now row year_column
        → before.from ≤ first_from grant.now (field_of rows.now row subject_column) }
    requires seen_value { 0 < row → before.seen ≡ seen_by rows.now grant.now flags.now (row - 1) }
    ensures { (result.seen ≡ seen_by rows.now grant.now flags.now row)
        × (result.from ≤ first_from grant.now (field_of rows.now row subject_column)) }
{
    let from = before.from;
    if row == 0 {
        return first_seen(rows, grant, flags, row, 0);
    }
    let year = field(rows, RowNumber(row - 1), YEAR);
    if year != field(rows, RowNumber(row), YEAR) {
        return first_seen(rows, grant, flags, row, 0);
    }
    let earlier = field(rows, RowNumber(row - 1), SUBJECT);
    if earlier == field(rows, RowNumber(row), SUBJECT) {
        return before;
    }
    first_seen(rows, grant, flags, row, from)
}

// The mark of a row that is `seen` or not, where `number` rows before it are visible.
fn mark_by(seen: bool, number: u32) -> u32
    ensures { result ≡ mark_by seen number }
{
    if seen { number } else { HIDDEN }
}

// How many rows are visible with one more, `seen` or not, where `number` before it are.
fn one_more(seen: bool, number: u32) -> u32
    requires { number ≤ most_rows }
    ensures { result ≡ cond seen (number + 1) number }
{
    number + seen as u32
}

// Marks each row in `marks`, and tells how many are visible.
pub fn mark(rows: &[u32], grant: &[u32], flags: &[u8], marks: &mut [u32]) -> usize
    requires rows_right { RowsRight rows.now }
    requires grant_value { neighbours ltb grant.now ≡ true }
    requires column_count_in_bounds { (length rows.now / column_count ≤ length flags.now) × (length rows.now / column_count ≤ length marks.old) }
    ensures value { result
        ≡ passed_before (seen_by rows.now grant.now flags.now) (length rows.now / column_count) }
    ensures marks_after { marks.new
        ≡ over (marks_of (seen_by rows.now grant.now flags.now) (length rows.now / column_count))
        marks.old }
{
    let count = (rows.len() / COLUMNS) as u32;
    let mut number: u32 = 0;
    let mut before = Seeing {
        seen: false,
        from: 0,
    };
    for row in 0..count {
        let this = next_seen(rows, grant, flags, row, before);
        let seen = this.seen;
        marks[words::wide(row)] = mark_by(seen, number);
        number = one_more(seen, number);
        before = this;
    }
    words::wide(number)
}
