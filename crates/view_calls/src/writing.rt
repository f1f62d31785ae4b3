// What an adviser sees, written by the marks of rows: the rows that are not hidden, and a list of their new numbers.
ghost use Rattle.std.specs.Prelude.{◌≡◌, true, cond, ◌+◌, ◌*◌, ◌/◌, ◌≤◌, ltb, length};
ghost use Rattle.std.proofs.Math.Seq.{paste};
ghost use Rattle.sequences.specs.Sequences.{all, over};
ghost use Rattle.tables.specs.Tables.{column_count, most_rows, fields_of};
ghost use Rattle.tables.specs.declared.Order.TheVariants.{Spo};
ghost use Rattle.views.specs.Renumbered.{passed_before};
ghost use Rattle.view_marks.specs.Marks.{hidden_mark};
ghost use Rattle.view_calls.specs.Writing.{shown_by, shown_words, shown_numbers};

use tables::{COLUMNS, Order, RowNumber, fields};
use view_marks::HIDDEN;
use words::copy_in;

// How many are written with one row more, marked `mark`, where `used` are before it.
fn one_more(mark: u32, used: usize) -> usize
    requires { used ≤ most_rows }
    ensures { result ≡ cond (ltb mark hidden_mark) (used + 1) used }
{
    if mark < HIDDEN { used + 1 } else { used }
}

// The words of `row`, read from a part that is theirs: where indices are tested, one test does for all.
fn row_words(rows: &[u32], row: u32) -> [u32; COLUMNS]
    requires { row * column_count + column_count ≤ length rows.now }
    ensures { result ≡ fields_of Spo rows.now row }
{
    let from = words::wide(row) * COLUMNS;
    let end = from + COLUMNS;
    fields(&rows[from..end], Order::Spo, RowNumber(0))
}

// Puts a row's `words` at `at`. They are copied to a part as long as they are: where indices are tested, one test does for all.
fn put_row(view: &mut [u32], at: usize, words: &[u32])
    requires { at + length words.now ≤ length view.old }
    ensures { view.new ≡ paste view.old at words.now (length words.now) }
{
    let end = at + words.len();
    copy_in(&mut view[at..end], 0, words);
}

// Writes the rows that are not marked as hidden, `seen` of them. A hidden row is written too where the next one belongs, and then written
// over: so no branch of the loop depends on what is hidden. No range: it ends when all that are seen are written.
pub fn write_rows(rows: &[u32], marks: &[u32], seen: usize, view: &mut [u32])
    requires column_count_len_bound { (length rows.now / column_count ≤ most_rows) × (length rows.now / column_count ≤ length marks.now) }
    requires seen_value { (seen ≡ passed_before (shown_by marks.now) (length rows.now / column_count)) × (seen * column_count ≤ length view.old) }
    ensures { view.new ≡ over (shown_words rows.now marks.now) view.old }
{
    let mut used: usize = 0;
    let mut row: u32 = 0;
    while used < seen {
        let mark = marks[words::wide(row)];
        let words = row_words(rows, row);
        put_row(view, used * COLUMNS, &words);
        used = one_more(mark, used);
        row += 1;
    }
}

// Writes the new numbers of the rows in `list` that are not marked as hidden, `seen` of them, in the same way.
pub fn write_numbers(list: &[u32], marks: &[u32], seen: usize, view: &mut [u32])
    requires list_value { all (λ row. ltb row (length marks.now)) list.now ≡ true }
    requires seen_value { (seen ≡ length (shown_numbers marks.now list.now)) × (seen ≤ length view.old) × (seen ≤ most_rows) }
    ensures { view.new ≡ over (shown_numbers marks.now list.now) view.old }
{
    let mut used: usize = 0;
    let mut place: usize = 0;
    while used < seen {
        let row = list[place];
        let mark = marks[words::wide(row)];
        view[used] = mark;
        used = one_more(mark, used);
        place += 1;
    }
}
