// The turn printer's lines, and the code that writes each at the front of a line that is lent.
#![tactic(auto)]

mod groups;

ghost use Rattle.std.specs.Prelude.{◌++◌, ◌+◌, ◌≤◌, length};
ghost use Rattle.plans.specs.Endings.{most_row_variables};
ghost use Rattle.lists.specs.Putting.{Listed};
ghost use Rattle.print_texts.specs.Texts.{number_field};
ghost use Rattle.print_lines.specs.Lines.{row_line, list_line, refused_line, served_line, turn_line, row_line_room, turn_line_room};
ghost use Rattle.print_texts.specs.Placing.{PlacedText};

pub use groups::group_line;
use print_terms::{put_numbers, put_terms};
use print_texts::{put_byte, put_bytes, put_number};
use turns::TurnEnding;

// Writes the line of `row`, and answers its length.
pub fn row_line(line: &mut [u8], row: &[u32]) -> usize
    requires { (length row.now ≤ most_row_variables) × (row_line_room ≤ length line.old) }
    ensures line { Listed (row_line row.now) line.old line.new result }
    ensures room { result ≤ row_line_room }
{
    let next = put_bytes(line, 0, b"row");
    let end = put_terms(line, next, row);
    put_byte(line, end, b'\n')
}

// The line of `list`, which is neither of rows nor of groups.
pub fn list_line(line: &mut [u8], list: &[u32]) -> usize
    requires { length (list_line list.now) ≤ length line.old }
    ensures { Listed (list_line list.now) line.old line.new result }
{
    let next = put_bytes(line, 0, b"list");
    let end = put_numbers(line, next, list);
    put_byte(line, end, b'\n')
}

// The line of a refusal by `number`.
pub fn refused_line(line: &mut [u8], number: u32) -> usize
    requires { turn_line_room ≤ length line.old }
    ensures line { Listed (refused_line number) line.old line.new result }
    ensures room { result ≤ turn_line_room }
{
    let next = put_bytes(line, 0, b"refused");
    let end = put_number(line, next, list_longs::long(number));
    put_byte(line, end, b'\n')
}

// Puts the word `name` and the number `x` behind it.
fn put_named(line: &mut [u8], at: usize, name: &[u8], x: u64) -> usize
    requires { at + (length name.now + length (number_field x)) ≤ length line.old }
    ensures { PlacedText (name.now ++ number_field x) at line.old line.new result }
{
    let next = put_bytes(line, at, name);
    put_number(line, next, x)
}

// The line of a served turn with its `number` and `steps`; `ending` is a word with the end of the line.
fn served_line(line: &mut [u8], number: u64, steps: u32, ending: &[u8]) -> usize
    requires { (length ending.now ≤ 7) × (turn_line_room ≤ length line.old) }
    ensures line { Listed (served_line number steps ending.now) line.old line.new result }
    ensures room { result ≤ turn_line_room }
{
    let after_number = put_named(line, 0, b"turn", number);
    let after_steps = put_named(line, after_number, b" steps", list_longs::long(steps));
    put_bytes(line, after_steps, ending)
}

// The line of a turn with its `number` and `steps`, by its `ending`.
pub fn turn_line(line: &mut [u8], number: u64, steps: u32, ending: TurnEnding) -> usize
    requires { turn_line_room ≤ length line.old }
    ensures line { Listed (turn_line number steps ending) line.old line.new result }
    ensures room { result ≤ turn_line_room }
{
    match ending {
        TurnEnding::Done => served_line(line, number, steps, b" done\n"),
        TurnEnding::Spent => served_line(line, number, steps, b" spent\n"),
        TurnEnding::Full => served_line(line, number, steps, b" full\n"),
        TurnEnding::Refused(x) => refused_line(line, x),
    }
}
