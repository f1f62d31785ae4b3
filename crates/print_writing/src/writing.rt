// Lines handed to the writer. No clause can speak of what is written, so that each function requires of its line what can be said before: that
// its bytes are those of what it tells, and that this is the file's.
ghost use Rattle.std.specs.Prelude.{◌≤◌, length};
ghost use Rattle.lists.specs.Groups.{group_in};
ghost use Rattle.print_lines.specs.Lines.{turn_line, refused_line, row_line, group_line, list_line};
ghost use Rattle.print_writing.specs.Shown.{TurnShown, RefusedBy, IsLine};

use std::io::ErrorKind;
use turns::Turned;

// Writes the first `n` bytes of `line`; that they could not be written is said on standard error, but for a pipe that nobody reads any more, where
// nothing is to be said.
fn write_first(rt: &(impl Print + Eprint), line: &[u8], n: usize)
    requires { n ≤ length line.now }
{
    let text = &line[..n];
    if let Err(error) = rt.write_all(text) {
        if error.kind() != ErrorKind::BrokenPipe {
            let _ = eprintln!(rt; "standard output: {error}");
        }
    }
}

// The line of a turn: of its number, its steps and its ending, and they are those of turn number `number` of the uncut run.
pub fn write_turn(
    rt: &(impl Print + Eprint),
    bytes: &[u8],
    number: u64,
    turned: Turned,
    list: &[u32],
    line: &[u8],
    n: usize,
)
    requires turn_shown { TurnShown bytes.now number turned list.now }
    requires line { IsLine (turn_line number turned.steps turned.ending) line.now n }
{
    write_first(rt, line, n);
}

// The line of a refusal: of `number`, by which the file is refused.
pub fn write_refused(rt: &(impl Print + Eprint), bytes: &[u8], number: u32, line: &[u8], n: usize)
    requires refused_by { RefusedBy bytes.now number }
    requires line { IsLine (refused_line number) line.now n }
{
    write_first(rt, line, n);
}

// The line of `row`.
pub fn write_row(rt: &(impl Print + Eprint), row: &[u32], line: &[u8], n: usize)
    requires { IsLine (row_line row.now) line.now n }
{
    write_first(rt, line, n);
}

// The line of `group`, a record of `keys` keys.
pub fn write_group(rt: &(impl Print + Eprint), keys: usize, group: &[u32], line: &[u8], n: usize)
    requires { IsLine (group_line (group_in keys group.now)) line.now n }
{
    write_first(rt, line, n);
}

// The line of any other list.
pub fn write_list(rt: &(impl Print + Eprint), list: &[u32], line: &[u8], n: usize)
    requires { IsLine (list_line list.now) line.now n }
{
    write_first(rt, line, n);
}
