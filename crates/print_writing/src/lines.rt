// The printer's lines: one for a refusal, for a turn, for each row or group of a list, and for all registers.
ghost use Rattle.std.specs.Prelude.{◌≡◌, ◌≤◌, ◌%◌, length};
ghost use Rattle.plans.specs.Endings.{most_row_variables};
ghost use Rattle.registers.specs.Registers.{register_count};
ghost use Rattle.print_writing.specs.Listings.{HasWidth, IsRecord};
ghost use Rattle.print_writing.specs.Shown.{TurnShown, RefusedBy};

use crate::Listing;
use crate::writing::{write_group, write_list, write_refused, write_row, write_turn};
use plans::EndingKind;
use turns::Turned;

// All registers.
pub const REGISTERS: usize = 16;

// The words of a group's record after its keys.
pub const TOTALS_WIDTH: usize = 8;

// Prints `number`, by which a file is refused.
pub fn print_refused(rt: &(impl Print + Eprint), bytes: &[u8], number: u32)
    requires { RefusedBy bytes.now number }
{
    let mut line = [0u8; 256];
    let n = print_lines::refused_line(&mut line, number);
    write_refused(rt, bytes, number, &line, n);
}

// Prints the line of the served turn `turned`, which is turn number `number` of the uncut run.
pub fn print_turn(
    rt: &(impl Print + Eprint),
    bytes: &[u8],
    number: u64,
    turned: Turned,
    list: &[u32],
)
    requires { TurnShown bytes.now number turned list.now }
{
    let ending = turned.ending;
    let mut line = [0u8; 256];
    let n = print_lines::turn_line(&mut line, number, turned.steps, ending);
    write_turn(rt, bytes, number, turned, list, &line, n);
}

fn print_row(rt: &(impl Print + Eprint), row: &[u32])
    requires { length row.now ≤ most_row_variables }
{
    let mut line = [0u8; 256];
    let n = print_lines::row_line(&mut line, row);
    write_row(rt, row, &line, n);
}

// Prints `group`, a record; its keys are what stands before its totals.
fn print_group(rt: &(impl Print + Eprint), group: &[u32])
    requires { IsRecord (length group.now) }
{
    let keys = group.len() - TOTALS_WIDTH;
    let mut line = [0u8; 256];
    let n = print_lines::group_line(&mut line, keys, group);
    write_group(rt, keys, group, &line, n);
}

// Prints all registers, in decimal.
fn print_registers(rt: &(impl Print + Eprint), list: &[u32])
    requires { length list.now ≡ register_count }
{
    let mut line = [0u8; 256];
    let n = print_lines::list_line(&mut line, list);
    write_list(rt, list, &line, n);
}

// Prints `words`: a row or a record, or all registers. An invalid ending has none.
fn print_record(rt: &(impl Print + Eprint), kind: EndingKind, words: &[u32])
    requires { HasWidth kind (length words.now) }
{
    match kind {
        EndingKind::Rows | EndingKind::Top => print_row(rt, words),
        EndingKind::Group => print_group(rt, words),
        EndingKind::Registers => print_registers(rt, words),
        EndingKind::Invalid => {}
    }
}

// Prints the rows or records of `list`, each on its line, or its registers on one.
pub fn print_list(rt: &(impl Print + Eprint), lists: Listing, list: &[u32])
    requires has_width { HasWidth lists.kind lists.width }
    requires width_len { length list.now % lists.width ≡ 0 }
{
    for words in list.chunks_exact(lists.width) {
        print_record(rt, lists.kind, words);
    }
}
