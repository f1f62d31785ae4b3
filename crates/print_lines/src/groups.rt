// A group's line of the turn printer in code, at the front of a line that is lent.
ghost use Rattle.std.specs.Prelude.{◌+◌, ◌≤◌, length};
ghost use Rattle.plans.specs.Endings.{most_group_variables};
ghost use Rattle.lists.specs.Sums.{sum_in};
ghost use Rattle.lists.specs.Groups.{group_in, totals_width, pair_at};
ghost use Rattle.lists.specs.Putting.{Listed};
ghost use Rattle.print_texts.specs.Texts.{number_field, integer_field};
ghost use Rattle.print_texts.specs.Placing.{PlacedText};
ghost use Rattle.print_lines.specs.Lines.{totals_text, group_fields, group_line, group_line_room};

use print_terms::put_terms;
use print_texts::{put_byte, put_bytes, put_number, put_sum};

// Puts the total of 64 bits in the two words of `group` from `total` on, the low one first.
fn put_total(line: &mut [u8], at: usize, group: &[u32], total: usize) -> usize
    requires { (total + 2 ≤ length group.now) × (at + length (number_field (pair_at group.now total)) ≤ length line.old) }
    ensures { PlacedText (number_field (pair_at group.now total)) at line.old line.new result }
{
    put_number(line, at, list_longs::read64(group, total))
}

// Puts the signed sum in the two words of `group` from `sum` on, the low one first.
fn put_group_sum(line: &mut [u8], at: usize, group: &[u32], sum: usize) -> usize
    requires { (sum + 2 ≤ length group.now) × (at + length (integer_field (sum_in (pair_at group.now sum))) ≤ length line.old) }
    ensures { PlacedText (integer_field (sum_in (pair_at group.now sum))) at line.old line.new result }
{
    put_sum(line, at, list_longs::read64(group, sum))
}

// Puts the rows, the numbers and the sum of `group`, a record of `keys` keys.
fn put_totals(line: &mut [u8], at: usize, keys: usize, group: &[u32]) -> usize
    requires { (keys + totals_width ≤ length group.now) × (at + length (totals_text keys group.now) ≤ length line.old) }
    ensures { PlacedText (totals_text keys group.now) at line.old line.new result }
{
    let after_rows = put_total(line, at, group, keys);
    let after_numbers = put_total(line, after_rows, group, keys + 2);
    put_group_sum(line, after_numbers, group, keys + 4)
}

// Puts the fields of `group`, a record of `keys` keys.
fn put_fields(line: &mut [u8], at: usize, keys: usize, group: &[u32]) -> usize
    requires { (keys + totals_width ≤ length group.now) × (at + length (group_fields (group_in keys group.now)) ≤ length line.old) }
    ensures { PlacedText (group_fields (group_in keys group.now)) at line.old line.new result }
{
    let after_keys = put_terms(line, at, &group[..keys]);
    let after_totals = put_totals(line, after_keys, keys, group);
    let least = keys + 6;
    let end = keys + 8;
    put_terms(line, after_totals, &group[least..end])
}

// Writes the line of `group`, a record of `keys` keys, and answers its length.
pub fn group_line(line: &mut [u8], keys: usize, group: &[u32]) -> usize
    requires { (keys ≤ most_group_variables) × ((keys + totals_width ≤ length group.now) × (group_line_room ≤ length line.old)) }
    ensures line { Listed (group_line (group_in keys group.now)) line.old line.new result }
    ensures room { result ≤ group_line_room }
{
    let next = put_bytes(line, 0, b"group");
    let end = put_fields(line, next, keys, group);
    put_byte(line, end, b'\n')
}
