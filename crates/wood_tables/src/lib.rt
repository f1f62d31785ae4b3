// The tables of a wood.
#![tactic(auto)]

ghost use Rattle.std.specs.Prelude.{◌≡◌, ◌+◌, ◌*◌, ◌≤◌, length};
ghost use Rattle.words.specs.Words.{most_year};
ghost use Rattle.sequences.specs.Sequences.{over};
ghost use Rattle.tables.specs.Tables.{column_count, most_rows};
ghost use Rattle.woods.specs.Woods.{wood_of};
ghost use Rattle.woods.specs.Growing.{most_stems};
ghost use Rattle.woods.specs.Refusals.{rows_for};

use table_lists::write_lists;
use wood_rows::write_rows;

// Writes the tables of `stems` stems, which have `count` rows.
pub fn write_tables(
    seed: u32,
    stems: u32,
    year: u32,
    count: usize,
    rows: &mut [u32],
    pos: &mut [u32],
    osp: &mut [u32],
    spare: &mut [u32],
) -> usize
    requires stems_le_most_stems { (stems ≤ most_stems) × (year ≤ most_year) × (count ≡ rows_for stems) }
    requires column_count_in_bounds { (count * column_count ≤ length rows.old) × (count ≤ length pos.old) × (count ≤ length osp.old) }
    requires most_rows_in_bounds { most_rows ≤ length spare.old + length spare.old }
    ensures value { result ≡ count * column_count }
    ensures rows_after { rows.new ≡ over (wood_of seed stems year).rows rows.old }
    ensures pos_after { pos.new ≡ over (wood_of seed stems year).pos pos.old }
    ensures osp_after { osp.new ≡ over (wood_of seed stems year).osp osp.old }
{
    let end = write_rows(seed, stems, year, rows);
    write_lists(rows, count, pos, osp, spare);
    end
}
