// The rows of a wood, drawn stem by stem.
#![tactic(auto)]

ghost use Rattle.std.specs.Prelude.{◌≡◌, ◌*◌, ◌≤◌, ◌<◌, length};
ghost use mathlib.Core.List.{flatten};
ghost use Rattle.words.specs.Words.{most_year};
ghost use Rattle.sequences.specs.Sequences.{over};
ghost use Rattle.tables.specs.Tables.{column_count};
ghost use Rattle.woods.specs.Woods.{next_draw, wood_rows};
ghost use Rattle.woods.specs.Growing.{most_stems};
ghost use Rattle.woods.specs.Refusals.{rows_for};
ghost use Rattle.wood_rows.specs.Drawn.{stem_words};

use tables::COLUMNS;
use woods::STEM_ROWS;
use words::{Term, copy_in};

// The words of a stem: two rows.
const STEM_WORDS: usize = STEM_ROWS * COLUMNS;

// The predicates of a stem's stand and of its diameter, which are names.
const IN_STAND: u32 = 10;

const HAS_DIAMETER: u32 = 12;

// What x is used as: its upper half.
const USED: u32 = 65536;

// The draw after `x`.
pub fn draw(x: u32) -> u32
    ensures { result ≡ next_draw x }
{
    ((1664525 * (x as u64) + 1013904223) % 4294967296) as u32
}

// The words of the rows of `stem` in `year`, where its draws have moved x to `first` and to `second`.
pub fn stem_words(year: u32, stem: u32, first: u32, second: u32) -> [u32; STEM_WORDS]
    requires { (year ≤ most_year) × (stem < most_stems) }
    ensures { result ≡ stem_words year stem first second }
{
    let y = Term::number(year).0;
    let s = Term::name(1000000 + stem).0;
    let stand = Term::name(100 + first / USED % 20).0;
    let diameter = Term::number(20 + second / USED % 600).0;
    [y, s, IN_STAND, stand, y, s, HAS_DIAMETER, diameter]
}

// Writes the rows of `stems` stems in `year`, drawn from `seed`; answers their words.
pub fn write_rows(seed: u32, stems: u32, year: u32, rows: &mut [u32]) -> usize
    requires stems_le_most_stems { (stems ≤ most_stems) × (year ≤ most_year) }
    requires column_count_in_bounds { rows_for stems * column_count ≤ length rows.old }
    ensures value { result ≡ rows_for stems * column_count }
    ensures rows_after { rows.new ≡ over (flatten (wood_rows seed year stems)) rows.old }
{
    let mut x = seed;
    let mut used: usize = 0;
    for stem in 0..stems {
        let first = draw(x);
        let second = draw(first);
        let words = stem_words(year, stem, first, second);
        copy_in(rows, used, &words);
        x = second;
        used += STEM_WORDS;
    }
    used
}
