// What the walk over the three orders reads and finds: definitions and laws. In code, two words read and compared as one.
#![tactic(auto)]

ghost use Rattle.std.specs.Prelude.{◌≡◌, false, ◌+◌, ◌*◌, ◌/◌, ◌%◌, ◌≤◌, ◌<◌, length, get_or};
ghost use Rattle.tables.specs.declared.Order.TheVariants.{Spo};
ghost use Rattle.tables.specs.Tables.{column_count};
ghost use Rattle.table_walk_keys.specs.Walk.{long_of, keys_of, key_count};

use tables::{COLUMNS, PREDICATE, RowNumber};

// How many long words the walk compares of a row.
pub const KEYS: usize = 2;

// How many words there are: a long word has two of them.
const HALF: u64 = 4294967296;

// `first` and `second` as a long word: it is compared as the first is, and where that is the same as the second.
pub fn long(first: u32, second: u32) -> u64
    ensures { result ≡ long_of first second }
{
    first as u64 * HALF + second as u64
}

// The two words of `long`.
pub fn first_of(long: u64) -> u32
    ensures { result ≡ long / 4294967296 }
{
    (long / HALF) as u32
}

pub fn second_of(long: u64) -> u32
    ensures { result ≡ long % 4294967296 }
{
    (long % HALF) as u32
}

// The words of `rows` at `at` and behind it, the later first, which is how a processor reads both at once. A function of its own: joined before
// it is put into its callers, the two stay one reading.
pub fn pair_at(rows: &[u32], at: usize) -> u64
    requires { at + 1 < length rows.now }
    ensures { result ≡ long_of (get_or rows.now (at + 1) 0) (get_or rows.now at 0) }
{
    long(rows[at + 1], rows[at])
}

// The two words of `pair`, the earlier first.
pub fn turned(pair: u64) -> u64
    ensures { result ≡ long_of (pair % 4294967296) (pair / 4294967296) }
{
    long(second_of(pair), first_of(pair))
}

// What is compared of `row` in the rows' own order.
pub fn own_keys(rows: &[u32], row: RowNumber) -> [u64; KEYS]
    requires { row.0 * column_count + column_count ≤ length rows.now }
    ensures { result ≡ keys_of false Spo rows.now row.0 }
{
    let at = words::wide(row.0) * COLUMNS;
    let front = turned(pair_at(rows, at));
    let back = turned(pair_at(rows, at + PREDICATE));
    [front, back]
}

// The long word number `at` of `keys`. Reading it by its number keeps them in registers where the loop over them is unrolled.
pub fn key_at(keys: [u64; KEYS], at: usize) -> u64
    requires { at < key_count }
    ensures { result ≡ get_or keys at 0 }
{
    match at {
        0 => keys[0],
        _ => keys[1],
    }
}
