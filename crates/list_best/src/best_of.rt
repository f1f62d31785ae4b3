// Best-of lists: the first k rows by the keys, rows equal in all keys in their order of delivery.
ghost use Rattle.std.specs.Prelude.{◌≡◌, true, ◌≤◌, ◌<◌, length, take};
ghost use Rattle.sequences.specs.Sequences.{all};
ghost use Rattle.plans.specs.Endings.{top, key_among};
ghost use Rattle.lists.specs.Rows.{row_before};
ghost use Rattle.lists.specs.Gathering.{merged};
ghost use Rattle.lists.specs.Delivering.{is_ahead, with_best, with_row};
ghost use Rattle.lists.specs.Putting.{Listed};
ghost use Rattle.list_best.specs.BestLists.{Insertable, Deliverable, Mergeable};

use list_best_places::place_in;
use list_row_orders::comes_before;
use list_rows::{insert, row_of};

// Puts `row` in among the best `k`, the first `used` words of `list`, behind those equal to it; answers the words of the list with it.
fn insert_best(
    vars: &[u32],
    keys: &[u32],
    k: usize,
    row: &[u32],
    list: &mut [u32],
    used: usize,
) -> usize
    requires { Insertable k vars.now keys.now row.now list.old used }
    ensures { Listed (with_best k vars.now keys.now (take used list.old) row.now) list.old
        list.new result }
{
    let at = place_in(vars, keys, row, &list[..used]);
    let w = vars.len();
    let most = k * w;
    if most <= at {
        return used;
    }
    if used < most {
        insert(list, at, used, row);
        return used + w;
    }
    insert(list, at, used - w, row);
    used
}

// Whether `row` comes strictly before `threshold`, or there is no threshold.
fn is_ahead(vars: &[u32], keys: &[u32], threshold: &[u32], row: &[u32]) -> bool
    requires { (all (key_among vars.now) keys.now ≡ true) × (length vars.now ≤ length row.now)
        × (0 < length threshold.now → length vars.now ≤ length threshold.now) }
    ensures { result ≡ is_ahead (row_before vars.now keys.now) threshold.now row.now }
{
    if threshold.len() == 0 {
        return true;
    }
    comes_before(vars, keys, row, threshold)
}

// Takes the row in `bound` up into the best `k`, the first `used` words of `out`, if it is ahead of `threshold`; answers the words of the list.
pub fn put_best(
    vars: &[u32],
    keys: &[u32],
    k: usize,
    bound: &[u32; 16],
    threshold: &[u32],
    out: &mut [u32],
    used: usize,
) -> usize
    requires { Deliverable k vars.now keys.now threshold.now out.old used }
    ensures { Listed (with_row (top k vars.now keys.now) threshold.now (take used out.old)
        bound.now) out.old out.new result }
{
    let row = row_of(vars, bound);
    let w = vars.len();
    if is_ahead(vars, keys, threshold, &row[..w]) {
        return insert_best(vars, keys, k, &row[..w], out, used);
    }
    used
}

// Merges `list` into the first `used` words of `kept`: the best `k` rows of both, kept ones first among equals; answers the words of the merged list.
pub fn merge_best(
    vars: &[u32],
    keys: &[u32],
    k: usize,
    kept: &mut [u32],
    used: usize,
    list: &[u32],
) -> usize
    requires { Mergeable k vars.now keys.now kept.old used list.now }
    ensures { Listed (merged (top k vars.now keys.now) (take used kept.old) list.now)
        kept.old kept.new result }
{
    let mut words = used;
    for row in list.chunks_exact(vars.len()) {
        words = insert_best(vars, keys, k, row, kept, words);
    }
    words
}
