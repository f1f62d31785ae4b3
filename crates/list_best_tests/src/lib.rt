// The tests of a threshold (11) and of a best-of list (12), and the room for a merged one (14).
#![tactic(auto)]

ghost use Rattle.std.specs.Prelude.{◌≡◌, true, not, List, ℕ, ◌%◌, ◌≤◌, ◌<◌, leb, length, take};
ghost use Rattle.sequences.specs.Sequences.{all, neighbours};
ghost use Rattle.plans.specs.Endings.{top, key_among, most_row_variables, most_best};
ghost use Rattle.lists.specs.Rows.{row_before};
ghost use Rattle.lists.specs.Gathering.{records_in, threshold_right, list_right, merged};
ghost use Rattle.list_best.specs.BestLists.{TopParts, BestList};

use list_row_orders::comes_before;
use list_rows::is_values;

// Whether `threshold` is right for a best-of ending with the variables `vars`: empty, or one row.
pub fn best_threshold(vars: &[u32], threshold: &[u32]) -> bool
    ensures { (k : ℕ) (keys : List ℕ) → result ≡ threshold_right (top k vars.now keys) threshold.now }
{
    if threshold.len() == 0 {
        return true;
    }
    if threshold.len() == vars.len() {
        return is_values(threshold);
    }
    false
}

// Whether no row of `list` comes before the one in front of it.
fn rises(vars: &[u32], keys: &[u32], list: &[u32]) -> bool
    requires { (0 < length vars.now) × (all (key_among vars.now) keys.now ≡ true) × (length vars.now ≤ most_row_variables)
        × (length list.now % length vars.now ≡ 0) }
    ensures { result ≡ neighbours (λ x y. not (row_before vars.now keys.now y x))
        (records_in (length vars.now) list.now) }
{
    let w = vars.len();
    let mut at: usize = 0;
    // No iterator: rows of `w` words by twos, each with the next; chunks zipped with those behind them say less plainly that each pair is whole.
    while at + w < list.len() {
        let next = at + w;
        let end = next + w;
        if comes_before(vars, keys, &list[next..end], &list[at..next]) {
            return false;
        }
        at = next;
    }
    true
}

// Whether `list` is a best-of list: at most `k` rows of values, none of which comes before the one in front of it.
pub fn is_best(vars: &[u32], keys: &[u32], k: usize, list: &[u32]) -> bool
    requires { TopParts k vars.now keys.now }
    ensures { result ≡ list_right (top k vars.now keys.now) list.now }
{
    let w = vars.len();
    if list.len() % w != 0 {
        return false;
    }
    if list.len() / w > k {
        return false;
    }
    if is_values(list) {
        return rises(vars, keys, list);
    }
    false
}

// Whether `kept` has room for its first `used` words, which are the kept list, merged with `list`.
pub fn has_best_room(vars: &[u32], k: usize, kept: &[u32], used: usize, list: &[u32]) -> bool
    requires { (0 < length vars.now) × (length vars.now ≤ most_row_variables) × (k ≤ most_best) × (used ≤ length kept.now)
        × (length list.now % length vars.now ≡ 0) }
    ensures { (keys : List ℕ) → BestList k vars.now keys (take used kept.now)
        → result ≡ leb (length (merged (top k vars.now keys) (take used kept.now) list.now))
        (length kept.now) }
{
    let most = k * vars.len();
    let both = used + list.len();
    both.min(most) <= kept.len()
}
