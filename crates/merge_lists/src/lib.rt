// What merging asks of both lists, and what it answers of groups.
#![tactic(auto)]

ghost use Rattle.std.specs.Prelude.{◌≡◌, List, ℕ, ◌≤◌, length};
ghost use Rattle.plans.specs.Endings.{top, group, registers, most_group_variables};
ghost use Rattle.list_best.specs.BestLists.{TopParts};
ghost use Rattle.merge_lists.specs.Answering.{both_right, written_of};

use list_group_merges::MergeFault;
use merges::{ROOM, TOTALS};
use words::Written;

// Whether `kept` and `list` are both lists of the best `k` rows by `keys`.
pub fn are_best(vars: &[u32], keys: &[u32], k: usize, kept: &[u32], list: &[u32]) -> bool
    requires { TopParts k vars.now keys.now }
    ensures { result ≡ both_right (top k vars.now keys.now) kept.now list.now }
{
    if list_best_tests::is_best(vars, keys, k, kept) {
        return list_best_tests::is_best(vars, keys, k, list);
    }
    false
}

// Whether `kept` and `list` are both lists of groups with `g` keys.
pub fn are_groups(g: usize, kept: &[u32], list: &[u32]) -> bool
    requires { g ≤ most_group_variables }
    ensures { (vs : List ℕ) (m : ℕ) → length vs ≡ g → result ≡ both_right (group vs m) kept.now list.now }
{
    if list_group_merges::is_groups(g, kept) {
        return list_group_merges::is_groups(g, list);
    }
    false
}

// Whether `kept` and `list` are both lists of registers; the kept one may have none.
pub fn are_registers(kept: &[u32], list: &[u32]) -> bool
    ensures { (v : ℕ) → result ≡ both_right (registers v) kept.now list.now }
{
    if list_registers::kept_registers(kept) {
        return list_registers::are_registers(list);
    }
    false
}

// The answer of the merge `m` of groups, by the tests' numbers.
pub fn written(m: Result<usize, MergeFault>) -> Written
    ensures { result ≡ written_of m }
{
    match m {
        Ok(n) => Written::Words(n),
        Err(MergeFault::Overflow) => Written::Refused(TOTALS),
        Err(MergeFault::NoRoom) => Written::Refused(ROOM),
    }
}
