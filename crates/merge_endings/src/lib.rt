// Merging by the ending of a plan: test 12 of both lists, then 13 and 14, and only then the first write.
#![tactic(auto)]

ghost use Rattle.std.specs.Prelude.{◌≡◌, true, List, ℕ, ◌≤◌, length};
ghost use Rattle.plans.specs.Endings.{top, group, registers, most_group_variables, ending_form, ending_at};
ghost use Rattle.list_best.specs.BestLists.{TopParts};
ghost use Rattle.merge_lists.specs.Answering.{PiecesRight, MergedFor};

use merge_lists::{are_best, are_groups, are_registers, written};
use merges::{LISTS, ROOM};
use plans::EndingKind;
use words::Written;

// Merges `list` into the first `given` words of `kept`: the best `k` rows of both.
fn merge_top(
    vars: &[u32],
    keys: &[u32],
    k: usize,
    kept: &mut [u32],
    given: usize,
    list: &[u32],
) -> Written
    requires { TopParts k vars.now keys.now × (given ≤ length kept.old) }
    ensures { MergedFor (top k vars.now keys.now) kept.old given list.now
        (record { answer = result; buffers = kept.new }) }
{
    if !are_best(vars, keys, k, &kept[..given], list) {
        return Written::Refused(LISTS);
    }
    if !list_best_tests::has_best_room(vars, k, &kept[..], given, list) {
        return Written::Refused(ROOM);
    }
    Written::Words(list_best::merge_best(vars, keys, k, kept, given, list))
}

// The same for groups of `g` keys: those of both lists added up.
fn merge_groups(g: usize, kept: &mut [u32], given: usize, list: &[u32]) -> Written
    requires { (g ≤ most_group_variables) × (given ≤ length kept.old) }
    ensures { (vs : List ℕ) (m : ℕ) → length vs ≡ g
        → MergedFor (group vs m) kept.old given list.now (record { answer = result; buffers = kept.new }) }
{
    if !are_groups(g, &kept[..given], list) {
        return Written::Refused(LISTS);
    }
    written(list_group_merges::merge_groups(g, kept, given, list))
}

// The same for registers, the greater of each: no total is added up, so 13 refuses none.
fn merge_registers(kept: &mut [u32], given: usize, list: &[u32]) -> Written
    requires { given ≤ length kept.old }
    ensures { (v : ℕ)
        → MergedFor (registers v) kept.old given list.now (record { answer = result; buffers = kept.new }) }
{
    if !are_registers(&kept[..given], list) {
        return Written::Refused(LISTS);
    }
    if kept.len() < list_registers::REGISTERS {
        return Written::Refused(ROOM);
    }
    Written::Words(list_registers::merge_registers(kept, given, list))
}

// Merges by the ending that `e` starts with: no list of rows is merged.
pub fn merge_ending(e: &[u32], kept: &mut [u32], given: usize, list: &[u32]) -> Written
    requires { (ending_form e.now ≡ true) × PiecesRight (ending_at e.now) × (given ≤ length kept.old) }
    ensures { MergedFor (ending_at e.now) kept.old given list.now
        (record { answer = result; buffers = kept.new }) }
{
    match plan_endings::ending_kind(e) {
        EndingKind::Rows => Written::Refused(LISTS),
        EndingKind::Top => {
            let vars = plan_endings::variables(e);
            let keys = plan_endings::keys(e);
            merge_top(vars, keys, plan_endings::best_count(e), kept, given, list)
        }
        EndingKind::Group => merge_groups(plan_endings::variables(e).len(), kept, given, list),
        EndingKind::Registers => merge_registers(kept, given, list),
        EndingKind::Invalid => Written::Refused(LISTS),
    }
}
