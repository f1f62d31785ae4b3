// The list of a served turn, taken: merged into the kept one, joined behind it, or left.
#![tactic(auto)]

ghost use Rattle.std.specs.Prelude.{◌≡◌, true};
ghost use Rattle.plans.specs.Plans.{read_plan, has_form, plan_of};
ghost use Rattle.lists.specs.Gathering.{is_rows};
ghost use Rattle.queries.specs.Stepping.{join_of, rows_taken, list_taken};

use plans::EndingKind;
use queries::Keeping;
use words::Written;

// What a join that has no room is refused by.
pub const ROOM: u32 = 14;

// Whether `plan` ends in rows.
fn is_rows(plan: &[u32]) -> bool
    requires { has_form (read_plan plan.now) ≡ true }
    ensures { result ≡ is_rows (plan_of plan.now).ending }
{
    matches!(
        plan_endings::ending_kind(plan_parts::ending_part(plan)),
        EndingKind::Rows
    )
}

// Joins the rows of `list` behind the first `used` words of `kept`, or refuses where there is no room for them.
fn join(kept: &mut [u32], used: usize, list: &[u32]) -> Written
    ensures { record { answer = result; buffers = kept.new } ≡ join_of kept.old used list.now }
{
    if kept.len() < used || kept.len() - used < list.len() {
        return Written::Refused(ROOM);
    }
    words::copy_in(kept, used, list);
    Written::Words(used + list.len())
}

// Takes `list`, a turn's rows: joined behind the first `used` words of `kept` where all lists are kept, else left in the output.
fn take_rows(kept: &mut [u32], used: usize, list: &[u32], keeping: Keeping) -> Written
    ensures { record { answer = result; buffers = kept.new } ≡ rows_taken keeping kept.old used list.now }
{
    match keeping {
        Keeping::All => join(kept, used, list),
        Keeping::Merged => Written::Words(used),
    }
}

// Takes `list`, that of a served turn: rows as `keeping` says, any other list merged into the first `used` words of `kept`.
pub fn take_list(
    plan: &[u32],
    kept: &mut [u32],
    used: usize,
    list: &[u32],
    keeping: Keeping,
) -> Written
    requires { has_form (read_plan plan.now) ≡ true }
    ensures { record { answer = result; buffers = kept.new }
        ≡ list_taken keeping plan.now kept.old used list.now }
{
    if is_rows(plan) {
        return take_rows(kept, used, list, keeping);
    }
    merge_calls::merge(plan, kept, used, list)
}
