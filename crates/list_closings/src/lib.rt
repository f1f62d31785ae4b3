// What done adds to a list, by the ending of a plan.
#![tactic(auto)]

ghost use Rattle.std.specs.Prelude.{◌≡◌, true, ℕ, ◌+◌, ◌≤◌, length, take};
ghost use Rattle.plans.specs.Endings.{group, ending_form, ending_at};
ghost use Rattle.lists.specs.Groups.{of_nothing, totals_width};
ghost use Rattle.lists.specs.Gathering.{least_output};
ghost use Rattle.lists.specs.Closing.{closed};
ghost use Rattle.lists.specs.Putting.{Listed};
ghost use Rattle.list_group_totals.specs.GroupTotals.{totals_of};

use list_group_totals::{TOTALS, Totals, write_totals};
use plans::EndingKind;
use words::Term;

// The totals of no rows.
fn no_totals() -> Totals
    ensures { result ≡ totals_of of_nothing }
{
    Totals {
        rows: 0,
        numbers: 0,
        sum: 0,
        least: Term::UNBOUND,
        greatest: Term::UNBOUND,
    }
}

// Closes the list of groups that is the first `used` words of `out`, and answers its words: with no variable it always has one record.
fn close_groups(vars: &[u32], out: &mut [u32], used: usize) -> usize
    requires { (length vars.now + totals_width ≤ length out.old) × (used ≤ length out.old) }
    ensures { (m : ℕ) → Listed (closed (group vars.now m) (take used out.old)) out.old
        out.new result }
{
    if vars.len() != 0 {
        return used;
    }
    if used != 0 {
        return used;
    }
    write_totals(&mut out[..TOTALS], no_totals());
    TOTALS
}

// Closes the list that is the first `used` words of `out`, and answers its words: only groups of no variable add a record.
pub fn close(ending: &[u32], out: &mut [u32], used: usize) -> usize
    requires ending_value { ending_form ending.now ≡ true }
    requires ending_in_bounds { (least_output (ending_at ending.now) ≤ length out.old) × (used ≤ length out.old) }
    ensures { Listed (closed (ending_at ending.now) (take used out.old)) out.old out.new result }
{
    let vars = plan_endings::variables(ending);
    match plan_endings::ending_kind(ending) {
        EndingKind::Rows => used,
        EndingKind::Top => used,
        EndingKind::Group => close_groups(vars, out, used),
        EndingKind::Registers => used,
        EndingKind::Invalid => used,
    }
}
