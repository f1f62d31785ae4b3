// The list of no rows, by the ending of a plan.
ghost use Rattle.std.specs.Prelude.{◌≡◌, true, List, [], ℕ, ◌≤◌, length};
ghost use Rattle.plans.specs.Endings.{ending_form, ending_at};
ghost use Rattle.lists.specs.Gathering.{gathered, least_output};
ghost use Rattle.lists.specs.Putting.{Listed};

use plans::EndingKind;

// Writes the list of no rows to `out`, and answers its words: all registers, each 0, and no word for any other ending.
pub fn begin(ending: &[u32], out: &mut [u32]) -> usize
    requires ending_value { ending_form ending.now ≡ true }
    requires ending_in_bounds { least_output (ending_at ending.now) ≤ length out.old }
    ensures { (threshold : List ℕ)
        → Listed (gathered (ending_at ending.now) threshold []) out.old out.new result }
{
    match plan_endings::ending_kind(ending) {
        EndingKind::Rows => 0,
        EndingKind::Top => 0,
        EndingKind::Group => 0,
        EndingKind::Registers => list_registers::no_values(out),
        EndingKind::Invalid => 0,
    }
}
