// A threshold, by the ending of a plan.
ghost use Rattle.std.specs.Prelude.{◌≡◌, true};
ghost use Rattle.plans.specs.Endings.{ending_form, ending_at};
ghost use Rattle.lists.specs.Gathering.{threshold_right};

use plans::EndingKind;

// Test 11: `threshold` is empty, or one row for a best-of ending.
pub fn threshold_right(ending: &[u32], threshold: &[u32]) -> bool
    requires { ending_form ending.now ≡ true }
    ensures { result ≡ threshold_right (ending_at ending.now) threshold.now }
{
    match plan_endings::ending_kind(ending) {
        EndingKind::Top => list_best_tests::best_threshold(
            plan_endings::variables(ending),
            threshold,
        ),
        EndingKind::Rows => list_rows::no_threshold(threshold),
        EndingKind::Group => list_rows::no_threshold(threshold),
        EndingKind::Registers => list_rows::no_threshold(threshold),
        EndingKind::Invalid => false,
    }
}
