// The words that test 7 asks of a turn's output: of an ending, and of a plan.
ghost use Rattle.std.specs.Prelude.{◌≡◌, true};
ghost use Rattle.plans.specs.Endings.{ending_form, ending_at};
ghost use Rattle.lists.specs.Gathering.{least_output};
ghost use Rattle.calls.specs.Calls.{result_of_call, AnswersRight};
ghost use Rattle.list_limits.specs.PlanOutputs.{plan_output, output_schema};

use plans::EndingKind;
use words::Written;

// That a plan passes its tests.
pub const ACCEPTED: u32 = 0;

// The fewest words that an output may have for `ending`: those of one row, of k rows, of one record, or of all registers.
pub fn least_output(ending: &[u32]) -> usize
    requires { ending_form ending.now ≡ true }
    ensures { result ≡ least_output (ending_at ending.now) }
{
    let width = plan_endings::variables(ending).len();
    match plan_endings::ending_kind(ending) {
        EndingKind::Rows => width,
        EndingKind::Top => plan_endings::best_count(ending) * width,
        EndingKind::Group => width + list_group_totals::TOTALS,
        EndingKind::Registers => list_registers::REGISTERS,
        EndingKind::Invalid => 0,
    }
}

// The fewest words that an output may have for `plan`, or the number of the test that refuses the plan.
pub fn plan_output(plan: &[u32]) -> Written
    ensures asked { result ≡ plan_output plan.now }
    ensures tt_value { record { answer = result; buffers = tt } ≡ result_of_call output_schema plan.now }
    ensures number { AnswersRight output_schema plan.now result }
{
    let number = plan_tests::check(plan);
    if number != ACCEPTED {
        return Written::Refused(number);
    }
    Written::Words(least_output(plan_parts::ending_part(plan)))
}
