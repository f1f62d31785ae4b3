// The call `merge`: the tests of the plan and of the kept list's words, then the ending's. The kept list is the first words of its buffer, as many as the
// call gives.
#![tactic(auto)]

ghost use Rattle.std.specs.Prelude.{◌≡◌};
ghost use Rattle.calls.specs.Calls.{AnswersRight};
ghost use Rattle.merges.specs.Merging.{merge_input, merge_schema, merge_of};

use merge_endings::merge_ending;
use merges::LISTS;
use words::Written;

// Merges `list` into the first `given` words of `kept`, in place: the best rows of both, their groups added up, or the greater of each register.
// It is refused by the number of the first test that fails, and then nothing is written.
pub fn merge(plan: &[u32], kept: &mut [u32], given: usize, list: &[u32]) -> Written
    ensures kept_after { record { answer = result; buffers = kept.new }
        ≡ merge_of (merge_input plan.now kept.old given list.now) }
    ensures number { AnswersRight merge_schema (merge_input plan.now kept.old given list.now) result }
{
    let refused = plan_tests::check(plan);
    if refused != 0 {
        return Written::Refused(refused);
    }
    if kept.len() < given {
        return Written::Refused(LISTS);
    }
    merge_ending(plan_parts::ending_part(plan), kept, given, list)
}
