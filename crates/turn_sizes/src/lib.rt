// Tests 7 and 8 of a turn, 7 and 22 of an opening: the words of the buffers, the quantum, the survey's number.
#![tactic(auto)]

ghost use Rattle.std.specs.Prelude.{◌≡◌, true, ◌&&◌, leb, length};
ghost use Rattle.plans.specs.Endings.{ending_form, ending_at};
ghost use Rattle.steps.specs.Saved.{least_state_words, number_right};
ghost use Rattle.lists.specs.Gathering.{least_output};
ghost use Rattle.turns.specs.Turns.{most_steps};
ghost use Rattle.turn_sizes.specs.Testing.{size_number, start_number};

use list_limits::least_output;
use state_forms::number_right;
use steps::STATE_WORDS;

// The most steps of a turn.
pub const MOST_STEPS: u32 = 1000000;

// The tests of room, quantum and survey, by their numbers; and that all pass.
pub const ROOM: u32 = 7;

pub const QUANTUM: u32 = 8;

pub const SURVEY: u32 = 22;

pub const ACCEPTED: u32 = 0;

// Tests 7 and 8: 0, or the number of the first that the buffers and the quantum fail.
pub fn sizes(ending: &[u32], state: &[u32], quantum: u32, output: &[u32]) -> u32
    requires { ending_form ending.now ≡ true }
    ensures { result ≡ size_number
        (leb least_state_words (length state.now) && leb (least_output (ending_at ending.now)) (length output.now))
        (leb 1 quantum && leb quantum most_steps) }
{
    if state.len() < STATE_WORDS {
        return ROOM;
    }
    if output.len() < least_output(ending) {
        return ROOM;
    }
    if quantum == 0 {
        return QUANTUM;
    }
    if quantum > MOST_STEPS {
        return QUANTUM;
    }
    ACCEPTED
}

// Tests 7 and 22 of an opening: 0, or the number of the first that its buffer and its survey's number fail.
pub fn start(survey: u32, state: &[u32]) -> u32
    ensures { result ≡ start_number (leb least_state_words (length state.now)) (number_right survey) }
{
    if STATE_WORDS > state.len() {
        return ROOM;
    }
    if !number_right(survey) {
        return SURVEY;
    }
    ACCEPTED
}
