// The numbers that refuse serving: by the front entry, by an empty line, and by both lists.
ghost use Rattle.std.specs.Prelude.{◌≡◌, not, [], eqb, length};
ghost use Rattle.words.specs.Tests.{first_failing, number_of};
ghost use Rattle.turns.specs.Surveys.{survey_of};
ghost use Rattle.turns.specs.Turns.{turn_tests};
ghost use Rattle.queues.specs.Serving.{entry_turn, front_tests, quantum_tests, number_tests, queue_tests_by};
ghost use Rattle.queues.specs.Lists.{entry_plan_room, entry_state_room};
ghost use Rattle.queue_outcomes.specs.Services.{planned_in};

use queue_changes::first_of;
use queues::Entry;
use state_forms::number_right;
use words::Term;

// The tests that serving makes besides those of a turn, by their numbers.
pub const ENTRIES: u32 = 17;

pub const SPACE: u32 = 18;

pub const EMPTY: u32 = 19;

// The most steps of a turn, and the test of the quantum.
pub const MOST_STEPS: u32 = 1000000;

pub const QUANTUM: u32 = 8;

// The test of a survey's number.
pub const SURVEY: u32 = 22;

// The number of the first of tests 17, 18 and 19 that fails, or 0.
pub fn list_number(entries: bool, room: bool, waiting: usize) -> u32
    ensures { result ≡ number_of (first_failing (queue_tests_by entries room (not (eqb waiting 0)))) }
{
    if !entries {
        return ENTRIES;
    }
    if !room {
        return SPACE;
    }
    if waiting == 0 {
        return EMPTY;
    }
    0
}

// The number of the test that `quantum` fails, or 0.
pub fn quantum_number(quantum: u32) -> u32
    ensures { result ≡ number_of (first_failing (quantum_tests quantum)) }
{
    if quantum == 0 {
        return QUANTUM;
    }
    if quantum > MOST_STEPS {
        return QUANTUM;
    }
    0
}

// The number of the test that `survey` fails whatever the state, or 0.
fn survey_number(survey: u32) -> u32
    ensures { result ≡ number_of (first_failing (number_tests survey)) }
{
    if number_right(survey) {
        return 0;
    }
    SURVEY
}

// The number of the first test that fails with no front entry: those of the tables, of the quantum and of the survey's number; or 0.
pub fn empty_number(rows: &[u32], pos: &[u32], osp: &[u32], survey: u32, quantum: u32) -> u32
    ensures { result ≡ number_of (first_failing (front_tests (survey_of rows.now pos.now osp.now survey)
        (record { quantum = quantum; threshold = []; output = [] }) [])) }
{
    first_of(
        table_tests::check(rows, pos, osp),
        first_of(quantum_number(quantum), survey_number(survey)),
    )
}

// The words of the plan of `e`: none where its count passes the array.
pub fn planned(e: Entry) -> usize
    ensures { (result ≡ planned_in e) × ((length e.plan ≡ entry_plan_room) × (length e.state ≡ entry_state_room)) }
{
    if e.planned > 256 {
        return 0;
    }
    e.planned as usize
}

// The number of the first test of a turn that `e` fails, or 0.
pub fn front_number(
    rows: &[u32],
    pos: &[u32],
    osp: &[u32],
    survey: u32,
    e: Entry,
    quantum: u32,
    threshold: &[u32],
    output: &[u32],
) -> u32
    ensures { result ≡ number_of (first_failing (turn_tests (entry_turn (survey_of rows.now pos.now osp.now survey)
        (record { quantum = quantum; threshold = threshold.now; output = output.now }) e quantum))) }
{
    let words = e.plan;
    let state = e.state;
    let count = planned(e);
    let mut bound = [Term::UNBOUND; 16];
    turn_tests::prepare(
        rows,
        pos,
        osp,
        survey,
        &words[..count],
        &state[..],
        e.saved as usize,
        quantum,
        threshold,
        output,
        &mut bound,
    )
    .refused
}
