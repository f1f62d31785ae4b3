// A whole query, played over lent buffers, from its opening on: turns of one quantum, each list taken, until it is done or `most` turns are made.
#![tactic(auto)]

ghost use Rattle.std.specs.Prelude.{◌≡◌};
ghost use Rattle.turns.specs.Surveys.{survey_of};
ghost use Rattle.queries.specs.declared.Keeping.TheVariants.{All};
ghost use Rattle.queries.specs.Rounds.{buffers, first_position, rounds, result_at, play_of};

use queries::{Keeping, Played, Went};
use query_answers::play_answer;
use query_turns::advance;
use words::Written;

// At most `most` turns from an opening's state on, the first `opened` words of `state`, and the list of each taken.
fn go_on(
    rows: &[u32],
    pos: &[u32],
    osp: &[u32],
    survey: u32,
    plan: &[u32],
    quantum: u32,
    most: u64,
    state: &mut [u32],
    opened: usize,
    output: &mut [u32],
    kept: &mut [u32],
) -> Played
    ensures { record { answer = result; held = buffers state.new output.new kept.new }
        ≡ result_at (rounds All (survey_of rows.now pos.now osp.now survey) plan.now quantum most
        (first_position opened (buffers state.old output.old kept.old))) }
{
    let mut saved = opened;
    let mut used: usize = 0;
    for _ in 0..most {
        let went = advance(
            rows,
            pos,
            osp,
            survey,
            plan,
            state,
            saved,
            quantum,
            output,
            kept,
            used,
            Keeping::All,
        );
        match went {
            Went::On { saved: left, words } => {
                saved = left;
                used = words;
            }
            Went::Over(_) => return play_answer(went),
            Went::Stopped(_) => return play_answer(went),
        }
    }
    Played::Unfinished { saved, words: used }
}

// Opens a query and plays it: at most `most` turns of `quantum` steps, each turn's list taken into `kept`.
pub fn play(
    rows: &[u32],
    pos: &[u32],
    osp: &[u32],
    survey: u32,
    plan: &[u32],
    quantum: u32,
    most: u64,
    state: &mut [u32],
    output: &mut [u32],
    kept: &mut [u32],
) -> Played
    ensures { record { answer = result; held = buffers state.new output.new kept.new }
        ≡ play_of All (survey_of rows.now pos.now osp.now survey) plan.now quantum most
        (buffers state.old output.old kept.old) }
{
    match turn_calls::open(rows, pos, osp, survey, plan, state) {
        Written::Refused(x) => Played::Refused(x),
        Written::Words(opened) => go_on(
            rows, pos, osp, survey, plan, quantum, most, state, opened, output, kept,
        ),
    }
}
