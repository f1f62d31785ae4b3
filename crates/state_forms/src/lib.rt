// The shape of a state's words and the year that they name: test 9; and the number of its survey: test 22.
#![tactic(auto)]

ghost use Rattle.std.specs.Prelude.{◌≡◌, true, ◌&&◌, eqb};
ghost use Rattle.words.specs.Words.{low};
ghost use Rattle.sequences.specs.Sequences.{all};
ghost use Rattle.tables.specs.Tables.{tables_of};
ghost use Rattle.tables.specs.Right.{Right};
ghost use Rattle.plans.specs.Plans.{read_plan, has_form, plan_of};
ghost use Rattle.steps.specs.Saved.{is_place, depth_right, position_right, shape_behind, shape_right, number_right};

use plans::PATTERN_WIDTH;
use step_years::year_read;
use words::{NUMBERS, StateWord};

// Whether each word of `state` is a place.
fn all_places(state: &[u32]) -> bool
    ensures { result ≡ all is_place state.now }
{
    state
        .iter()
        .all(|word| StateWord(*word).kind() == StateWord::PLACE)
}

// Whether a branch with the terms `terms` has a level at the depth `depth`, from 1.
fn depth_right(terms: &[u32], depth: u32) -> bool
    ensures { result ≡ depth_right terms.now depth }
{
    if depth == 0 {
        return false;
    }
    (words::wide(depth) - 1) * PATTERN_WIDTH < terms.len()
}

// Whether `word`, the one behind a year's, names a branch of `plan` and a depth of that branch.
fn position_right(plan: &[u32], word: u32) -> bool
    requires { has_form (read_plan plan.now) ≡ true }
    ensures { result ≡ position_right (plan_of plan.now) word }
{
    let w = StateWord(word);
    let branch = w.branch();
    if w.kind() != StateWord::POSITION {
        return false;
    }
    if branch >= plans::branch_count(plan) {
        return false;
    }
    depth_right(
        plans::terms(plan_parts::branch_part(plan, branch)),
        w.depth(),
    )
}

// Whether `state`, the words behind a year's, is a position in `plan` and a place for each level to its depth.
fn has_shape(plan: &[u32], state: &[u32]) -> bool
    requires { has_form (read_plan plan.now) ≡ true }
    ensures { result ≡ shape_behind (plan_of plan.now) state.now }
{
    if state.len() == 0 {
        return false;
    }
    let word = state[0];
    if !position_right(plan, word) {
        return false;
    }
    if state.len() - 1 != words::wide(StateWord(word).depth()) {
        return false;
    }
    all_places(&state[1..])
}

// Whether the words of `state` are a survey's, whatever its number, a year that is being read, and the shape behind it. (9)
pub fn has_form(rows: &[u32], pos: &[u32], osp: &[u32], plan: &[u32], state: &[u32]) -> bool
    requires right { Right (tables_of rows.now pos.now osp.now) }
    requires plan_value { has_form (read_plan plan.now) ≡ true }
    ensures { result ≡ shape_right (tables_of rows.now pos.now osp.now) (plan_of plan.now)
        state.now }
{
    if state.len() < 2 {
        return false;
    }
    if StateWord(state[0]).kind() != StateWord::SURVEY {
        return false;
    }
    let year = StateWord(state[1]);
    if year.kind() != StateWord::YEAR {
        return false;
    }
    if !year_read(rows, pos, osp, plans::years_in(plan), year.number()) {
        return false;
    }
    has_shape(plan, &state[2..])
}

// Whether `survey`, a survey's number, has 28 bits.
pub fn number_right(survey: u32) -> bool
    ensures { result ≡ number_right survey }
{
    survey < NUMBERS
}

// Whether `survey` has 28 bits and is the number in `word`, a state's first. (22)
pub fn of_survey(survey: u32, word: u32) -> bool
    ensures { result ≡ (number_right survey && eqb (low word) survey) }
{
    if !number_right(survey) {
        return false;
    }
    StateWord(word).number() == survey
}
