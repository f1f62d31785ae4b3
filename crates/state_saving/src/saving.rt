// Saving: a state as words.
ghost use Rattle.std.specs.Prelude.{◌≡◌, ◌≤◌, ◌<◌, length};
ghost use Rattle.sequences.specs.Sequences.{over};
ghost use Rattle.words.specs.Words.{low_numbers};
ghost use Rattle.steps.specs.Saved.{position_words, most_position_words, state_words, least_state_words};
ghost use Rattle.step_cursors.specs.Held.{position_of, state_of};
ghost use Rattle.state_saving.specs.Loading.{Storable};

use step_cursors::Cursor;
use words::{StateWord, Term};

// Writes the words of the position that `c` stands for to `state`, and answers how many.
fn save_behind(c: Cursor, state: &mut [u32]) -> usize
    requires { Storable c × (most_position_words ≤ length state.old) }
    ensures { (result ≡ length (position_words (position_of c))) × (state.new ≡ over (position_words (position_of c)) state.old) }
{
    let level = c.level;
    let upper = c.upper;
    let last = c.place;
    state[0] = StateWord::position(c.branch, level as u32 + 1).0;
    for i in 0..level {
        state[i + 1] = StateWord::place(upper[i].0).0;
    }
    state[level + 1] = StateWord::place(last.0).0;
    level + 2
}

// Writes the words of the state that `c` stands for to `state`, under the survey's number `survey`, and answers how many.
pub fn save(survey: u32, c: Cursor, state: &mut [u32]) -> usize
    requires { Storable c × (survey < low_numbers) × (least_state_words ≤ length state.old) }
    ensures { (result ≡ length (state_words survey (state_of c)))
        × (state.new ≡ over (state_words survey (state_of c)) state.old) }
{
    let f = c.fields;
    let behind = save_behind(c, &mut state[2..]);
    state[0] = StateWord::survey(survey).0;
    state[1] = StateWord::year(Term(f.year).value()).0;
    behind + 2
}
