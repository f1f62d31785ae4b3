// The state that a turn leaves, saved by how the turn ended.
#![tactic(auto)]

ghost use Rattle.std.specs.Prelude.{◌≡◌, ◌≤◌, ◌<◌, length};
ghost use Rattle.words.specs.Words.{low_numbers};
ghost use Rattle.sequences.specs.Sequences.{over};
ghost use Rattle.steps.specs.Saved.{saved_words, least_state_words};
ghost use Rattle.state_saving.specs.Loading.{Storable};
ghost use Rattle.turns.specs.declared.TurnEnding.{TurnEnding};
ghost use Rattle.turn_savings.specs.Leaving.{left_at};

use step_cursors::Cursor;
use turns::TurnEnding;

// Writes the state that a turn's steps leave, under the survey's number `survey`, and answers its words: none when done.
pub fn save_left(survey: u32, ending: TurnEnding, next: Cursor, state: &mut [u32]) -> usize
    requires { (survey < low_numbers) × (least_state_words ≤ length state.old) × ((ending ≡ TurnEnding.Done → ⊥) → Storable next) }
    ensures { (result ≡ length (saved_words survey (left_at ending next)))
        × (state.new ≡ over (saved_words survey (left_at ending next)) state.old) }
{
    match ending {
        TurnEnding::Spent | TurnEnding::Full => state_saving::save(survey, next, state),
        TurnEnding::Done | TurnEnding::Refused(_) => 0,
    }
}
