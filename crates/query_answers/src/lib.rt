// Whether a turn was served, by its ending; and what a play answers, by how its query went on after the last turn.
#![tactic(auto)]

ghost use Rattle.std.specs.Prelude.{◌≡◌};
ghost use Rattle.queries.specs.Stepping.{is_served};
ghost use Rattle.queries.specs.Rounds.{play_answer};

use queries::{Played, Went};
use turns::TurnEnding;

// Whether a turn with the ending `ending` was served.
pub fn is_served(ending: TurnEnding) -> bool
    ensures { result ≡ is_served ending }
{
    !matches!(ending, TurnEnding::Refused(_))
}

// The answer of a play whose query stands at `went` after its last turn.
pub fn play_answer(went: Went) -> Played
    ensures { result ≡ play_answer went }
{
    match went {
        Went::On { saved, words } => Played::Unfinished { saved, words },
        Went::Over(words) => Played::Finished(words),
        Went::Stopped(x) => Played::Stopped(x),
    }
}
