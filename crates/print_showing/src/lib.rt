// What is printed of a file's query: each turn with its rows, and at its end the merged list, or the number that stopped it. All of it is the
// uncut run's.
#![tactic(auto)]

ghost use Rattle.std.specs.Prelude.{◌≡◌, true, ◌%◌, length};
ghost use Rattle.plans.specs.declared.EndingKind.TheVariants.{Rows};
ghost use Rattle.queries.specs.Stepping.{is_served};
ghost use Rattle.print_writing.specs.Listings.{ListsOf, HasWidth};
ghost use Rattle.print_writing.specs.FileQueries.{file_survey, file_plan};
ghost use Rattle.print_writing.specs.Shown.{CanOpen, TurnShown, ListShown, LeftToShow};

use plans::EndingKind;
use print_writing::{Listing, print_list, print_refused, print_turn};
use queries::Played;
use turns::Turned;

// The rows that a turn of a row query delivered; no other list is printed before it is merged.
fn print_delivered(rt: &(impl Print + Eprint), lists: Listing, list: &[u32])
    requires has_width { HasWidth lists.kind lists.width }
    requires width_len { lists.kind ≡ Rows → length list.now % lists.width ≡ 0 }
{
    if matches!(lists.kind, EndingKind::Rows) {
        print_list(rt, lists, list);
    }
}

// A served turn's line, and the rows that it delivered. What refuses a turn is printed when the turns are over.
pub fn print_shown(
    rt: &(impl Print + Eprint),
    bytes: &[u8],
    number: u64,
    turned: Turned,
    list: &[u32],
    lists: Listing,
)
    requires lists_of { ListsOf (file_plan bytes.now) lists }
    requires turn_shown { is_served turned.ending ≡ true → TurnShown bytes.now number turned list.now }
{
    let ending = turned.ending;
    if query_answers::is_served(ending) {
        print_turn(rt, bytes, number, turned, list);
        print_delivered(rt, lists, list);
    }
}

// The merged list of a finished query, which is the whole list of the uncut run.
fn print_whole(rt: &(impl Print + Eprint), bytes: &[u8], list: &[u32], lists: Listing)
    requires lists_of { ListsOf (file_plan bytes.now) lists }
    requires can_open { CanOpen (file_survey bytes.now) (file_plan bytes.now) }
    requires list_shown { ListShown bytes.now list.now }
{
    print_list(rt, lists, list);
}

// What is printed of a query after its turns: where it is finished, its merged list, which is empty for a row query; where it is stopped, the number.
pub fn print_played(
    rt: &(impl Print + Eprint),
    bytes: &[u8],
    kept: &[u32],
    played: Played,
    lists: Listing,
)
    requires lists_of { ListsOf (file_plan bytes.now) lists }
    requires can_open { CanOpen (file_survey bytes.now) (file_plan bytes.now) }
    requires left_to_show { LeftToShow bytes.now kept.now played }
{
    match played {
        Played::Finished(words) => print_whole(rt, bytes, &kept[..words], lists),
        Played::Stopped(x) => print_refused(rt, bytes, x),
        Played::Unfinished { .. } | Played::Refused(_) => {}
    }
}
