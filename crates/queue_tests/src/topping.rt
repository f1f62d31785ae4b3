// Topping up: tests 17 and 18, and the owner's entry from the list set aside to the end of the line.
ghost use Rattle.std.specs.Prelude.{◌≡◌, List, ◌≤◌, get_or};
ghost use Rattle.queues.specs.declared.Entry.{Entry};
ghost use Rattle.queues.specs.Lists.{lent_as};
ghost use Rattle.queues.specs.ToppingUp.{top_up_of};
ghost use Rattle.queue_entries.specs.Entries.{nobody};
ghost use Rattle.queue_entries.specs.Seeing.{SeenOf};
ghost use Rattle.queue_changes.specs.Changes.{Decides};

use queue_changes::{
    Queueing, lists_number, refused, room_right, top_up_right, topped, with_allowance,
};
use queue_entries::Seen;
use queues::Entry;

// How both lists change by a top-up with `amount` steps of `e`, the entry of `owner`, which stands at the place found.
pub fn top_up(seen: Seen, given: usize, kept: usize, owner: u32, amount: u64, e: Entry) -> Queueing
    requires { seen.resting ≤ kept }
    ensures { (line aside : List Entry) → SeenOf (lent_as line given aside kept) owner seen → e ≡ get_or aside seen.found nobody
        → Decides (lent_as line given aside kept) result (top_up_of (lent_as line given aside kept) owner amount) }
{
    let room = room_right(seen.room, seen.spare, given, kept, 0);
    let number = lists_number(top_up_right(seen, amount), room);
    if number != 0 {
        return refused(number);
    }
    topped(seen.found, given, kept, with_allowance(e, amount))
}
