// Test 17 of joining and of topping up, by what was seen of both lists.
ghost use Rattle.std.specs.Prelude.{◌≡◌, ◌&&◌, not, leb, ltb};

use queue_entries::Seen;

// Test 17 of joining: both lists are right, and the joining owner has an entry in neither.
pub fn join_right(seen: Seen) -> bool
    ensures { result ≡ (seen.lined && seen.rested) && (not (ltb seen.place seen.waiting) && not (ltb seen.found seen.resting)) }
{
    seen.lined && seen.rested && seen.place >= seen.waiting && seen.found >= seen.resting
}

// Test 17 of a top-up with `amount` steps: both lists are right, `amount` is not 0, and the owner has an entry that is set aside.
pub fn top_up_right(seen: Seen, amount: u64) -> bool
    ensures { result ≡ (seen.lined && seen.rested) && (leb 1 amount && ltb seen.found seen.resting) }
{
    seen.lined && seen.rested && amount > 0 && seen.found < seen.resting
}
