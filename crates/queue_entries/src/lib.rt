// Entries of waiting queries in a lent list: looked over, read, settled by places. Few and thin functions.
#![tactic(auto)]

ghost use Rattle.queues.specs.Lists.{lent_as, owners_in};
ghost use Rattle.std.specs.Prelude.{◌≡◌, true, cond, ◌&&◌, not, ◌<◌, ◌≤◌, leb, ltb, eqb, length, take, get_or};
ghost use Rattle.queue_entries.specs.Entries.{nobody, FoundAt, standing, settled};
ghost use Rattle.queue_entries.specs.Seeing.{SeenOf};

use queues::Entry;

// What stands past the end of a list.
pub fn nobody() -> Entry
    ensures { result ≡ nobody }
{
    Entry {
        allowance: 0,
        owner: 0,
        planned: 0,
        saved: 0,
        plan: [0; 256],
        state: [0; 11],
    }
}

// The entry at the place `at` of `list`, or nobody's.
pub fn entry_at(list: &[Entry], at: usize) -> Entry
    ensures { result ≡ get_or list.now at nobody }
{
    match list.get(at) {
        Some(e) => *e,
        None => nobody(),
    }
}

// The first place from `from` on and below `to` at which an entry of `owner` stands; `to` where there is none.
pub fn find_owner(list: &[Entry], from: usize, to: usize, owner: u32) -> usize
    requires { (from ≤ to) × (to ≤ length list.now) }
    ensures { FoundAt list.now from to owner result }
{
    for i in from..to {
        if list[i].owner == owner {
            return i;
        }
    }
    to
}

// Whether an entry's steps are right: some if it is `waiting` in the line, none if it is set aside.
pub fn steps_right(allowance: u64, waiting: bool) -> bool
    ensures { result ≡ cond waiting (leb 1 allowance) (eqb allowance 0) }
{
    if waiting {
        allowance > 0
    } else {
        allowance == 0
    }
}

// Whether one entry is right: its steps are, and its owner was found neither `again` in its own list nor `elsewhere`, in the other.
pub fn entry_valid(
    allowance: u64,
    waiting: bool,
    again: usize,
    count: usize,
    elsewhere: usize,
    others: usize,
) -> bool
    ensures { result ≡ cond waiting (leb 1 allowance) (eqb allowance 0) && (not (ltb again count) && not (ltb elsewhere others)) }
{
    steps_right(allowance, waiting) && again >= count && elsewhere >= others
}

// Whether the first `count` entries of `list` are right, and no owner of them is among the first `few` entries of `others`.
pub fn list_right(list: &[Entry], count: usize, others: &[Entry], few: usize, waiting: bool) -> bool
    requires { (count ≤ length list.now) × (few ≤ length others.now) }
    ensures { result ≡ standing waiting (take count list.now) (owners_in (take few others.now)) }
{
    for i in 0..count {
        let e = list[i];
        let again = find_owner(list, i + 1, count, e.owner);
        let elsewhere = find_owner(others, 0, few, e.owner);
        if !entry_valid(e.allowance, waiting, again, count, elsewhere, few) {
            return false;
        }
    }
    true
}

// What a look over both lists finds: whether the entries of the line and those set aside are right; how many there are; the places of
// an owner's entry in the line and in the list set aside, or their ends (no Options, since `SeenOf` and `FoundAt` say so); and the entries that each
// buffer has.
#[derive(Clone, Copy)]
pub struct Seen {
    pub lined: bool,
    pub rested: bool,
    pub waiting: usize,
    pub resting: usize,
    pub place: usize,
    pub found: usize,
    pub room: usize,
    pub spare: usize,
}

// Looks over the first `given` entries of `line` and the first `kept` of `aside`, for an entry of `owner`.
pub fn look(line: &[Entry], given: usize, aside: &[Entry], kept: usize, owner: u32) -> Seen
    ensures { SeenOf (lent_as line.now given aside.now kept) owner result }
{
    let waiting = given.min(line.len());
    let resting = kept.min(aside.len());
    let lined = list_right(line, waiting, aside, resting, true);
    let rested = list_right(aside, resting, line, 0, false);
    let place = find_owner(line, 0, waiting, owner);
    let found = find_owner(aside, 0, resting, owner);
    Seen {
        lined,
        rested,
        waiting,
        resting,
        place,
        found,
        room: line.len(),
        spare: aside.len(),
    }
}

// The entries of `list` behind `gap` move up by one, up to the one at `last`; and there `e` is written, if `adds` says so.
pub fn remove_then_append(list: &mut [Entry], gap: usize, last: usize, adds: bool, e: Entry)
    requires { (gap < last → last < length list.old) × (adds ≡ true → last < length list.old) }
    ensures { list.new ≡ settled list.old gap last adds e }
{
    if gap < last {
        list.copy_within(gap + 1..last + 1, gap);
    }
    if adds {
        list[last] = e;
    }
}
