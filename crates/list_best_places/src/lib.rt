// Where a row is put among those of a best-of list, behind those equal to it in all keys.
#![tactic(auto)]

ghost use Rattle.std.specs.Prelude.{◌≡◌, ◌*◌, length};
ghost use Rattle.lists.specs.Rows.{row_before};
ghost use Rattle.lists.specs.Gathering.{records_in};
ghost use Rattle.list_best_places.specs.Places.{Searchable, place_in, row_place, PlacedUpTo};

use list_row_orders::comes_before;

// How many rows a far step back passes.
const FAR: usize = 8;

// Far steps back from the word `from`, while `row` comes before the row there: its place is not behind the word where they stop.
fn far_back(vars: &[u32], keys: &[u32], row: &[u32], list: &[u32], from: usize) -> usize
    requires searchable { Searchable vars.now keys.now row.now list.now }
    requires placed_up_to { PlacedUpTo vars.now keys.now row.now list.now from }
    ensures { PlacedUpTo vars.now keys.now row.now list.now result }
{
    let w = vars.len();
    let mut at = from;
    // No iterator: each comparison decides whether a further step is taken, and from where.
    while w <= at / FAR {
        let first = at - FAR * w;
        let end = first + w;
        if comes_before(vars, keys, row, &list[first..end]) {
            at = first;
        } else {
            return at;
        }
    }
    at
}

// The place of `row`, by steps of one row back from the word `upto`, which it is not behind.
fn near_back(vars: &[u32], keys: &[u32], row: &[u32], list: &[u32], upto: usize) -> usize
    requires searchable { Searchable vars.now keys.now row.now list.now }
    requires placed_up_to { PlacedUpTo vars.now keys.now row.now list.now upto }
    ensures { result ≡ row_place vars.now keys.now row.now list.now * length vars.now }
{
    let w = vars.len();
    let mut at = upto;
    // No iterator: the word where a row ends is what is searched for, so it is counted anyway.
    while 0 < at {
        let from = at - w;
        if comes_before(vars, keys, row, &list[from..at]) {
            at = from;
        } else {
            return at;
        }
    }
    at
}

// Where `row` is put in among the rows of `list`, which does not descend: the words in front of it. It is searched from the back, so
// that a row that is not among the best is found out by one comparison.
pub fn place_in(vars: &[u32], keys: &[u32], row: &[u32], list: &[u32]) -> usize
    requires { Searchable vars.now keys.now row.now list.now }
    ensures { result ≡ place_in (row_before vars.now keys.now) row.now
        (records_in (length vars.now) list.now) * length vars.now }
{
    if list.len() == 0 {
        return 0;
    }
    let last = list.len() - vars.len();
    if comes_before(vars, keys, row, &list[last..]) {
        return near_back(vars, keys, row, list, far_back(vars, keys, row, list, last));
    }
    list.len()
}
