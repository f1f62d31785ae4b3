// Membership: which rows say of their subject that it belongs to something granted. In each year they are a range of POS where objects ascend, so the
// grant is walked beside them once.
#![tactic(auto)]

ghost use Rattle.std.specs.Prelude.{◌≡◌, true, ltb};
ghost use Rattle.sequences.specs.Sequences.{neighbours};
ghost use Rattle.tables.specs.Tables.{tables_of};
ghost use Rattle.tables.specs.Right.{Right};
ghost use Rattle.view_members.specs.Flags.{flag_by, Unflagged, Flagged, FlaggedAs, of_earlier, not_later};

use table_ends::end_from;
use table_ranges::halved;
use tables::{COLUMNS, OBJECT, Order, Place, Prefix, YEAR, field, own_row, row_at};
use view_grants::seek;

// The flag of a row that admits its subject, and of another.
pub const ADMITS: u8 = 1;

pub const SILENT: u8 = 0;

fn flag_by(found: bool) -> u8
    ensures { result ≡ flag_by found }
{
    if found { ADMITS } else { SILENT }
}

// Flags each row of `year` that has the predicate `membership` and a granted object, where those of earlier years are flagged.
fn flag_year(
    rows: &[u32],
    pos: &[u32],
    osp: &[u32],
    grant: &[u32],
    membership: u32,
    year: u32,
    flags: &mut [u8],
)
    requires right { Right (tables_of rows.now pos.now osp.now) }
    requires grant_value { neighbours ltb grant.now ≡ true }
    requires flagged_as { FlaggedAs (of_earlier rows.now year) rows.now grant.now membership flags.old }
    ensures { FlaggedAs (not_later rows.now year) rows.now grant.now membership flags.new }
{
    let members = Prefix {
        order: Order::Pos,
        count: 2,
        words: [year, membership, 0, 0],
    };
    let start = halved(rows, pos, osp, members);
    let end = end_from(rows, pos, osp, members, start);
    let last = end.0;
    let mut from: usize = 0;
    for place in start.0..last {
        let row = row_at(rows, pos, osp, Order::Pos, Place(place));
        let sought = seek(grant, from, field(rows, row, OBJECT));
        flags[words::wide(row.0)] = flag_by(sought.found);
        from = sought.at;
    }
}

// Flags each row that has the predicate `membership` and a granted object, year after year.
pub fn flag_members(
    rows: &[u32],
    pos: &[u32],
    osp: &[u32],
    grant: &[u32],
    membership: u32,
    flags: &mut [u8],
)
    requires right { Right (tables_of rows.now pos.now osp.now) }
    requires grant_value { neighbours ltb grant.now ≡ true }
    requires unflagged { Unflagged rows.now flags.old }
    ensures { Flagged rows.now grant.now membership flags.new }
{
    let count = (rows.len() / COLUMNS) as u32;
    let mut place: u32 = 0;
    // no range: it goes from year to year
    while place < count {
        let here = Place(place);
        let year = field(rows, own_row(here), YEAR);
        flag_year(rows, pos, osp, grant, membership, year, flags);
        let whole = Prefix {
            order: Order::Spo,
            count: 1,
            words: [year, 0, 0, 0],
        };
        place = end_from(rows, pos, osp, whole, here).0;
    }
}
