// A cursor's places against the rows of a year, which begin with its word: test 10, level by level from the outermost in.
#![tactic(auto)]

ghost use Rattle.std.specs.Prelude.{◌≡◌, ◌&&◌, true, ◌<◌, length, is_some, IfSome};
ghost use Rattle.tables.specs.Tables.{tables_of, section_of};
ghost use Rattle.tables.specs.Ranges.{range_end, in_range};
ghost use Rattle.tables.specs.Right.{Right};
ghost use Rattle.plans.specs.Branches.{most_patterns};
ghost use Rattle.steps.specs.Levels.{bindings, level_prefix, passes, Inside};
ghost use Rattle.step_levels.specs.Showing.{bound_after};
ghost use Rattle.steps.specs.Positions.{upper_right, state_right};
ghost use Rattle.step_cursors.specs.Held.{upper_of, position_of, EndsAbove};
ghost use Rattle.state_saving.specs.Loading.{up_to_end};

use step_cursors::Cursor;
use step_fields::level_of;
use step_levels::{level_passes, level_range};
use tables::Place;
use words::Term;

// All places of a cursor walked: the ends of their levels' ranges, the last level's apart.
#[derive(Clone, Copy)]
pub struct Walk {
    pub end: Place,
    pub ends: [Place; 8],
}

// The end of the range of `level`, if `place` is in it at a row that passes. Its fields are then bound.
fn level_end(
    rows: &[u32],
    pos: &[u32],
    osp: &[u32],
    year: u32,
    terms: &[u32],
    level: usize,
    place: Place,
    bound: &mut [u32; 16],
) -> Option<Place>
    requires right { Right (tables_of rows.now pos.now osp.now) }
    requires inside { Inside terms.now level }
    ensures right_value { is_some result ≡ (in_range (tables_of rows.now pos.now osp.now)
        (level_prefix year terms.now level bound.old) place.0
        && passes (section_of rows.now pos.now osp.now year)
        terms.now level place.0 bound.old) }
    ensures bound_after { bound.new ≡ bound_after (section_of rows.now pos.now osp.now year)
        terms.now level place.0 bound.old }
    ensures ends { IfSome result (λ end. end.0 ≡ range_end (tables_of rows.now pos.now osp.now)
        (level_prefix year terms.now level bound.old)) }
{
    let tested = level_passes(rows, pos, osp, year, terms, level, place, bound);
    if tested.right {
        return Some(tested.end);
    }
    None
}

// The ends of the upper levels' ranges, if each upper place of `c` is in its range at a row that passes. Then `bound` holds what they bind.
fn upper_right(
    rows: &[u32],
    pos: &[u32],
    osp: &[u32],
    year: u32,
    terms: &[u32],
    c: Cursor,
    bound: &mut [u32; 16],
) -> Option<[Place; 8]>
    requires right { Right (tables_of rows.now pos.now osp.now) }
    requires inside { Inside terms.now c.level × (c.level < most_patterns) }
    ensures right_value { is_some result ≡ upper_right (section_of rows.now pos.now osp.now year)
        terms.now (upper_of c.upper c.level) }
    ensures bound_after { is_some result ≡ true → bound.new
        ≡ bindings (section_of rows.now pos.now osp.now year)
        terms.now (upper_of c.upper c.level) }
    ensures ends { IfSome result (λ ends. (length ends ≡ most_patterns)
        × EndsAbove (section_of rows.now pos.now osp.now year)
        terms.now c.upper ends c.level) }
{
    let upper = c.upper;
    *bound = [Term::UNBOUND; 16];
    let mut ends = [Place(0); 8];
    for level in 0..c.level {
        ends[level] = level_end(rows, pos, osp, year, terms, level, upper[level], bound)?;
    }
    Some(ends)
}

// The end of the range of a cursor's last level, if its place, `place`, is from the first one up to and including that end.
fn last_right(
    rows: &[u32],
    pos: &[u32],
    osp: &[u32],
    year: u32,
    terms: &[u32],
    level: usize,
    place: Place,
    bound: &[u32; 16],
) -> Option<Place>
    requires right { Right (tables_of rows.now pos.now osp.now) }
    requires inside { Inside terms.now level }
    ensures right_value { is_some result ≡ up_to_end (tables_of rows.now pos.now osp.now)
        (level_prefix year terms.now level bound.now) place.0 }
    ensures ends { IfSome result (λ end. end.0 ≡ range_end (tables_of rows.now pos.now osp.now)
        (level_prefix year terms.now level bound.now)) }
{
    let range = level_range(rows, pos, osp, level_of(year, terms, level, bound), place);
    if place.0 < range.first.0 {
        return None;
    }
    if place.0 <= range.end.0 {
        return Some(range.end);
    }
    None
}

// The ends of all levels' ranges, if the places of `c` are those of a state that the run passes through. (10) Then `bound` holds what the upper ones
// bind.
pub fn places_right(
    rows: &[u32],
    pos: &[u32],
    osp: &[u32],
    year: u32,
    terms: &[u32],
    c: Cursor,
    bound: &mut [u32; 16],
) -> Option<Walk>
    requires right { Right (tables_of rows.now pos.now osp.now) }
    requires inside { Inside terms.now c.level × (c.level < most_patterns) }
    ensures right_value { is_some result ≡ state_right (section_of rows.now pos.now osp.now year)
        terms.now (position_of c) }
    ensures bound_after { is_some result ≡ true → bound.new
        ≡ bindings (section_of rows.now pos.now osp.now year)
        terms.now (upper_of c.upper c.level) }
    ensures ends { IfSome result (λ walk. (walk.end.0 ≡ range_end (tables_of rows.now pos.now osp.now)
        (level_prefix year terms.now c.level bound.new)) × (length walk.ends ≡ most_patterns)
        × EndsAbove (section_of rows.now pos.now osp.now year)
        terms.now c.upper walk.ends c.level) }
{
    let ends = upper_right(rows, pos, osp, year, terms, c, bound)?;
    let end = last_right(rows, pos, osp, year, terms, c.level, c.place, bound)?;
    Some(Walk { end, ends })
}
