// Groups merged in place, from the back.
ghost use Rattle.std.specs.Prelude.{◌≡◌, true, ◌++◌, ◌+◌, ◌/◌, ◌%◌, ◌≤◌, ◌<◌, length, take, drop};
ghost use Rattle.plans.specs.Endings.{most_group_variables};
ghost use Rattle.lists.specs.Groups.{totals_width};
ghost use Rattle.list_group_merges.specs.MergingBackwards.{record_at, pick_at, join_words, join_fits, merged_records, union_of};
ghost use Rattle.list_group_merges.specs.MergingGroups.{BothGroups, AddsGroups, last_record, CanPut};

use crate::MergeFault;
use list_group_totals::{TOTALS, add_totals, read_totals, totals_fit};
use list_groups::by_group;
use list_rows::shift;
use std::cmp::Ordering;
use words::copy_in;

// Where the kept record that ends at `x` stands against the record of `list` that ends at `y`; before it, where no kept record is left.
fn pick(g: usize, kept: &[u32], x: usize, list: &[u32], y: usize) -> Ordering
    requires { (g ≤ most_group_variables) × (x ≤ length kept.now) × (x < g + totals_width → x ≡ 0) × (y ≤ length list.now)
        × (g + totals_width ≤ y) }
    ensures { result ≡ pick_at g kept.now x list.now y }
{
    if x == 0 {
        return Ordering::Less;
    }
    let w = g + TOTALS;
    let old = x - w;
    let old_end = old + g;
    let new = y - w;
    let new_end = new + g;
    by_group(&kept[old..old_end], &list[new..new_end])
}

// Whether the totals of the kept record at `x` and of the record of `list` at `y` fit together.
fn join_fits(g: usize, kept: &[u32], x: usize, list: &[u32], y: usize) -> bool
    requires { (g ≤ most_group_variables) × (x + (g + totals_width) ≤ length kept.now) × (y + (g + totals_width) ≤ length list.now) }
    ensures { result ≡ join_fits g (record_at g kept.now x) (record_at g list.now y) }
{
    let old = x + g;
    let old_end = old + TOTALS;
    let new = y + g;
    let new_end = new + TOTALS;
    totals_fit(
        read_totals(&kept[old..old_end]),
        read_totals(&list[new..new_end]),
    )
}

// Counts the records that `list` makes merged with the first `used` words of `kept`; none, if a total overflows.
fn union_of(g: usize, kept: &[u32], used: usize, list: &[u32]) -> Option<usize>
    requires { (g ≤ most_group_variables) × (used ≤ length kept.now) × (used % (g + totals_width) ≡ 0)
        × (length list.now % (g + totals_width) ≡ 0) }
    ensures { result ≡ union_of g kept.now list.now (used / (g + totals_width))
        (length list.now / (g + totals_width)) }
{
    let w = g + TOTALS;
    let mut x = used;
    let mut y = list.len();
    let mut n: usize = 0;
    // No iterator: two lists are walked at once, by what their last records say.
    while 0 < y {
        n += 1;
        match pick(g, kept, x, list, y) {
            Ordering::Less => {
                y -= w;
            }
            Ordering::Greater => {
                x -= w;
            }
            Ordering::Equal => {
                x -= w;
                y -= w;
                if !join_fits(g, kept, x, list, y) {
                    return None;
                }
            }
        }
    }
    Some(n + x / w)
}

// Moves the record of `w` words at `from` up to `to` in `kept`.
fn move_record(kept: &mut [u32], from: usize, to: usize, w: usize)
    requires { (from ≤ to) × (to + w ≤ length kept.old) }
    ensures { kept.new ≡ take to kept.old ++ (take w (drop from kept.old) ++ drop (to + w) kept.old) }
{
    shift(kept, from, from + w, to - from);
}

// Moves the record at `from` up to `to` in `kept`, and adds `more` to it, a record of the same group.
fn merge_record(g: usize, kept: &mut [u32], from: usize, to: usize, more: &[u32])
    requires { (g ≤ most_group_variables) × (from ≤ to) × (to + (g + totals_width) ≤ length kept.old)
        × (length more.now ≡ g + totals_width) × (join_fits g (record_at g kept.old from) more.now ≡ true) }
    ensures { kept.new ≡ take to kept.old
        ++ (join_words g (record_at g kept.old from) more.now ++ drop (to + (g + totals_width)) kept.old) }
{
    let totals = to + g;
    let end = totals + TOTALS;
    let t = read_totals(&more[g..]);
    move_record(kept, from, to, g + TOTALS);
    add_totals(&mut kept[totals..end], t);
}

// Puts at `to` the last of the records that end at `x` and at `y`, or the two added up if they are of the same group, as `side` says.
fn put_record(
    g: usize,
    kept: &mut [u32],
    x: usize,
    list: &[u32],
    y: usize,
    to: usize,
    side: Ordering,
)
    requires { (g ≤ most_group_variables) × CanPut g kept.old x list.now y to side }
    ensures { kept.new ≡ take to kept.old
        ++ (last_record g kept.old x list.now y side ++ drop (to + (g + totals_width)) kept.old) }
{
    let w = g + TOTALS;
    let new = y - w;
    match side {
        Ordering::Less => {
            copy_in(kept, to, &list[new..y]);
        }
        Ordering::Equal => {
            merge_record(g, kept, x - w, to, &list[new..y]);
        }
        Ordering::Greater => {
            move_record(kept, x - w, to, w);
        }
    }
}

// Merges `list` into the first `used` words of `kept`; the merged list has `words` words.
fn merge_backwards(g: usize, kept: &mut [u32], used: usize, list: &[u32], words: usize)
    requires { (g ≤ most_group_variables) × (used ≤ length kept.old) × (used % (g + totals_width) ≡ 0)
        × (length list.now % (g + totals_width) ≡ 0) × (words ≤ length kept.old)
        × (union_of g kept.old list.now (used / (g + totals_width)) (length list.now / (g + totals_width))
        ≡ Some (words / (g + totals_width)))
        × (words % (g + totals_width) ≡ 0) }
    ensures { kept.new
        ≡ merged_records g kept.old list.now (used / (g + totals_width)) (length list.now / (g + totals_width))
        ++ drop words kept.old }
{
    let w = g + TOTALS;
    let mut x = used;
    let mut y = list.len();
    let mut to = words;
    // No iterator: the same walk as in `union_of`.
    while 0 < y {
        to -= w;
        let side = pick(g, &kept[..], x, list, y);
        put_record(g, kept, x, list, y, to, side);
        match side {
            Ordering::Less => {
                y -= w;
            }
            Ordering::Greater => {
                x -= w;
            }
            Ordering::Equal => {
                x -= w;
                y -= w;
            }
        }
    }
}

// Adds the groups of `list` to the kept ones, which are the first `used` words of `kept`.
pub fn merge_groups(
    g: usize,
    kept: &mut [u32],
    used: usize,
    list: &[u32],
) -> Result<usize, MergeFault>
    requires { (g ≤ most_group_variables) × (used ≤ length kept.old) × BothGroups g (take used kept.old) list.now }
    ensures { AddsGroups g (take used kept.old) list.now kept.old kept.new result }
{
    let records = union_of(g, &kept[..], used, list).ok_or(MergeFault::Overflow)?;
    let w = g + TOTALS;
    if kept.len() / w < records {
        return Err(MergeFault::NoRoom);
    }
    let words = records * w;
    merge_backwards(g, kept, used, list, words);
    Ok(words)
}
