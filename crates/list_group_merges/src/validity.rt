// Test 12 of a list of groups.
ghost use Rattle.std.specs.Prelude.{◌≡◌, List, [], ℕ, ◌+◌, ◌≤◌, ◌<◌, length, take, drop};
ghost use Rattle.plans.specs.Endings.{group, most_group_variables};
ghost use Rattle.lists.specs.Groups.{totals_width, group_in};
ghost use Rattle.lists.specs.Gathering.{extremes_right, least_rows, group_right, list_right};
ghost use Rattle.list_group_totals.specs.GroupTotals.{group_with};
ghost use Rattle.list_group_merges.specs.GroupTests.{totals_right, follows_at};

use list_group_totals::{TOTALS, Totals, read_totals};
use list_groups::by_group;
use list_rows::is_values;
use std::cmp::Ordering;
use words::Term;

// Whether the sum, the least and the greatest of `t` can be those of as many numbers as it counts.
fn extremes_right(t: Totals) -> bool
    ensures { result ≡ extremes_right (group_with [] t) }
{
    if t.numbers == 0 {
        if t.sum != 0 {
            return false;
        }
        if t.least != Term::UNBOUND {
            return false;
        }
        return t.greatest == Term::UNBOUND;
    }
    if !Term(t.least).is_number() {
        return false;
    }
    if !Term(t.greatest).is_number() {
        return false;
    }
    Term(t.least).value_rank() <= Term(t.greatest).value_rank()
}

// The fewest rows that a record with `keys` keys counts: with no key it may be the record of no rows.
fn least_rows(keys: usize) -> u64
    ensures { result ≡ least_rows keys }
{
    if keys == 0 {
        return 0;
    }
    1
}

// Whether `t` can be the totals of `least` rows or more.
fn totals_right(least: u64, t: Totals) -> bool
    ensures { result ≡ totals_right least t }
{
    if t.rows < least {
        return false;
    }
    if t.rows < t.numbers {
        return false;
    }
    extremes_right(t)
}

// Whether the record at `at` has values for its `g` keys and right totals.
fn record_right(g: usize, list: &[u32], at: usize) -> bool
    requires { (g ≤ most_group_variables) × (at + (g + totals_width) ≤ length list.now) }
    ensures { result ≡ group_right (group_in g (take (g + totals_width) (drop at list.now))) }
{
    let mid = at + g;
    let end = mid + TOTALS;
    if !is_values(&list[at..mid]) {
        return false;
    }
    let least = least_rows(g);
    totals_right(least, read_totals(&list[mid..end]))
}

// Whether the record at `at` comes after the one before it, if there is one.
fn follows(g: usize, list: &[u32], at: usize) -> bool
    requires { (g ≤ most_group_variables) × (at + (g + totals_width) ≤ length list.now) × (at < g + totals_width → at ≡ 0) }
    ensures { result ≡ follows_at g list.now at }
{
    if at == 0 {
        return true;
    }
    let before = at - (g + TOTALS);
    let before_end = before + g;
    let end = at + g;
    match by_group(&list[before..before_end], &list[at..end]) {
        Ordering::Less => true,
        Ordering::Equal => false,
        Ordering::Greater => false,
    }
}

// Whether `list` is a list of groups with `g` keys.
pub fn is_groups(g: usize, list: &[u32]) -> bool
    requires { g ≤ most_group_variables }
    ensures { (vs : List ℕ) (m : ℕ) → length vs ≡ g → result ≡ list_right (group vs m) list.now }
{
    let w = g + TOTALS;
    if list.len() % w != 0 {
        return false;
    }
    let mut at: usize = 0;
    // No iterator: each record is looked at with the one before it, so it is its place that is passed on.
    while at < list.len() {
        if !record_right(g, list, at) {
            return false;
        }
        if !follows(g, list, at) {
            return false;
        }
        at += w;
    }
    true
}
