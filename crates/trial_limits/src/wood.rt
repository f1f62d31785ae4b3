// Turns at the limits of the quantum, of a row's year and of the rows.
use crate::say_turned;
use tables::{COLUMNS, OBJECT, PREDICATE, SUBJECT, YEAR};
use turn_calls::STATE_WORDS;
use turns::Turned;
use words::{PlanWord, Term};

pub const MOST_ROWS: u32 = 65536;

// The most that a survey's number may be: every call is tried with it.
pub const MOST_SURVEY: u32 = 268435455;

// One row more than there may be, and the words of all these rows.
const ROWS: usize = 65537;

const ROW_WORDS: usize = COLUMNS * ROWS;

// One branch, ?0 n0 ?1, all of its rows in one group that measures ?1.
fn total() -> [u32; 8] {
    [
        PlanWord::head(1).0,
        PlanWord::branch(1).0,
        Term::variable(0).0,
        Term::name(0).0,
        Term::variable(1).0,
        PlanWord::always().0,
        PlanWord::group(0).0,
        Term::variable(1).0,
    ]
}

// Opens, and runs one turn of `quantum` steps, over `rows`, of which `list` is both lists.
fn turned(rows: &[u32], list: &[u32], quantum: u32) -> Turned {
    let p = total();
    let mut state = [0u32; STATE_WORDS];
    let mut output = [0u32; 8];
    turn_calls::open(rows, list, list, MOST_SURVEY, &p, &mut state);
    turn_calls::turn(
        rows,
        list,
        list,
        MOST_SURVEY,
        &p,
        &mut state,
        4,
        quantum,
        &rows[..0],
        &mut output,
    )
}

// Row number r is (i 2026, n r, n 0, i r), so that both lists count up.
fn grow(rows: &mut [u32; ROW_WORDS], list: &mut [u32; ROWS]) {
    for r in 0..ROWS {
        let at = r * COLUMNS;
        rows[at + YEAR] = Term::number(2026).0;
        rows[at + SUBJECT] = Term::name(r as u32).0;
        rows[at + PREDICATE] = Term::name(0).0;
        rows[at + OBJECT] = Term::number(r as u32).0;
        list[r] = r as u32;
    }
}

// The quantum, over no rows.
pub fn quanta(rt: &impl Print) {
    let rows = [0u32; 1];
    let none = &rows[..0];
    say_turned(rt, b"quantum 1000000", turned(none, none, 1000000));
    say_turned(rt, b"quantum 1000001", turned(none, none, 1000001));
    say_turned(rt, b"quantum 1", turned(none, none, 1));
    say_turned(rt, b"quantum 0", turned(none, none, 0));
}

// One row of `year`.
fn try_year(rt: &impl Print, what: &[u8], year: u32) {
    let row = [
        Term::number(year).0,
        Term::name(0).0,
        Term::name(0).0,
        Term::number(0).0,
    ];
    let list = [0u32; 1];
    say_turned(rt, what, turned(&row, &list, 2));
}

// The years that a row may have: the first and the last, and those beside them.
pub fn years(rt: &impl Print) {
    try_year(rt, b"year 0", 0);
    try_year(rt, b"year 1", 1);
    try_year(rt, b"year 9999", 9999);
    try_year(rt, b"year 10000", 10000);
}

// One turn over the first `count` rows.
fn over_first(rows: &[u32], list: &[u32], count: u32) -> Turned {
    let end = count as usize * COLUMNS;
    if end <= rows.len() {
        let last = count as usize;
        if last <= list.len() {
            return turned(&rows[..end], &list[..last], 1000000);
        }
    }
    turned(rows, list, 1000000)
}

// The number of rows: all but the last, and all.
fn try_sizes(rt: &impl Print, rows: &[u32; ROW_WORDS], list: &[u32; ROWS]) {
    say_turned(rt, b"65536 rows", over_first(rows, list, MOST_ROWS));
    say_turned(rt, b"65537 rows", turned(rows, list, 1000000));
}

pub fn sizes(rt: &impl Print) {
    let mut rows = [0u32; ROW_WORDS];
    let mut list = [0u32; ROWS];
    grow(&mut rows, &mut list);
    try_sizes(rt, &rows, &list);
}
