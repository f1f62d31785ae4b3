// What is printed: a heading for each cut, and a line for each row or group of its list.
use queries::Played;

// The terms of a row, at most.
pub const MOST_TERMS: usize = 16;

// The words of a group's record after its keys, and of a whole record at most.
pub const TOTALS_WIDTH: usize = 8;

pub const MOST_GROUP_WIDTH: usize = 12;

// What a plan's list holds, groups or rows, and the words of each.
#[derive(Clone, Copy)]
pub struct Form {
    pub groups: bool,
    pub width: usize,
}

// Writes `text`; that it could not be written shows where the output is compared.
fn say(rt: &impl Print, text: &[u8]) {
    let _ = rt.write_all(text);
}

// The number `x` after its `name`.
fn say_number(rt: &impl Print, name: &[u8], x: u32) {
    say(rt, name);
    let _ = rt.print(x);
}

// The plan's `number`, the `quantum`, and `room`, the output's words.
pub fn heading(rt: &impl Print, number: u32, quantum: u32, room: u32) {
    say_number(rt, b"plan ", number);
    say_number(rt, b" quantum ", quantum);
    say_number(rt, b" output ", room);
    say(rt, b"\n");
}

pub fn print_refused(rt: &impl Print, x: u32) {
    say_number(rt, b"refused ", x);
    say(rt, b"\n");
}

// Writes the first `n` bytes of `line`.
fn write_first(rt: &impl Print, line: &[u8], n: usize) {
    if n <= line.len() {
        let text = &line[..n];
        say(rt, text);
    }
}

fn print_row(rt: &impl Print, row: &[u32]) {
    if row.len() <= MOST_TERMS {
        let mut line = [0u8; 256];
        let n = print_lines::row_line(&mut line, row);
        write_first(rt, &line, n);
    }
}

// A group's record; its keys are what stands before its totals.
fn print_group(rt: &impl Print, group: &[u32]) {
    if group.len() < TOTALS_WIDTH {
        return;
    }
    if group.len() <= MOST_GROUP_WIDTH {
        let keys = group.len() - TOTALS_WIDTH;
        let mut line = [0u8; 256];
        let n = print_lines::group_line(&mut line, keys, group);
        write_first(rt, &line, n);
    }
}

fn print_record(rt: &impl Print, groups: bool, record: &[u32]) {
    if groups {
        print_group(rt, record);
    } else {
        print_row(rt, record);
    }
}

// The rows or groups of `list`, each on its line.
fn print_list(rt: &impl Print, form: Form, list: &[u32]) {
    if form.width == 0 {
        return;
    }
    for record in list.chunks_exact(form.width) {
        print_record(rt, form.groups, record);
    }
}

// The list in the first `words` words of `kept`.
fn print_kept(rt: &impl Print, form: Form, kept: &[u32], words: usize) {
    if words <= kept.len() {
        let list = &kept[..words];
        print_list(rt, form, list);
    }
}

// What a play has at its end.
pub fn print_played(rt: &impl Print, played: Played, form: Form, kept: &[u32]) {
    match played {
        Played::Finished(words) => print_kept(rt, form, kept, words),
        Played::Unfinished { .. } => say(rt, b"unfinished\n"),
        Played::Stopped(x) | Played::Refused(x) => print_refused(rt, x),
    }
}
