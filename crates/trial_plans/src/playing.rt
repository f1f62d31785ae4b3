// The plans of a wood, each played once for each of its cuts.
use crate::lines::{Form, heading, print_played};
use turn_calls::STATE_WORDS;
use words::wide;

// The words of an entry before its cuts: the plan's number, whether it ends in groups, the words of a row or record,
// the words of the cuts.
pub const HEAD_WORDS: usize = 4;

// A quantum, and the words of an output.
pub const CUT_WORDS: usize = 2;

// The words of the output, and of the list that is kept.
pub const MOST_OUTPUT: usize = 1024;

// The number that every wood stands under.
pub const SURVEY: u32 = 0;

pub const MOST_TURNS: u64 = 18446744073709551615;

// Opens `plan` and runs it in turns of `quantum` steps, over an output of `room` words; prints the rows, joined, or the merged list.
fn play_cut(
    rt: &impl Print,
    rows: &[u32],
    pos: &[u32],
    osp: &[u32],
    plan: &[u32],
    quantum: u32,
    room: usize,
    form: Form,
) {
    if room > MOST_OUTPUT {
        return;
    }
    let mut state = [0u32; STATE_WORDS];
    let mut output = [0u32; 1024];
    let mut kept = [0u32; 1024];
    let played = query_plays::play(
        rows,
        pos,
        osp,
        SURVEY,
        plan,
        quantum,
        MOST_TURNS,
        &mut state,
        &mut output[..room],
        &mut kept,
    );
    print_played(rt, played, form, &kept);
}

// `plan` by each of its `cuts`.
fn play_cuts(
    rt: &impl Print,
    rows: &[u32],
    pos: &[u32],
    osp: &[u32],
    plan: &[u32],
    cuts: &[u32],
    number: u32,
    form: Form,
) {
    for cut in cuts.chunks_exact(CUT_WORDS) {
        let quantum = cut[0];
        let room = cut[1];
        heading(rt, number, quantum, room);
        play_cut(rt, rows, pos, osp, plan, quantum, wide(room), form);
    }
}

fn form_of(groups: u32, width: u32) -> Form {
    Form {
        groups: groups == 1,
        width: wide(width),
    }
}

// A plan with its cuts: an entry of the stored plans.
fn play_entry(rt: &impl Print, rows: &[u32], pos: &[u32], osp: &[u32], entry: &[u32]) {
    if entry.len() < HEAD_WORDS {
        return;
    }
    let form = form_of(entry[1], entry[2]);
    let cuts = wide(entry[3]);
    if cuts > entry.len() - HEAD_WORDS {
        return;
    }
    let plan_at = HEAD_WORDS + cuts;
    play_cuts(
        rt,
        rows,
        pos,
        osp,
        &entry[plan_at..],
        &entry[HEAD_WORDS..plan_at],
        entry[0],
        form,
    );
}

// The plans of a wood: entries, each after the number of its words.
pub fn play_plans(rt: &impl Print, rows: &[u32], pos: &[u32], osp: &[u32], plans: &[u32]) {
    let mut at: usize = 0;
    // no chunks: each entry has its own length
    while at < plans.len() {
        let start = at + 1;
        let words = wide(plans[at]);
        if words > plans.len() - start {
            return;
        }
        let end = start + words;
        play_entry(rt, rows, pos, osp, &plans[start..end]);
        at = end;
    }
}
