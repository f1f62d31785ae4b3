// A program: the limits that the rules name, each tried on both sides by the compiled calls.
#![tactic(auto)]

mod plan;
mod wood;

use plan::Draft;
use turn_calls::STATE_WORDS;
use turns::{TurnEnding, Turned};
use wood::MOST_SURVEY;
use words::Written;

// Writes `text`; that it could not be written shows where the output is compared.
fn say(rt: &impl Print, text: &[u8]) {
    let _ = rt.write_all(text);
}

fn say_number(rt: &impl Print, x: u64) {
    let _ = rt.print(x);
}

// What an opening answered.
fn say_written(rt: &impl Print, what: &[u8], answer: Written) {
    say(rt, what);
    match answer {
        Written::Words(n) => {
            say(rt, b": written, words ");
            say_number(rt, n as u64);
        }
        Written::Refused(x) => {
            say(rt, b": refused ");
            say_number(rt, x as u64);
        }
    }
    say(rt, b"\n");
}

// What a turn answered.
fn say_turned(rt: &impl Print, what: &[u8], answer: Turned) {
    say(rt, what);
    let ending = answer.ending;
    match ending {
        TurnEnding::Done => say(rt, b": done"),
        TurnEnding::Spent => say(rt, b": spent"),
        TurnEnding::Full => say(rt, b": full"),
        TurnEnding::Refused(x) => {
            say(rt, b": refused ");
            say_number(rt, x as u64);
        }
    }
    say(rt, b", steps ");
    say_number(rt, answer.steps as u64);
    say(rt, b"\n");
}

// Opens the plan `d` over no rows, under the number `survey`, with `state` as its buffer.
fn opened(survey: u32, d: Draft, state: &mut [u32]) -> Written {
    let all = d.words;
    let words: &[u32] = &all;
    let used = d.used;
    if used <= words.len() {
        return turn_calls::open(
            &words[..0],
            &words[..0],
            &words[..0],
            survey,
            &words[..used],
            state,
        );
    }
    Written::Words(0)
}

fn try_plan(rt: &impl Print, what: &[u8], d: Draft) {
    let mut state = [0u32; STATE_WORDS];
    say_written(rt, what, opened(MOST_SURVEY, d, &mut state));
}

fn plans(rt: &impl Print) {
    try_plan(rt, b"31 nodes", plan::with_tree(0, 4, 16));
    try_plan(rt, b"32 nodes", plan::with_tree(1, 4, 16));
    try_plan(rt, b"8 deep", plan::with_tree(7, 0, 1));
    try_plan(rt, b"9 deep", plan::with_tree(8, 0, 1));
    try_plan(rt, b"256 words", plan::long(2));
    try_plan(rt, b"257 words", plan::long(3));
    try_plan(rt, b"year 9999 named", plan::of_year(9999));
    try_plan(rt, b"year 10000 named", plan::of_year(10000));
}

fn states(rt: &impl Print) {
    let mut enough = [0u32; STATE_WORDS];
    say_written(
        rt,
        b"11 words of state",
        opened(MOST_SURVEY, plan::with_tree(0, 0, 1), &mut enough),
    );
    let mut few = [0u32; 10];
    say_written(
        rt,
        b"10 words of state",
        opened(MOST_SURVEY, plan::with_tree(0, 0, 1), &mut few),
    );
}

fn try_survey(rt: &impl Print, what: &[u8], survey: u32) {
    let mut state = [0u32; STATE_WORDS];
    say_written(
        rt,
        what,
        opened(survey, plan::with_tree(0, 0, 1), &mut state),
    );
}

fn surveys(rt: &impl Print) {
    try_survey(rt, b"survey 268435455", MOST_SURVEY);
    try_survey(rt, b"survey 268435456", MOST_SURVEY + 1);
}

fn main(rt: HostRuntime) {
    plans(&rt);
    states(&rt);
    surveys(&rt);
    wood::quanta(&rt);
    wood::years(&rt);
    wood::sizes(&rt);
}
