// A program: stored plans over stored woods, each cut by several quanta, held to what a second SPARQL engine answered; tests/second_engine makes both
// files.
#![tactic(auto)]

mod lines;
mod playing;

ghost use Rattle.std.specs.Prelude.{◌≤◌, length};
ghost use Rattle.print_reading.specs.Files.{Laid};

use lines::print_refused;
use print_reading::{FileParts, read_full};
use std::io::{Input, Read};

// The woods that are read, and the words of one with its plans, at most.
pub const MOST_WOODS: u32 = 1000;

pub const MOST_WORDS: usize = 16384;

// The words that follow, from the word that stands before them; none at the input's end.
fn words_ahead<I: Read>(input: &mut I) -> Option<usize> {
    let mut head = [0u8; 4];
    if read_full(input, &mut head) < 4 {
        return None;
    }
    Some(words::wide(u32::from_le_bytes(head)))
}

// The wood in `file`, and its plans behind it: `parts` says where they begin.
fn play_wood(rt: &impl Print, file: &[u32], parts: FileParts)
    requires { (Laid parts) × (parts.words ≤ length file.now) }
{
    let pos_at = parts.pos;
    let osp_at = parts.osp;
    let plans_at = parts.plan;
    let end = parts.words;
    let rows = &file[2..pos_at];
    let pos = &file[pos_at..osp_at];
    let osp = &file[osp_at..plans_at];
    let plans = &file[plans_at..end];
    playing::play_plans(rt, rows, pos, osp, plans);
}

// A wood and its plans, from their bytes.
fn play_bytes(rt: &impl Print, bytes: &[u8]) {
    let mut file = [0u32; 16384];
    match print_reading::read_file(bytes, &mut file) {
        Ok(parts) => play_wood(rt, &file, parts),
        Err(x) => print_refused(rt, x),
    }
}

// Reads a wood and its plans, as many bytes as `bytes` has, and plays them.
fn read_wood<I: Read>(rt: &impl Print, input: &mut I, bytes: &mut [u8]) {
    let n = read_full(input, bytes);
    play_bytes(rt, &bytes[..n]);
}

// The next wood and its plans; whether there was one.
fn next_wood<I: Read>(rt: &impl Print, input: &mut I) -> bool {
    match words_ahead(input) {
        Some(words) if words > 0 && words <= MOST_WORDS => {
            let mut bytes = [0u8; 65536];
            read_wood(rt, input, &mut bytes[..words * 4]);
            true
        }
        _ => false,
    }
}

fn main(rt: HostRuntime) {
    let mut input = rt.reader();
    for _ in 0..MOST_WOODS {
        if !next_wood(&rt, &mut input) {
            return;
        }
    }
}
