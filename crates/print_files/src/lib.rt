// A file of the printer: opened, read, and its query opened.
#![tactic(auto)]

ghost use Rattle.std.specs.Prelude.{◌≡◌, ◌≤◌, Ok, length, take};
ghost use Rattle.print_reading.specs.Files.{file_words, Laid, layout_of};

use print_reading::{FileParts, read_full};
use print_rounds::{SURVEY, run};
use print_writing::print_refused;
use std::fs::File;
use std::io;
use std::io::Read;
use std::rt::Files;
use turn_calls::STATE_WORDS;
use words::Written;

// Opens the query of `file`, whose words were read and whose `parts` were found, and runs it; a refusal is printed.
fn print_query(rt: &(impl Print + Eprint), bytes: &[u8], file: &[u32], parts: FileParts)
    requires laid { (Laid parts) × (parts.words ≤ length file.now) }
    requires bytes_value { (layout_of bytes.now ≡ Ok parts) × (take parts.words file.now ≡ file_words bytes.now) }
{
    let pos_at = parts.pos;
    let osp_at = parts.osp;
    let plan_at = parts.plan;
    let end = parts.words;
    let quantum = file[1];
    let rows = &file[2..pos_at];
    let pos = &file[pos_at..osp_at];
    let osp = &file[osp_at..plan_at];
    let plan = &file[plan_at..end];
    let mut state = [0u32; STATE_WORDS];
    let opened = turn_calls::open(rows, pos, osp, SURVEY, plan, &mut state);
    match opened {
        Written::Words(n) => run(rt, bytes, rows, pos, osp, plan, quantum, &mut state, n),
        Written::Refused(x) => print_refused(rt, bytes, x),
    }
}

// Finds the parts of the file that has these `bytes`, and prints what its query answers.
fn print_bytes(rt: &(impl Print + Eprint), bytes: &[u8]) {
    let mut file = [0u32; 16384];
    match print_reading::read_file(bytes, &mut file) {
        Ok(parts) => print_query(rt, bytes, &file, parts),
        Err(x) => print_refused(rt, bytes, x),
    }
}

// Says on standard error why the file at `path` cannot be opened or read.
fn fail(rt: &impl Eprint, path: &str, error: io::Error) {
    let _ = eprintln!(rt; "{path}: {error}");
}

// Reads `file`; one byte more than a file may have tells that it is longer. A read that fails says so again when it is asked once more.
fn print_file<F: Read>(rt: &(impl Print + Eprint), file: &mut F, path: &str) {
    let mut bytes = [0u8; 65537];
    let n = read_full(file, &mut bytes);
    let mut more = [0u8; 1];
    match file.read(&mut more) {
        Ok(_) => print_bytes(rt, &bytes[..n]),
        Err(error) => fail(rt, path, error),
    }
}

// Opens the file at `path`, and prints what its query answers.
fn print_opened<R: Files + Print + Eprint>(rt: &R, path: &str) {
    match File::open(rt, path) {
        Ok(mut file) => print_file(rt, &mut file, path),
        Err(error) => fail(rt, path, error),
    }
}

// Prints what the query of the file at `path` answers; that it cannot be opened or read, or that the path is not UTF-8, is said on standard error.
pub fn print_path<R: Files + Print + Eprint>(rt: &R, path: &[u8]) {
    match str::from_utf8(path) {
        Ok(path) => print_opened(rt, path),
        Err(error) => {
            let _ = eprintln!(rt; "path: {error}");
        }
    }
}
