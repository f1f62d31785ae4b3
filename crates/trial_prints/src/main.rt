// A program: the turn printer on each file that its arguments name, after a line with its name.
#![tactic(auto)]

use std::env::{Env, FillError};
use std::rt::Files;

// The file at `path`, after a line with its name.
fn print_named<R: Files + Print + Eprint>(rt: &R, path: &[u8]) {
    let _ = rt.write_all(b"file ");
    let _ = rt.write_all(path);
    let _ = rt.write_all(b"\n");
    print_files::print_path(rt, path);
}

// The file that argument number `i` names; whether there is such an argument.
fn print_argument<R: Env + Files + Print + Eprint>(rt: &R, i: usize) -> bool {
    let mut path = [0u8; 4096];
    match rt.arg(i, &mut path) {
        Ok(length) => print_named(rt, &path[..length]),
        Err(FillError::TooLong) => {
            let _ = eprintln!(rt; "path: File name too long");
        }
        Err(FillError::NotPresent) => return false,
    }
    true
}

fn main(rt: HostRuntime) {
    for i in 1..usize::MAX {
        if !print_argument(&rt, i) {
            return;
        }
    }
}
