// The turn printer as a program: prints what the query of the file that its one argument names answers. `./turns` runs it.
#![tactic(auto)]

use std::env::{Env, FillError};

// Whether there is no argument after the first.
fn is_alone(rt: &impl Env) -> bool {
    let mut more = [0u8; 1];
    matches!(rt.arg(2, &mut more), Err(FillError::NotPresent))
}

fn main(rt: HostRuntime) {
    let mut path = [0u8; 4096];
    let named = rt.arg(1, &mut path);
    match named {
        Ok(length) if is_alone(&rt) => print_files::print_path(&rt, &path[..length]),
        _ => {
            let _ = eprintln!(rt; "usage: print_main FILE, a path of at most 4,095 bytes");
        }
    }
}
