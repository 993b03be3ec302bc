//! `ron_bench`: times reading and writing of a text of nested structs, reading it without a schema, and types.
//!
//! No crate stands on it. It promises what its passes make, so that what is timed is known to be done: data or a value
//! that the text spells, and a text that is the layout (`passes.rt`); and its status (`run.rt`).
#![tactic(auto)]

mod devices;
mod layout;
mod passes;
mod run;
mod tree;
mod types;

use std::process::ExitCode;
use std::{env, io};

fn main(rt: HostRuntime) -> io::Result<ExitCode> {
    let mut words = Vec::new(rt.alloc());
    for word in env::args(&rt)?.skip(1) {
        words.push(word)?;
    }
    let status = run::run(
        rt.alloc(),
        &rt,
        words.as_slice(),
        &mut rt.stdin(),
        &mut rt.stdout(),
        &mut rt.stderr(),
    );
    Ok(ExitCode::from(status))
}
