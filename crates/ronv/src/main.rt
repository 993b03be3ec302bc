//! `ronv`: reads a text of the format from standard input and writes it anew to standard output.
//!
//! No crate stands on it. What it promises its user is the contract of `run` (`run.rt`): status 0 only where it wrote
//! the text that its words ask for and an LF; that text spells the normal form of what was read; where the input
//! has no such text nothing is written; and status 2, with nothing read or written, exactly where the words ask for
//! nothing that it does.
#![tactic(auto)]

use ronv_command::run::run;
use std::process::ExitCode;
use std::{env, io};

fn main(rt: HostRuntime) -> io::Result<ExitCode> {
    let mut words = Vec::new(rt.alloc());
    for word in env::args(&rt)?.skip(1) {
        words.push(word)?;
    }
    let status = run(
        rt.alloc(),
        words.as_slice(),
        &mut rt.stdin(),
        &mut rt.stdout(),
        &mut rt.stderr(),
    );
    Ok(ExitCode::from(status))
}
