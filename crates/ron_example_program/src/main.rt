//! The examples, run: each line of the script is a command with a file that stands beside it or a text, or a remark.
#![tactic(auto)]

mod assets;
mod fault;
mod game;
mod script;
mod service;

use std::io;
use std::process::ExitCode;

fn main(rt: HostRuntime) -> io::Result<ExitCode> {
    for line in rt.lines(rt.alloc()) {
        script::run_line(&rt, line?.as_str(), &mut io::writer(&rt))?;
    }
    Ok(ExitCode::SUCCESS)
}
