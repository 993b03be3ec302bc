//! `rontool`: lays out files of the format, and tells what is wrong in them.
//!
//! No crate stands on it. What it promises its user is the contract of `run` (`rontool_command`).
#![tactic(auto)]

use rontool_command::run::{Report, run};
use rontool_files::disk::DiskFiles;
use std::io::Write;
use std::process::ExitCode;
use std::{env, io};

fn main(rt: HostRuntime) -> io::Result<ExitCode> {
    let mut words = Vec::new(rt.alloc());
    for word in env::args(&rt)?.skip(1) {
        words.push(word)?;
    }
    let mut files = DiskFiles::new(&rt);
    let status = match run(rt.alloc(), words.as_slice(), &mut files, &mut rt.stdin()) {
        Ok(report) => deliver(&report, &mut rt.stdout(), &mut rt.stderr()),
        Err(_) => {
            let _ = rt.stderr().write_all(b"rontool: out of memory\n");
            2
        }
    };
    Ok(ExitCode::from(status))
}

/// Writes what a run answers, and answers its status: 2 where it can't be written.
fn deliver<O: Write, F: Write>(report: &Report, output: &mut O, faults: &mut F) -> u8 {
    let _ = faults.write_all(report.faults.as_bytes());
    match output.write_all(report.output.as_bytes()) {
        Ok(()) => report.status,
        Err(error) => {
            let _ = writeln!(faults, "rontool: standard output: {error}");
            2
        }
    }
}
