//! A line of the script: a command, and what it is given.
use crate::assets::tell_assets;
use crate::fault::ExampleFault;
use crate::game::tell_game;
use crate::service::tell_service;
use ronv_command::run::run;
use std::alloc::Global;
use std::io::{Read, Write};
use std::rt::Files;
use std::{fs, io};

/// Prints a line and what it answers. `ronv fmt < game.ron` gives the command a file, `ronv fmt <<< [1]` a text; what
/// names neither is a remark.
pub fn run_line<R: Files + AllocGlobal, O: Write>(
    rt: &R,
    line: &str,
    output: &mut O,
) -> io::Result<()> {
    if let Some((command, text)) = line.split_once(" <<< ") {
        writeln!(output, "$ {line}")?;
        return run_command(rt.alloc(), command, &mut text.as_bytes(), output);
    }
    if let Some((command, path)) = line.split_once(" < ") {
        writeln!(output, "$ {line}")?;
        return run_command(rt.alloc(), command, &mut fs::open(rt, path)?, output);
    }
    writeln!(output, "{line}")
}

/// Runs `ronv`, or one of the examples.
fn run_command<R: Read, O: Write>(
    alloc: Global,
    command: &str,
    input: &mut R,
    output: &mut O,
) -> io::Result<()> {
    match command.strip_prefix("ronv") {
        Some(words) => run_words(alloc, words, input, output),
        None => run_example(alloc, command, input, output),
    }
}

/// Runs `ronv` with these words, and prints what it writes, what it tells of faults, and its status where that isn't 0.
fn run_words<R: Read, O: Write>(
    alloc: Global,
    line: &str,
    input: &mut R,
    output: &mut O,
) -> io::Result<()> {
    let mut words = Vec::new(alloc);
    for word in line.split_ascii_whitespace() {
        words.push(String::from_str(alloc, word)?)?;
    }
    let mut faults = Vec::new(alloc);
    let status = run(alloc, words.as_slice(), input, output, &mut faults);
    output.write_all(faults.as_slice())?;
    if status != 0 {
        writeln!(output, "status {status}")?;
    }
    Ok(())
}

/// Prints what the example of this name tells, or why it fails.
fn run_example<R: Read, O: Write>(
    alloc: Global,
    name: &str,
    input: &mut R,
    output: &mut O,
) -> io::Result<()> {
    match tell(alloc, name, input) {
        Ok(told) => writeln!(output, "{told}"),
        Err(fault) => writeln!(output, "{fault}"),
    }
}

fn tell<R: Read>(alloc: Global, name: &str, input: &mut R) -> Result<String, ExampleFault> {
    match name {
        "game" => tell_game(alloc, input),
        "service" => tell_service(alloc, input),
        "assets" => tell_assets(alloc, input),
        _ => Ok(String::from_str(alloc, "no such example")?),
    }
}
