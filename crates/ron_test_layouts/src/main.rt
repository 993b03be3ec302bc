//! `ron_test_layouts`: answers requests to lay a text out, each a line of JSON, with a line of JSON.
//!
//! No crate stands on it, and it promises nothing of itself. Its stored run is the table of worked layouts, which
//! `table.py` makes: it shows what the clauses of `ron_format` leave to the layout.
#![tactic(auto)]

mod answer;
mod asked;

use std::io;
use std::io::{BufRead, BufReader, BufWriter, Write};

fn main(rt: HostRuntime) -> io::Result<()> {
    let mut output = BufWriter::new(rt.alloc(), io::writer(&rt))?;
    let input = BufReader::new(rt.alloc(), rt.reader())?;
    for line in input.split(rt.alloc(), b'\n') {
        let answer = answer::answer_to(rt.alloc(), line?.as_slice())?;
        writeln!(output, "{answer}")?;
    }
    output.flush()
}
