//! `ron_test_rows`: answers requests to read and to write by a schema, each a line of JSON, with a line of JSON.
//!
//! No crate stands on it. Of itself it promises only that a request is answered within the limit that it asks for. Its
//! stored run is the table of worked answers, which `table.py` makes: it shows what no clause of `ron` says.
//!
//! What is written of schemas, data and errors is in `ron_test_requests`; a new operation is an arm in `push_answer`
//! (`operation.rt`), and a new row a line of `rows.jsonl`.
#![tactic(auto)]

mod answer;
mod asked;
mod damage;
mod deep;
mod devices;
mod growths;
mod operation;
mod options;
mod refused;
mod spare;
mod turns;
mod typed;

use std::io;
use std::io::{BufRead, BufReader, BufWriter, Write};

fn main(rt: HostRuntime) -> io::Result<()> {
    let mut output = BufWriter::new(rt.alloc(), io::writer(&rt))?;
    let input = BufReader::new(rt.alloc(), rt.reader())?;
    for line in input.split(rt.alloc(), b'\n') {
        let answer = answer::answer_to(rt.alloc(), line?.as_slice())?;
        writeln!(output, "{answer}")?;
    }
    output.flush()
}
