//! One pass of reading a device and of writing to one.
use crate::passes::BenchFault;
use ron::options::Options;
use ron::schema::{Data, Schema};
use ron::ser::Writer;
use std::alloc::Global;
use std::io;
use std::time::{Clock, Duration, Instant};

/// How long reading and writing took.
#[derive(Clone, Copy)]
pub struct Copied {
    pub read: Duration,
    pub write: Duration,
}

/// Reads the text that a reader gives, and writes its data to a writer.
pub fn copy<C: Clock, R: io::Read, W: io::Write>(
    alloc: Global,
    clock: &C,
    schema: &Schema,
    input: &mut R,
    output: &mut W,
) -> Result<Copied, BenchFault> {
    let start = Instant::now(clock).map_err(BenchFault::Outside)?;
    let tree = Options::default()
        .from_reader_seed(alloc, input, schema)
        .map_err(BenchFault::Text)?;
    let read = start.elapsed(clock);
    let write = write_tree(alloc, clock, &tree, output);
    drop(tree);
    Ok(Copied {
        read: read.map_err(BenchFault::Outside)?,
        write: write?,
    })
}

/// Writes the data to a writer, and answers how long that took.
fn write_tree<C: Clock, W: io::Write>(
    alloc: Global,
    clock: &C,
    tree: &Data,
    output: &mut W,
) -> Result<Duration, BenchFault> {
    let start = Instant::now(clock).map_err(BenchFault::Outside)?;
    Options::default()
        .to_sink_data(alloc, &mut Writer::new(output), tree, None)
        .map_err(BenchFault::Data)?;
    start.elapsed(clock).map_err(BenchFault::Outside)
}
