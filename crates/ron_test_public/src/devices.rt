//! Bytes, and devices that are slow and that fail.
ghost use Rattle.std.specs.Prelude.{◌<◌};

use ron::de::{Reader, Source};
use ron::error::{Error, Position, Result};
use ron::options::Options;
use ron::schema::{Data, Schema, Shape, Width};
use ron::ser::{Sink, Writer};
use std::alloc::Global;
use std::io;
use std::io::{ErrorKind, Read, Write};

const TEXT: &str = "[1,22,333]";

/// A device that gives a byte at a time, and at last ends, or fails once and then ends.
#[derive(Drop)]
struct Slow<'a> {
    bytes: &'a [u8],
    fault: Option<ErrorKind>,
}

impl Read for Slow<'_> {
    fn read(&mut self, buffer: &mut [u8]) -> io::Result<usize> {
        if buffer.is_empty() {
            return Ok(0);
        }
        match self.bytes.split_first() {
            Some((first, rest)) => {
                buffer[0] = *first;
                self.bytes = rest;
                Ok(1)
            }
            None => match self.fault.take() {
                Some(kind) => Err(io::Error::from(kind)),
                None => Ok(0),
            },
        }
    }
}

/// A writer that fails once, and then takes all that it is given.
#[derive(Drop)]
struct Balking {
    has_failed: bool,
    taken: usize,
}

impl Write for Balking {
    fn write(&mut self, buffer: &[u8]) -> io::Result<usize> {
        if !self.has_failed {
            self.has_failed = true;
            return Err(io::Error::from(ErrorKind::Interrupted));
        }
        self.taken = self.taken.saturating_add(buffer.len());
        Ok(buffer.len())
    }

    fn flush(&mut self) -> io::Result<()> {
        Ok(())
    }
}

fn numbers(alloc: Global) -> Result<Schema> {
    let mut shapes = vec![in alloc; Shape::Seq(1)]?;
    shapes.push(Shape::Int(Width::U16))?;
    Schema::new(shapes, 0)
}

fn device_of(bytes: &[u8], fault: Option<ErrorKind>) -> Slow<'_> {
    Slow { bytes, fault }
}

// A device that fails once: what tries it again reads on.
#[test]
fn tells_where_a_reader_fails(rt: HostRuntime) {
    let schema = numbers(rt.alloc()).expect(&rt, "a schema");
    let mut device = device_of(b"[1,", Some(ErrorKind::Interrupted));
    let Err(refused) = Options::default().from_reader_seed(rt.alloc(), &mut device, &schema) else {
        panic!(rt; "a failed reader was read");
    };
    assert!(rt; matches!(refused.code, Error::Io(_)));
    assert!(rt; refused.span.start == Position { line: 1, col: 1 });
    assert!(rt; refused.span.end == Position { line: 1, col: 4 });
    assert!(rt; device.bytes.is_empty());
}

#[test]
fn devices_that_do_not_fail(rt: HostRuntime) {
    let schema = numbers(rt.alloc()).expect(&rt, "a list of numbers");
    let options = Options::default();
    let mut text = TEXT.as_bytes();
    let mut source = Reader::new(&mut text);
    let data = options
        .from_source_seed(rt.alloc(), &mut source, &schema)
        .expect(&rt, "numbers");
    assert!(rt; !source.has_failed());
    drop(source);
    assert!(rt; text.is_empty());
    let mut bytes = Vec::new(rt.alloc());
    let mut sink = Writer::new(&mut bytes);
    options
        .to_sink_data(rt.alloc(), &mut sink, &data, None)
        .expect(&rt, "memory");
    assert!(rt; !sink.has_failed());
    drop(sink);
    assert!(rt; bytes.as_slice() == TEXT.as_bytes());
}

#[test]
fn tries_no_failed_write_again(rt: HostRuntime) {
    let mut device = Balking {
        has_failed: false,
        taken: 0,
    };
    let mut sink = Writer::new(&mut device);
    let written = Options::default().to_sink_data(rt.alloc(), &mut sink, &Data::Bool(true), None);
    assert!(rt; matches!(written, Err(Error::Io(_))));
    assert!(rt; sink.has_failed());
    drop(sink);
    assert!(rt; device.taken == 0);
}

/// A source that gives a byte at a time, and at last ends or fails.
#[derive(Drop)]
struct Dripping<'a> {
    rest: &'a [u8],
    is_broken: bool,
    has_failed: bool,
}

impl Source for Dripping<'_> {
    ghost use Rattle.std.specs.Prelude.{Some};

    ghost failed = { λ s. s.has_failed };

    ghost remaining = { λ s. Some s.rest.now };

    fn pull(&mut self, buffer: &mut [u8]) -> io::Result<usize> {
        if buffer.is_empty() {
            return Ok(0);
        }
        match self.rest.split_first() {
            Some((first, rest)) => {
                buffer[0] = *first;
                self.rest = rest;
                Ok(1)
            }
            None => {
                if !self.is_broken {
                    return Ok(0);
                }
                self.has_failed = true;
                Err(io::Error::from(ErrorKind::BrokenPipe))
            }
        }
    }
}

/// A sink that takes a few bytes at a time while it has room, and fails from then on.
#[derive(Drop)]
struct Filling {
    taken: Vec<u8>,
    most: usize,
    room: usize,
    has_failed: bool,
    ghost some: { 0 < most },
}

impl Sink for Filling {
    ghost use Rattle.std.specs.Prelude.{Some};

    ghost failed = { λ s. s.has_failed };

    ghost contents = { λ s. Some s.taken.items };

    fn push(&mut self, piece: &[u8]) -> io::Result<usize> {
        let count = piece.len().min(self.most);
        if count > self.room {
            self.has_failed = true;
            return Err(io::Error::from(ErrorKind::WriteZero));
        }
        if self.taken.extend_from_slice(&piece[..count]).is_err() {
            self.has_failed = true;
            return Err(io::Error::from(ErrorKind::OutOfMemory));
        }
        self.room -= count;
        Ok(count)
    }
}

fn filling_of(alloc: Global, room: usize) -> Filling {
    Filling {
        taken: Vec::new(alloc),
        most: 3,
        room,
        has_failed: false,
    }
}

#[test]
fn a_source_and_a_sink_of_ones_own(rt: HostRuntime) {
    let schema = numbers(rt.alloc()).expect(&rt, "a list of numbers");
    let options = Options::default();
    let mut source = Dripping {
        rest: TEXT.as_bytes(),
        is_broken: false,
        has_failed: false,
    };
    let data = options
        .from_source_seed(rt.alloc(), &mut source, &schema)
        .expect(&rt, "numbers");
    assert!(rt; !source.has_failed && source.rest.is_empty());
    let mut sink = filling_of(rt.alloc(), TEXT.len());
    options
        .to_sink_data(rt.alloc(), &mut sink, &data, None)
        .expect(&rt, "memory");
    assert!(rt; !sink.has_failed);
    assert!(rt; sink.taken.as_slice() == TEXT.as_bytes());
}

#[test]
fn a_source_of_ones_own_that_fails(rt: HostRuntime) {
    let schema = numbers(rt.alloc()).expect(&rt, "a list of numbers");
    let mut source = Dripping {
        rest: "[1,".as_bytes(),
        is_broken: true,
        has_failed: false,
    };
    let Err(refused) = Options::default().from_source_seed(rt.alloc(), &mut source, &schema) else {
        panic!(rt; "a failed source was read");
    };
    assert!(rt; matches!(refused.code, Error::Io(_)));
    assert!(rt; refused.span.end == Position { line: 1, col: 4 });
    assert!(rt; source.has_failed);
}

#[test]
fn a_sink_of_ones_own_that_fails(rt: HostRuntime) {
    let mut sink = filling_of(rt.alloc(), 3);
    let written = Options::default().to_sink_data(rt.alloc(), &mut sink, &Data::Bool(true), None);
    assert!(rt; matches!(written, Err(Error::Io(_))));
    assert!(rt; sink.has_failed);
    assert!(rt; sink.taken.as_slice() == "tru".as_bytes());
}
