//! Reading from and writing to devices that give and take little at a time, and that fail.
use crate::asked::{Reading, Writing, all_bytes, push_read, push_refused, reading_of, writing_of};
use anyhow::{Result, bail};
use ron::error::Error;
use ron::schema::Data;
use ron::ser::{Serializer, Writer};
use ron_test_requests::data::data_of;
use ron_test_requests::json::{count_of, member, push_text};
use ron_test_requests::refusal::{Detail, detail_of};
use serde_json::Value;
use std::alloc::{AllocError, Global};
use std::io::ErrorKind;
use std::{fmt, io};

/// How many bytes a reader gives in a call.
#[derive(Clone, Copy)]
enum Pieces {
    /// So many at most.
    Most(usize),
    /// One to seven, by the next of the numbers that begin from this one.
    Chance(usize),
}

/// What a reader answers that has nothing more to give.
#[derive(Clone, Copy)]
enum Ending {
    End,
    Broken,
    Interrupted,
}

/// A reader that gives bytes piece by piece.
#[derive(Drop)]
struct Giving<'a> {
    rest: &'a [u8],
    pieces: Pieces,
    ending: Ending,
}

impl Giving<'_> {
    /// The most that the next call gives.
    fn next_most(&mut self) -> usize {
        match self.pieces {
            Pieces::Most(count) => count,
            Pieces::Chance(number) => {
                let next = number
                    .wrapping_mul(6_364_136_223_846_793_005)
                    .wrapping_add(1_442_695_040_888_963_407);
                self.pieces = Pieces::Chance(next);
                // the lower bits of such numbers come round soon
                (next >> 33) % 7 + 1
            }
        }
    }
}

impl io::Read for Giving<'_> {
    fn read(&mut self, buf: &mut [u8]) -> io::Result<usize> {
        let most = self.next_most();
        let rest = self.rest;
        let count = buf.len().min(rest.len()).min(most);
        if count == 0 {
            return match self.ending {
                Ending::End => Ok(0),
                Ending::Broken => Err(io::Error::other("device broken")),
                Ending::Interrupted => {
                    Err(io::Error::new(ErrorKind::Interrupted, "device interrupted"))
                }
            };
        }
        buf[..count].copy_from_slice(&rest[..count]);
        self.rest = &rest[count..];
        Ok(count)
    }
}

/// Reads from a device that gives `chunk` bytes in a call, or pieces of random `sizes`, and then ends, or `fail`s.
pub fn read_io(json: &mut String, alloc: Global, request: &Value) -> Result<()> {
    let pieces = pieces_of(request)?;
    let ending = ending_of(request)?;
    let Reading {
        schema,
        options,
        input,
        detail,
    } = reading_of(alloc, request)?;
    let mut device = Giving {
        rest: all_bytes(&input),
        pieces,
        ending,
    };
    let answer = options.from_reader_seed(alloc, &mut device, &schema);
    Ok(push_read(json, alloc, answer, detail)?)
}

fn pieces_of(request: &Value) -> Result<Pieces> {
    match (request.get("chunk"), request.get("sizes")) {
        (None, Some(number)) => Ok(Pieces::Chance(count_of(number)?)),
        (None, None) => Ok(Pieces::Most(1)),
        (Some(count), _) => Ok(Pieces::Most(count_of(count)?)),
    }
}

fn ending_of(request: &Value) -> Result<Ending> {
    match request.get("fail") {
        None | Some(Value::Bool(false)) => Ok(Ending::End),
        Some(Value::Bool(true)) => Ok(Ending::Broken),
        Some(fault) => match fault.as_str() {
            Some("interrupted") => Ok(Ending::Interrupted),
            _ => bail!("no fail: {fault}"),
        },
    }
}

/// A writer that takes bytes while it has room, and fails from then on.
#[derive(Drop)]
struct Taking {
    taken: Vec<u8>,
    room: usize,
    /// The most that it takes in a call.
    most: usize,
}

impl io::Write for Taking {
    fn write(&mut self, buf: &[u8]) -> io::Result<usize> {
        let count = buf.len().min(self.room).min(self.most);
        if count == 0 && !buf.is_empty() {
            return Err(io::Error::other("device full"));
        }
        if self.taken.extend_from_slice(&buf[..count]).is_err() {
            return Err(io::Error::from(ErrorKind::OutOfMemory));
        }
        self.room -= count;
        Ok(count)
    }

    fn flush(&mut self) -> io::Result<()> {
        Ok(())
    }
}

/// Writes to a device that has room for `budget` bytes, and takes three at most in a call where it is `slow`.
pub fn write_io(json: &mut String, alloc: Global, request: &Value) -> Result<()> {
    let room = count_of(member(request, "budget")?)?;
    let most = match request.get("slow") {
        Some(Value::Bool(true)) => 3,
        _ => usize::MAX,
    };
    let mut device = Taking {
        taken: Vec::new(alloc),
        room,
        most,
    };
    let answer = write_asked(alloc, request, &mut device)?;
    let taken = Taken {
        answer,
        bytes: device.taken.as_slice(),
    };
    Ok(push_taken(json, alloc, taken, detail_of(request))?)
}

/// What comes of writing the request's data to the device.
fn write_asked<W: io::Write>(
    alloc: Global,
    request: &Value,
    device: &mut W,
) -> Result<Result<(), Error>> {
    let data = data_of(alloc, member(request, "data")?)?;
    let written = write_data(alloc, request, device, &data);
    drop(data);
    written
}

fn write_data<W: io::Write>(
    alloc: Global,
    request: &Value,
    device: &mut W,
    data: &Data,
) -> Result<Result<(), Error>> {
    let writing = writing_of(alloc, request, "ext", "limit")?;
    Ok(write_bytes(alloc, device, data, writing))
}

fn write_bytes<W: io::Write>(
    alloc: Global,
    device: &mut W,
    data: &Data,
    writing: Writing,
) -> Result<(), Error> {
    let Writing {
        options,
        config,
        ..
    } = writing;
    options.to_sink_data(alloc, &mut Writer::new(device), data, config)
}

/// A writer of text that takes whole pieces while it has room for them.
#[derive(Drop)]
struct Fitting<'a> {
    text: &'a mut String,
    room: usize,
}

impl fmt::Write for Fitting<'_> {
    fn write_str(&mut self, s: &str) -> fmt::Result {
        if s.len() > self.room || self.text.push_str(s).is_err() {
            return Err(fmt::Error);
        }
        self.room -= s.len();
        Ok(())
    }
}

/// Writes to a writer of text that has room for `budget` bytes.
pub fn write_fmt(json: &mut String, alloc: Global, request: &Value) -> Result<()> {
    let room = count_of(member(request, "budget")?)?;
    let mut text = String::new(alloc);
    let writer = Fitting {
        text: &mut text,
        room,
    };
    let answer = write_text(alloc, request, writer)?;
    let taken = Taken {
        answer,
        bytes: text.as_bytes(),
    };
    Ok(push_taken(json, alloc, taken, detail_of(request))?)
}

/// What comes of writing the request's data to the writer of text.
fn write_text<W: fmt::Write + Drop>(
    alloc: Global,
    request: &Value,
    writer: W,
) -> Result<Result<(), Error>> {
    let data = data_of(alloc, member(request, "data")?)?;
    let written = write_text_of(alloc, request, writer, &data);
    drop(data);
    written
}

fn write_text_of<W: fmt::Write + Drop>(
    alloc: Global,
    request: &Value,
    writer: W,
    data: &Data,
) -> Result<Result<(), Error>> {
    let writing = writing_of(alloc, request, "ext", "limit")?;
    Ok(write_pieces(alloc, writer, data, writing))
}

fn write_pieces<W: fmt::Write + Drop>(
    alloc: Global,
    writer: W,
    data: &Data,
    writing: Writing,
) -> Result<(), Error> {
    let Writing {
        options,
        config,
        ..
    } = writing;
    let mut serializer = Serializer::with_options(alloc, writer, config, &options)?;
    serializer.write(data)
}

/// What came of writing, and what was taken until then.
#[derive(Drop)]
struct Taken<'a> {
    answer: Result<(), Error>,
    bytes: &'a [u8],
}

/// Appends what came of writing.
fn push_taken(
    json: &mut String,
    alloc: Global,
    taken: Taken,
    detail: Detail,
) -> Result<(), AllocError> {
    let Taken { answer, bytes } = taken;
    match answer {
        Ok(()) => json.push_str("\"ok\":null")?,
        Err(refused) => push_refused(json, alloc, refused, detail)?,
    }
    let text = String::from_utf8_lossy(alloc, bytes)?;
    json.push_str(",\"written\":")?;
    push_text(json, alloc, text.as_str())
}
