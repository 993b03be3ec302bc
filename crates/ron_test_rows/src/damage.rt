//! Bytes that are damaged texts, read under sets of default extensions.
use crate::asked::{Reading, all_bytes, read_whole, reading_of};
use crate::turns::allowed;
use anyhow::Result;
use ron::error::{Error, Position, Span, SpannedResult};
use ron::extensions::Extensions;
use ron::schema::Schema;
use ron::{Deserializer, Options};
use ron_test_requests::extensions::{extensions_in, extensions_of};
use ron_test_requests::json::{count_of, items_of};
use serde_json::Value;
use std::alloc::{AllocError, Global};
use std::fmt::Write;

/// What is put in the place of a byte.
static MARKS: [u8; 8] = [0x00, b'"', b'\'', b'(', b',', b'\\', 0x80, 0xff];

/// What came of a damaged text.
#[derive(Drop)]
enum Outcome {
    Read,
    /// With a span in the front that is UTF-8, and whatever was asked of the reader afterwards too.
    Refused,
    /// Otherwise than promised.
    Broken,
}

/// How damaged texts are read, and how many readings came to what.
#[derive(Drop)]
struct Trial<'a> {
    schema: &'a Schema,
    options: &'a [Options],
    read: usize,
    refused: usize,
    broken: usize,
}

/// Reads each front of the text, and the text with each byte replaced by each of `MARKS`, once as a reader over bytes
/// does by itself, and with the request's limit under each of its `sets` of default extensions: all sixteen where it
/// names none. Where `every` is there, that is done at each so many places alone. It appends how many readings were Ok
/// and how many were refused; and how many broke a promise, where any did.
pub fn push_damage(json: &mut String, alloc: Global, request: &Value) -> Result<()> {
    let Reading {
        schema,
        options,
        input,
        ..
    } = reading_of(alloc, request)?;
    let options = all_options(alloc, request, options.recursion_limit)?;
    let every = request.get("every").map_or(Ok(1), count_of)?;
    let mut trial = Trial {
        schema: &schema,
        options: options.as_slice(),
        read: 0,
        refused: 0,
        broken: 0,
    };
    trial.read_all_damaged(alloc, all_bytes(&input), every)?;
    Ok(push_trial(json, trial)?)
}

/// The options under which damaged texts are read.
fn all_options(alloc: Global, request: &Value, limit: Option<usize>) -> Result<Vec<Options>> {
    let mut all = Vec::new(alloc);
    match request.get("sets") {
        None => {
            for bits in 0..16 {
                all.push(options_under(extensions_in(bits), limit))?;
            }
        }
        Some(sets) => {
            for bits in items_of(sets)? {
                all.push(options_under(extensions_of(bits)?, limit))?;
            }
        }
    }
    Ok(all)
}

fn options_under(default_extensions: Extensions, recursion_limit: Option<usize>) -> Options {
    Options {
        default_extensions,
        recursion_limit,
    }
}

fn push_trial(json: &mut String, trial: Trial) -> Result<(), AllocError> {
    let Trial {
        read,
        refused,
        broken,
        ..
    } = trial;
    write!(json, "\"ok\":{{\"read\":{read},\"refused\":{refused}}}")?;
    if broken != 0 {
        write!(json, ",\"broken\":{broken}")?;
    }
    Ok(())
}

impl Trial<'_> {
    fn read_all_damaged(
        &mut self,
        alloc: Global,
        text: &[u8],
        every: usize,
    ) -> Result<(), AllocError> {
        for place in 0..=text.len() {
            if place.checked_rem(every) == Some(0) {
                let (front, rest) = text.split_at(place);
                self.read_damaged(alloc, front, rest)?;
            }
        }
        Ok(())
    }

    /// Reads the front, and all with the byte behind it replaced by each of `MARKS`.
    fn read_damaged(&mut self, alloc: Global, front: &[u8], rest: &[u8]) -> Result<(), AllocError> {
        self.read_under_all(alloc, front);
        let Some((_, behind)) = rest.split_first() else {
            return Ok(());
        };
        for mark in MARKS {
            let damaged = joined(alloc, front, mark, behind)?;
            self.read_under_all(alloc, damaged.as_slice());
        }
        Ok(())
    }

    fn read_under_all(&mut self, alloc: Global, text: &[u8]) {
        self.count(outcome_of(text, Deserializer::from_bytes(alloc, text), self.schema));
        let options = self.options;
        for options in options {
            let reader = Deserializer::from_bytes_with_options(alloc, text, options);
            self.count(outcome_of(text, reader, self.schema));
        }
    }

    fn count(&mut self, outcome: Outcome) {
        match outcome {
            Outcome::Read => self.read = self.read.saturating_add(1),
            Outcome::Refused => self.refused = self.refused.saturating_add(1),
            Outcome::Broken => self.broken = self.broken.saturating_add(1),
        }
    }
}

fn joined(alloc: Global, front: &[u8], mark: u8, behind: &[u8]) -> Result<Vec<u8>, AllocError> {
    let mut bytes = front.to_vec(alloc)?;
    bytes.push(mark)?;
    bytes.extend_from_slice(behind)?;
    Ok(bytes)
}

fn outcome_of(text: &[u8], reader: SpannedResult<Deserializer>, schema: &Schema) -> Outcome {
    match reader {
        Ok(reader) => outcome_by(text, reader, schema),
        Err(refused) => refused_at(text, refused.span),
    }
}

fn outcome_by(text: &[u8], reader: Deserializer, schema: &Schema) -> Outcome {
    let mut reader = reader;
    match read_whole(&mut reader, schema) {
        Ok(()) if is_within(text, &reader, schema) => Outcome::Read,
        Ok(()) => Outcome::Broken,
        Err(code) => outcome_of_refusal(text, &mut reader, schema, code),
    }
}

/// Whether the reader went over no more than promised, and is still in the text.
fn is_within(text: &[u8], reader: &Deserializer, schema: &Schema) -> bool {
    reader.turns() <= allowed(text.len(), schema.chain())
        && text.ends_with(reader.remainder().as_bytes())
}

fn outcome_of_refusal(
    text: &[u8],
    reader: &mut Deserializer,
    schema: &Schema,
    code: Error,
) -> Outcome {
    let is_within = is_within(text, reader, schema);
    let span = reader.span_error(code).span;
    if is_within && refuses_all(reader, schema) {
        refused_at(text, span)
    } else {
        Outcome::Broken
    }
}

/// Whether the reader answers `Failed` to whatever it is asked, and stays where it is.
fn refuses_all(reader: &mut Deserializer, schema: &Schema) -> bool {
    let left = reader.remainder().len();
    let is_read_refused = has_failed(reader.read(schema));
    is_read_refused && has_failed(reader.end()) && reader.remainder().len() == left
}

fn has_failed<T: Drop>(answer: Result<T, Error>) -> bool {
    let has_failed = matches!(&answer, Err(Error::Failed));
    drop(answer);
    has_failed
}

fn refused_at(text: &[u8], span: Span) -> Outcome {
    let valid = valid_front(text);
    if span.start <= span.end && has_position(valid, span.start) && has_position(valid, span.end) {
        Outcome::Refused
    } else {
        Outcome::Broken
    }
}

/// The longest front that is UTF-8.
fn valid_front(bytes: &[u8]) -> &str {
    match str::from_utf8(bytes) {
        Ok(text) => text,
        Err(fault) => match str::from_utf8(&bytes[..fault.valid_up_to()]) {
            Ok(text) => text,
            Err(_) => "",
        },
    }
}

/// Whether the text has a line of this number, and the line this column, the one behind its last character too.
fn has_position(text: &str, position: Position) -> bool {
    if position.line == 0 || position.col == 0 {
        return false;
    }
    match text.split('\n').nth(position.line - 1) {
        Some(line) => position.col - 1 <= line.chars().count(),
        None => false,
    }
}
