//! Faults as they are told: their file, place and message, with an excerpt of the text, in one line, or as JSON.
//!
//! It promises that the place of a fault is in the part of a long line that is shown, and that the carets under it stand
//! behind as many blanks as what is shown before it is wide.
#![tactic(auto)]

mod carets;
mod excerpt;
mod json;
mod shown;
mod window;

use ron_base::error::Span;
use std::alloc::{AllocError, Global};

/// How faults are told.
#[derive(Clone, Copy, Debug, PartialEq, Eq)]
pub enum Format {
    /// With excerpts of the text.
    Long,
    /// In one line each.
    Short,
    /// As a line of JSON each.
    Json,
}

/// Another place that helps to see a fault.
#[derive(Clone, Copy)]
pub struct Note<'a> {
    pub span: Span,
    pub message: &'a str,
}

/// A fault in a file. Lines and columns are counted from one, columns in characters.
#[derive(Clone, Copy)]
pub struct Fault<'a> {
    pub file: &'a str,
    pub span: Span,
    pub message: &'a str,
    pub note: Option<Note<'a>>,
}

/// A fault in a text, as it is told. It fails where no memory is found.
pub fn tell(
    alloc: Global,
    text: &str,
    fault: &Fault,
    format: Format,
) -> Result<String, AllocError> {
    let mut told = String::new(alloc);
    match format {
        Format::Long => push_long(alloc, &mut told, text, fault)?,
        Format::Short => push_short(alloc, &mut told, fault)?,
        Format::Json => json::push_json(alloc, &mut told, fault)?,
    }
    Ok(told)
}

/// Writes `file:line:column: message`.
fn push_short(alloc: Global, out: &mut String, fault: &Fault) -> Result<(), AllocError> {
    shown::push_text(out, fault.file)?;
    let start = fault.span.start;
    let place = format!(in alloc; ":{}:{}: ", start.line, start.col)?;
    out.push_str(place.as_str())?;
    shown::push_text(out, fault.message)?;
    out.push('\n')
}

/// Writes a fault with the lines of the text that it speaks of.
fn push_long(alloc: Global, out: &mut String, text: &str, fault: &Fault) -> Result<(), AllocError> {
    push_short(alloc, out, fault)?;
    excerpt::push_excerpt(alloc, out, text, fault.span)?;
    let Some(note) = fault.note else {
        return Ok(());
    };
    out.push_str("note: ")?;
    shown::push_text(out, note.message)?;
    out.push('\n')?;
    excerpt::push_excerpt(alloc, out, text, note.span)
}
