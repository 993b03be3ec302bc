//! Faults as JSON.
use crate::{Fault, Note};
use serde_json::{Value, json};
use std::alloc::{AllocError, Global};

/// Writes a fault as a line of JSON.
pub(crate) fn push_json(alloc: Global, out: &mut String, fault: &Fault) -> Result<(), AllocError> {
    let note = note_value(alloc, fault.note)?;
    let span = fault.span;
    let value = json!(in alloc; {
        "file": fault.file,
        "line": span.start.line,
        "column": span.start.col,
        "end_line": span.end.line,
        "end_column": span.end.col,
        "message": fault.message,
        "note": note
    })?;
    let line = value.to_string(alloc)?;
    out.push_str(line.as_str())?;
    out.push('\n')
}

/// A note as JSON, `null` where there is none.
fn note_value(alloc: Global, note: Option<Note>) -> Result<Value, AllocError> {
    let Some(note) = note else {
        return Ok(Value::Null);
    };
    let span = note.span;
    json!(in alloc; {
        "line": span.start.line,
        "column": span.start.col,
        "end_line": span.end.line,
        "end_column": span.end.col,
        "message": note.message
    })
}
