//! Refusals in JSON.
ghost use Rattle.std.specs.Prelude.{◌≡◌, ◌++◌, codes, IfOk, string_bytes};

use crate::json::push_text;
use ron_base::error::{Error, Span, SpannedError};
use serde_json::Value;
use std::alloc::{AllocError, Global};
use std::fmt::Write;

/// How much an answer tells of an error.
#[derive(Clone, Copy)]
pub enum Detail {
    /// That there is one.
    None,
    /// Its kind, its message, and its span where it has one.
    All,
}

/// Appends an error that has no place in a text, as members of the answer.
pub fn push_refusal(
    json: &mut String,
    alloc: Global,
    error: &Error,
    detail: Detail,
) -> Result<(), AllocError>
    ensures { detail ≡ Detail.None → IfOk result (λ _.
        string_bytes json.new ≡ string_bytes json.old ++ codes "\"err\":null") }
{
    match detail {
        Detail::None => Ok(json.push_str("\"err\":null")?),
        Detail::All => push_told(json, alloc, error),
    }
}

/// Appends an error at a place of a text.
pub fn push_refusal_at(
    json: &mut String,
    alloc: Global,
    refused: &SpannedError,
    detail: Detail,
) -> Result<(), AllocError> {
    push_refusal(json, alloc, &refused.code, detail)?;
    match detail {
        Detail::None => Ok(()),
        Detail::All => push_span(json, refused.span),
    }
}

fn push_told(json: &mut String, alloc: Global, error: &Error) -> Result<(), AllocError> {
    let message = error.to_string(alloc)?;
    json.push_str("\"err\":")?;
    push_text(json, alloc, message.as_str())?;
    let shown = format!(in alloc; "{error:?}")?;
    write!(json, ",\"kind\":\"{}\"", kind_in(shown.as_str()))
}

/// The name of the error's case, which stands first where an error is shown.
fn kind_in(shown: &str) -> &str {
    match shown.find(|c: char| !c.is_ascii_alphanumeric()) {
        Some(end) => &shown[..end],
        None => shown,
    }
}

fn push_span(json: &mut String, span: Span) -> Result<(), AllocError> {
    let (start, end) = (span.start, span.end);
    write!(
        json,
        ",\"span\":[{},{},{},{}]",
        start.line, start.col, end.line, end.col
    )
}

/// What `show` asks for.
pub fn detail_of(request: &Value) -> Detail {
    match request.get("show") {
        Some(Value::Bool(true)) => Detail::All,
        _ => Detail::None,
    }
}
