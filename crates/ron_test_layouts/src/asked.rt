//! What a request asks for.

use anyhow::{Result, bail};
use ron_format::layout::{Indent, LastCommas, Layout, NewLine};
use serde_json::Value;
use std::alloc::Global;

/// The layout that a request asks for: the one that is meant where nothing is said, but for what it says.
pub fn layout_of(request: &Value) -> Result<Layout> {
    let mut layout = Layout::new();
    if let Some(width) = request.get("width") {
        layout = layout.width(count_of(width)?);
    }
    if let Some(indent) = request.get("indent") {
        layout = layout.indent(indent_of(indent)?);
    }
    if let Some(new_line) = request.get("new_line") {
        layout = layout.new_line(new_line_of(new_line)?);
    }
    if let Some(keeps) = request.get("keep_commas") {
        if is_told(keeps)? {
            layout = layout.last_commas(LastCommas::Keep);
        }
    }
    if let Some(keeps) = request.get("keep_breaks") {
        layout = layout.keep_breaks(is_told(keeps)?);
    }
    Ok(layout)
}

/// The text that a request asks for: it may be put in brackets, so many times.
pub fn text_of(alloc: Global, request: &Value) -> Result<String> {
    let mut text = String::new(alloc);
    push_times(&mut text, request, "before")?;
    text.push_str(member(request, "text")?)?;
    push_times(&mut text, request, "behind")?;
    Ok(text)
}

/// Appends a part of the text, as often as the request says.
fn push_times(text: &mut String, request: &Value, name: &str) -> Result<()> {
    let Some(part) = request.get(name) else {
        return Ok(());
    };
    let part = str_of(part)?;
    let times = match request.get("times") {
        Some(times) => count_of(times)?,
        None => 1,
    };
    for _ in 0..times {
        text.push_str(part)?;
    }
    Ok(())
}

/// The text with this name.
pub fn member<'a>(request: &'a Value, name: &str) -> Result<&'a str> {
    match request.get(name) {
        Some(member) => str_of(member),
        None => bail!("no {name}"),
    }
}

fn str_of(value: &Value) -> Result<&str> {
    match value.as_str() {
        Some(text) => Ok(text),
        None => bail!("no text: {value}"),
    }
}

fn count_of(value: &Value) -> Result<usize> {
    match value.as_u64() {
        Some(count) => Ok(usize::try_from(count)?),
        None => bail!("no number: {value}"),
    }
}

/// Whether the request says yes.
pub fn is_told(value: &Value) -> Result<bool> {
    match value.as_bool() {
        Some(is_true) => Ok(is_true),
        None => bail!("neither true nor false: {value}"),
    }
}

fn indent_of(value: &Value) -> Result<Indent> {
    if value.as_str() == Some("tab") {
        return Ok(Indent::Tab);
    }
    Ok(Indent::Spaces(count_of(value)?))
}

fn new_line_of(value: &Value) -> Result<NewLine> {
    match str_of(value)? {
        "lf" => Ok(NewLine::Lf),
        "crlf" => Ok(NewLine::Crlf),
        _ => bail!("no line end: {value}"),
    }
}
