//! Answers to lines.

use crate::asked::{is_told, layout_of, text_of};
use anyhow::Result;
use ron_base::error::{Position, SpannedError};
use ron_format::document::Document;
use ron_format::layout::Layout;
use ron_format::{Refusal, format, is_formatted};
use serde_json::Value;
use std::alloc::{AllocError, Global};
use std::fmt::{Display, Write};

/// What is asked for.
#[derive(Clone, Copy)]
struct Asked<'a> {
    text: &'a str,
    layout: &'a Layout,
    /// Whether only the size of the text is told.
    is_size: bool,
}

/// The answer to a line, as JSON. Of a line that asks for nothing it says why under `bad_request`.
pub fn answer_to(alloc: Global, line: &[u8]) -> Result<String, AllocError> {
    let answer = match str::from_utf8(line) {
        Ok(text) => told_answer(alloc, text),
        Err(why) => Err(anyhow::Error::from(why)),
    };
    match answer {
        Ok(answer) => Ok(answer),
        Err(why) => bad_request(alloc, &why),
    }
}

fn bad_request<E: Display>(alloc: Global, why: &E) -> Result<String, AllocError> {
    let mut answer = String::new(alloc);
    let why = why.to_string(alloc)?;
    push_member(&mut answer, alloc, "bad_request", why.as_str())?;
    answer.push('}')?;
    Ok(answer)
}

/// The answer to a request.
fn told_answer(alloc: Global, line: &str) -> Result<String> {
    let request = Value::from_str(alloc, line)?;
    let layout = layout_of(&request)?;
    let text = text_of(alloc, &request)?;
    let asked = Asked {
        text: text.as_str(),
        layout: &layout,
        is_size: match request.get("size") {
            Some(size) => is_told(size)?,
            None => false,
        },
    };
    let mut answer = String::new(alloc);
    push_answer(&mut answer, alloc, asked)?;
    answer.push('}')?;
    Ok(answer)
}

/// Appends the text laid out, or why it isn't, and whether it was before.
fn push_answer(answer: &mut String, alloc: Global, asked: Asked) -> Result<()> {
    let laid = match format(alloc, asked.text, asked.layout) {
        Ok(laid) => laid,
        Err(error) => return push_refusal(answer, alloc, asked.text, &error),
    };
    if asked.is_size {
        write!(answer, "{{\"size\":{}", laid.len())?;
    } else {
        push_member(answer, alloc, "ok", laid.as_str())?;
    }
    match is_formatted(alloc, asked.text, asked.layout) {
        Ok(true) => answer.push_str(",\"is_formatted\":true")?,
        Ok(false) => {}
        Err(error) => return push_refusal(answer, alloc, asked.text, &error),
    }
    Ok(())
}

/// Appends why a text isn't laid out.
fn push_refusal(
    answer: &mut String,
    alloc: Global,
    text: &str,
    error: &SpannedError,
) -> Result<()> {
    let why = error.code.to_string(alloc)?;
    push_member(answer, alloc, "err", why.as_str())?;
    answer.push_str(",\"span\":[")?;
    push_position(answer, error.span.start)?;
    answer.push(',')?;
    push_position(answer, error.span.end)?;
    answer.push(']')?;
    if let Err(refusal) = Document::of(alloc, text) {
        push_opened(answer, &refusal)?;
    }
    Ok(())
}

/// Appends where the bracket at fault was opened.
fn push_opened(answer: &mut String, refusal: &Refusal) -> Result<()> {
    if let Some(opened) = refusal.opened {
        answer.push_str(",\"opened\":[")?;
        push_position(answer, opened)?;
        answer.push(']')?;
    }
    Ok(())
}

fn push_position(answer: &mut String, position: Position) -> Result<()> {
    write!(answer, "{},{}", position.line, position.col)?;
    Ok(())
}

/// Opens an object, with this text as its first member.
fn push_member(
    answer: &mut String,
    alloc: Global,
    name: &str,
    text: &str,
) -> Result<(), AllocError> {
    let text = Value::try_from_str(alloc, text)?;
    write!(answer, "{{\"{name}\":{text}")
}
