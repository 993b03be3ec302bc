//! Answers to lines.
use crate::operation::push_answer;
use crate::refused::push_refused;
use anyhow::Result;
use ron_test_requests::json::{ascii, push_text};
use serde_json::Value;
use std::alloc::{AllocError, Global};
use std::fmt::{Display, Write};

/// The answer to a line, as JSON in ASCII without blanks. It copies the request's `id` behind its other members. Of a
/// line that asks for nothing it says why under `bad_request`.
pub fn answer_to(alloc: Global, line: &[u8]) -> Result<String, AllocError> {
    let answer = match str::from_utf8(line) {
        Ok(text) => answer_to_text(alloc, text)?,
        Err(why) => bad_request(alloc, &why)?,
    };
    ascii(alloc, answer.as_str())
}

fn answer_to_text(alloc: Global, text: &str) -> Result<String, AllocError> {
    match Value::from_str(alloc, text) {
        Ok(request) => answer_with_id(alloc, &request),
        Err(why) => bad_request(alloc, &why),
    }
}

fn answer_with_id(alloc: Global, request: &Value) -> Result<String, AllocError> {
    let mut answer = match told_answer(alloc, request) {
        Ok(answer) => answer,
        Err(why) => bad_request(alloc, &why)?,
    };
    if let Some(id) = request.get("id") {
        answer.pop();
        write!(answer, ",\"id\":{id}}}")?;
    }
    Ok(answer)
}

/// The answer to a request, or, while memory is refused, to the one that it holds under `refuse`.
fn told_answer(alloc: Global, request: &Value) -> Result<String> {
    let Some(held) = request.get("refuse") else {
        return answer_of(alloc, request);
    };
    let mut answer = String::new(alloc);
    answer.push('{')?;
    push_refused(&mut answer, alloc, held)?;
    answer.push('}')?;
    Ok(answer)
}

/// The answer to a request that holds no other.
pub fn answer_of(alloc: Global, request: &Value) -> Result<String> {
    let mut answer = String::new(alloc);
    answer.push('{')?;
    push_answer(&mut answer, alloc, request)?;
    answer.push('}')?;
    Ok(answer)
}

fn bad_request<E: Display>(alloc: Global, why: &E) -> Result<String, AllocError> {
    let why = why.to_string(alloc)?;
    let mut answer = String::new(alloc);
    answer.push_str("{\"bad_request\":")?;
    push_text(&mut answer, alloc, why.as_str())?;
    answer.push('}')?;
    Ok(answer)
}
