//! Requests while a growth of memory is refused.
//!
//! This program refuses none. What stands between it and the C library can (`diff/refuse.c`): growths of the sizes below
//! tell that when to. By itself each growth is granted, so a request is answered once, as it is without.
use crate::answer::answer_of;
use anyhow::Result;
use ron_test_requests::json::separate;
use serde_json::Value;
use std::alloc::{AllocError, Global};
use std::fmt::Write;

/// A growth of so many bytes and n more asks that the n-th growth behind it be refused, or each one where n is 0.
const REFUSES: usize = 40_000_000;

/// A growth of so many bytes and n more asks that the n-th growth behind it be refused, and all behind that one.
const STARVES: usize = 41_000_000;

/// A growth of so many bytes ends that, and is refused itself where another one was.
const TELLS: usize = 39_999_999;

/// A growth of so many bytes ends that too, and changes nothing of what is told then.
const ENDS: usize = 39_999_998;

/// No growth behind so many others is refused.
const MOST: usize = 100_000;

/// A request, and its answer with ample memory.
#[derive(Clone, Copy)]
struct Asked<'a> {
    request: &'a Value,
    ample: &'a str,
}

/// Answers the request with ample memory, with each of its growths refused in turn, and with all from each one on. It
/// appends the ample answer, and behind the number of the growth each other one, or null where the request itself
/// couldn't be taken in.
pub fn push_refused(json: &mut String, alloc: Global, request: &Value) -> Result<()> {
    let ample = answer_of(alloc, request)?;
    write!(json, "\"ample\":{ample},\"refused\":[")?;
    let asked = Asked {
        request,
        ample: ample.as_str(),
    };
    push_others(json, alloc, asked, REFUSES)?;
    json.push_str("],\"starved\":[")?;
    push_others(json, alloc, asked, STARVES)?;
    Ok(json.push(']')?)
}

/// Appends each answer that is another one while growths are refused as a growth of `asking` bytes and more asks.
fn push_others(json: &mut String, alloc: Global, asked: Asked, asking: usize) -> Result<()> {
    for number in 1..=MOST {
        ask(alloc, asking.saturating_add(number))?;
        let answer = answer_of(alloc, asked.request);
        if !was_refused(alloc) {
            break;
        }
        push_other(json, number, asked.ample, answer)?;
    }
    Ok(())
}

fn push_other(
    json: &mut String,
    number: usize,
    ample: &str,
    answer: Result<String>,
) -> Result<(), AllocError> {
    let other = match &answer {
        Ok(answer) if answer.as_str() == ample => return Ok(()),
        Ok(answer) => answer.as_str(),
        Err(_) => "null",
    };
    separate(json)?;
    write!(json, "[{number},{other}]")
}

/// Asks that the growth of this number be refused, or each one where it is 0.
pub fn refuse(alloc: Global, number: usize) -> Result<(), AllocError> {
    ask(alloc, REFUSES.saturating_add(number))
}

fn ask(alloc: Global, bytes: usize) -> Result<(), AllocError> {
    let mut asking: Vec<u8> = Vec::with_capacity(alloc, bytes)?;
    Ok(asking.push(0)?)
}

/// No growth is refused from now on: what was answered can be told. `was_refused` still says whether one was.
pub fn end_refusing(alloc: Global) {
    let ending: Result<Vec<u8>, AllocError> = Vec::with_capacity(alloc, ENDS);
    drop(ending);
}

/// Whether a growth was refused since that was asked. None is from now on.
pub fn was_refused(alloc: Global) -> bool {
    let telling: Result<Vec<u8>, AllocError> = Vec::with_capacity(alloc, TELLS);
    telling.is_err()
}
