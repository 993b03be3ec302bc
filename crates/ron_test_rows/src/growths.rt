//! How often a call asks for memory.
use crate::refused::{refuse, was_refused};
use anyhow::{Result, bail};
use ron::to_string;
use ron::value::Value;
use std::alloc::{AllocError, Global};

/// How many lists the value holds: a copy would ask for memory as often.
const LISTS: usize = 1000;

/// No text of the value grows as often.
const MOST: usize = 100;

/// Whether a value of many lists is written with no more growths than its text takes that is put together character by
/// character: so no part of it is copied.
pub fn is_written_as_it_stands(alloc: Global) -> Result<bool> {
    let value = lists(alloc)?;
    let text = to_string(alloc, &value)?;
    let number = first_behind(alloc, text.as_str())?;
    refuse(alloc, number)?;
    let holds = match to_string(alloc, &value) {
        Ok(again) => again == text,
        Err(_) => false,
    };
    Ok(!was_refused(alloc) && holds)
}

/// `[[()],[()],..]`
fn lists(alloc: Global) -> Result<Value, AllocError> {
    let mut items = Vec::new(alloc);
    for _ in 0..LISTS {
        items.push(Value::Seq(vec![in alloc; Value::Unit]?))?;
    }
    Ok(Value::Seq(items))
}

/// The number of the first growth that the text, put together by characters, doesn't take.
fn first_behind(alloc: Global, text: &str) -> Result<usize> {
    for number in 1..=MOST {
        refuse(alloc, number)?;
        let made = by_characters(alloc, text);
        if !was_refused(alloc) {
            return Ok(number);
        }
        drop(made);
    }
    bail!("a text that grows too often")
}

fn by_characters(alloc: Global, text: &str) -> Result<String, AllocError> {
    let mut made = String::new(alloc);
    for character in text.chars() {
        made.push(character)?;
    }
    Ok(made)
}
