//! The parts of a request, and JSON in ASCII.
ghost use Rattle.std.specs.Prelude.{◌≡◌, Some, IfOk, option_and_then, string_bytes};
ghost use Rattle.serde_json.specs.Find.{get, as_str, as_number, as_u64};
ghost use Rattle.serde_json.specs.View.{view};

use anyhow::{Result, bail};
use serde_json::Value;
use std::alloc::{AllocError, Global};
use std::fmt::Write;

/// The member of this name, which has to be there.
pub fn member<'a>(value: &'a Value, name: &str) -> Result<&'a Value>
    ensures { IfOk result (λ m. get name.now (view value.now) ≡ Some (view m.now)) }
{
    match value.get(name) {
        Some(member) => Ok(member),
        None => bail!("no {name}"),
    }
}

pub fn text_of(value: &Value) -> Result<&str>
    ensures { IfOk result (λ t. as_str (view value.now) ≡ Some t.now) }
{
    match value.as_str() {
        Some(text) => Ok(text),
        None => bail!("no text: {value}"),
    }
}

/// The character that a text of one character holds.
pub fn character_of(value: &Value) -> Result<char> {
    let mut characters = text_of(value)?.chars();
    match (characters.next(), characters.next()) {
        (Some(character), None) => Ok(character),
        _ => bail!("no character: {value}"),
    }
}

pub fn items_of(value: &Value) -> Result<&[Value]> {
    match value {
        Value::Array(items) => Ok(items.as_slice()),
        _ => bail!("no list: {value}"),
    }
}

/// A number, as of levels or of a place in a list.
pub fn count_of(value: &Value) -> Result<usize>
    ensures { IfOk result (λ n. option_and_then as_u64 (as_number (view value.now)) ≡ Some n) }
{
    match value.as_u64() {
        Some(count) => Ok(usize::try_from(count)?),
        None => bail!("no number: {value}"),
    }
}

/// A copy of a text.
pub fn string_of(alloc: Global, value: &Value) -> Result<String>
    ensures { IfOk result (λ s. as_str (view value.now) ≡ Some (string_bytes s)) }
{
    Ok(String::from_str(alloc, text_of(value)?)?)
}

/// Appends a text as JSON.
pub fn push_text(json: &mut String, alloc: Global, text: &str) -> Result<(), AllocError> {
    let text = Value::try_from_str(alloc, text)?;
    write!(json, "{text}")
}

/// Appends a comma, unless a list or an object was only just opened.
pub fn separate(json: &mut String) -> Result<(), AllocError> {
    match json.as_bytes().last() {
        None | Some(b'[' | b'{') => Ok(()),
        Some(_) => Ok(json.push(',')?),
    }
}

/// JSON with each character past ASCII in escapes. Such characters stand in strings alone.
pub fn ascii(alloc: Global, json: &str) -> Result<String, AllocError> {
    let mut escaped = String::new(alloc);
    for character in json.chars() {
        push_ascii(&mut escaped, character)?;
    }
    Ok(escaped)
}

fn push_ascii(escaped: &mut String, character: char) -> Result<(), AllocError> {
    if character <= '~' {
        return Ok(escaped.push(character)?);
    }
    let mut units = [0u16; 2];
    for unit in character.encode_utf16(&mut units).iter() {
        write!(escaped, "\\u{unit:04x}")?;
    }
    Ok(())
}
