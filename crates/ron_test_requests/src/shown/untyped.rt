//! Untyped values as JSON.
use super::{push_bytes_part, push_char_part, push_kind, push_number, push_text_part};
use crate::json::separate;
use ron_value::value::Value;
use std::alloc::{AllocError, Global};
use std::fmt::Write;

/// A value, a map's keys in order.
#[cycle(untyped)]
pub fn push_untyped(json: &mut String, alloc: Global, value: &Value) -> Result<(), AllocError> {
    if let Value::Number(number) = value {
        return push_number(json, *number);
    }
    push_kind(json, kind_of(value))?;
    push_parts(json, alloc, value)?;
    Ok(json.push(']')?)
}

fn kind_of(value: &Value) -> &'static str {
    match value {
        Value::Bool(_) => "bool",
        Value::Char(_) => "char",
        Value::Map(_) => "map",
        Value::Number(_) => "number",
        Value::Option(None) => "none",
        Value::Option(Some(_)) => "some",
        Value::String(_) => "str",
        Value::Bytes(_) => "bytes",
        Value::Seq(_) => "seq",
        Value::Unit => "unit",
    }
}

#[cycle(untyped)]
fn push_parts(json: &mut String, alloc: Global, value: &Value) -> Result<(), AllocError> {
    match value {
        Value::Bool(b) => write!(json, ",{b}"),
        Value::Char(character) => push_char_part(json, alloc, *character),
        Value::Map(map) => push_pairs(json, alloc, map.as_slice()),
        Value::Option(Some(held)) => {
            json.push(',')?;
            push_untyped(json, alloc, held)
        }
        Value::String(text) => push_text_part(json, alloc, text.as_str()),
        Value::Bytes(bytes) => push_bytes_part(json, alloc, bytes.as_slice()),
        Value::Seq(items) => push_items(json, alloc, items.as_slice()),
        Value::Number(_) | Value::Option(None) | Value::Unit => Ok(()),
    }
}

#[cycle(untyped)]
fn push_items(json: &mut String, alloc: Global, items: &[Value]) -> Result<(), AllocError> {
    json.push_str(",[")?;
    for item in items {
        separate(json)?;
        push_untyped(json, alloc, item)?;
    }
    Ok(json.push(']')?)
}

#[cycle(untyped)]
fn push_pairs(
    json: &mut String,
    alloc: Global,
    pairs: &[(Value, Value)],
) -> Result<(), AllocError> {
    json.push_str(",[")?;
    for (key, value) in pairs {
        separate(json)?;
        json.push('[')?;
        push_untyped(json, alloc, key)?;
        json.push(',')?;
        push_untyped(json, alloc, value)?;
        json.push(']')?;
    }
    Ok(json.push(']')?)
}
