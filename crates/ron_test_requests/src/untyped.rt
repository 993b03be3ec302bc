//! Untyped values of requests.
use crate::data::number_of;
use crate::json::{character_of, string_of, text_of};
use anyhow::{Result, bail};
use ron_value::Map;
use ron_value::value::Value as Untyped;
use serde_json::Value;
use std::alloc::Global;

/// The value of `[kind]` or `[kind, part]`.
#[cycle(untyped)]
pub fn untyped_of(alloc: Global, value: &Value) -> Result<Untyped> {
    match value {
        Value::Array(items) => match items.as_slice() {
            [kind] => bare_of(text_of(kind)?),
            [kind, part] => held_of(alloc, text_of(kind)?, part),
            _ => bail!("no value: {value}"),
        },
        _ => bail!("no value: {value}"),
    }
}

/// A value that is a word alone.
fn bare_of(kind: &str) -> Result<Untyped> {
    match kind {
        "unit" => Ok(Untyped::Unit),
        "none" => Ok(Untyped::Option(None)),
        _ => bail!("no value {kind}"),
    }
}

#[cycle(untyped)]
fn held_of(alloc: Global, kind: &str, part: &Value) -> Result<Untyped> {
    match (kind, part) {
        ("bool", Value::Bool(b)) => Ok(Untyped::Bool(*b)),
        ("char", _) => Ok(Untyped::Char(character_of(part)?)),
        ("str", _) => Ok(Untyped::String(string_of(alloc, part)?)),
        ("bytes", _) => Ok(Untyped::Bytes(hex::decode(alloc, text_of(part)?)?)),
        ("some", _) => {
            let held = untyped_of(alloc, part)?;
            Ok(Untyped::Option(Some(Box::new(alloc, held)?)))
        }
        ("seq", Value::Array(items)) => items_in(alloc, items.as_slice()).map(Untyped::Seq),
        ("map", Value::Array(pairs)) => map_of(pairs_in(alloc, pairs.as_slice())?),
        (width, _) => Ok(Untyped::Number(number_of(width, text_of(part)?)?)),
    }
}

#[cycle(untyped)]
fn items_in(alloc: Global, list: &[Value]) -> Result<Vec<Untyped>> {
    let mut items = Vec::new(alloc);
    for item in list {
        items.push(untyped_of(alloc, item)?)?;
    }
    Ok(items)
}

/// The pairs of `[key, value]`.
#[cycle(untyped)]
fn pairs_in(alloc: Global, list: &[Value]) -> Result<Vec<(Untyped, Untyped)>> {
    let mut pairs = Vec::new(alloc);
    for pair in list {
        pairs.push(entry_of(alloc, pair)?)?;
    }
    Ok(pairs)
}

#[cycle(untyped)]
fn entry_of(alloc: Global, pair: &Value) -> Result<(Untyped, Untyped)> {
    match pair {
        Value::Array(items) => match items.as_slice() {
            [key, value] => {
                let key = untyped_of(alloc, key)?;
                Ok((key, untyped_of(alloc, value)?))
            }
            _ => bail!("no pair: {pair}"),
        },
        _ => bail!("no pair: {pair}"),
    }
}

fn map_of(pairs: Vec<(Untyped, Untyped)>) -> Result<Untyped> {
    match Map::from_pairs(pairs) {
        Ok(map) => Ok(Untyped::Map(map)),
        Err(refused) => bail!("{refused}"),
    }
}
