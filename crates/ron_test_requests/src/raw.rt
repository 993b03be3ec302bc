//! Raw texts by themselves.
use crate::json::{member, push_text, string_of, text_of};
use crate::refusal::{detail_of, push_refusal_at};
use anyhow::{Result, bail};
use ron_base::error::Error;
use ron_de_raw::raw::RawValue;
use serde_json::Value;
use std::alloc::Global;

/// Appends the text as a raw value, and what is left of it without its gaps.
pub fn push_raw(json: &mut String, alloc: Global, request: &Value) -> Result<()> {
    let text = member(request, "text")?;
    match RawValue::from_ron(alloc, text_of(text)?) {
        Ok(raw) => push_valid(json, alloc, &raw, text),
        Err(refused) => Ok(push_refusal_at(json, alloc, &refused, detail_of(request))?),
    }
}

fn push_valid(json: &mut String, alloc: Global, raw: &RawValue, text: &Value) -> Result<()> {
    json.push_str("\"ok\":{\"ron\":")?;
    push_text(json, alloc, raw.get_ron())?;
    push_trimmed(json, alloc, raw)?;
    push_trimmed_boxed(json, alloc, string_of(alloc, text)?)?;
    Ok(json.push('}')?)
}

fn push_trimmed(json: &mut String, alloc: Global, raw: &RawValue) -> Result<()> {
    let Ok(trimmed) = raw.trim(alloc) else {
        bail!("no memory")
    };
    json.push_str(",\"trim\":")?;
    Ok(push_text(json, alloc, trimmed.get_ron())?)
}

fn push_trimmed_boxed(json: &mut String, alloc: Global, text: String) -> Result<()> {
    let Ok(trimmed) = boxed(alloc, text) else {
        bail!("no memory")
    };
    json.push_str(",\"trim_boxed\":")?;
    Ok(push_text(json, alloc, trimmed.as_str())?)
}

/// The text without its gaps, by a raw value with a text of its own.
fn boxed(alloc: Global, text: String) -> Result<String, Error> {
    let raw = match RawValue::from_boxed_ron(text) {
        Ok(raw) => raw,
        Err(refused) => return Err(refused.code),
    };
    raw.try_clone()?.trim_boxed(alloc)?.into_string(alloc)
}
