//! Types of one's own by the calls that take them.
use crate::asked::{push_ok, push_refused, push_refused_at};
use anyhow::{Result, bail};
use ron::error::Error;
use ron::schema::{Deserialize, Serialize};
use ron::value::{Value as Untyped, from_str as value_from_str, into_rust};
use ron::{from_str, to_string};
use ron_example_types::types::borrowed::Borrowed;
use ron_example_types::types::point::Point;
use ron_example_types::types::shape::Shape;
use ron_example_types::types::window::Window;
use ron_test_requests::json::{member, text_of};
use ron_test_requests::refusal::{Detail, detail_of};
use serde_json::Value;
use std::alloc::{AllocError, Global};

/// A text and what is told of an error.
#[derive(Clone, Copy)]
struct Asked<'a> {
    text: &'a str,
    detail: Detail,
}

/// Reads the text as the type of this name, by `from_str`, or where `value` is there as a value that `into_rust` then
/// converts. It appends what `to_string` writes of what was made.
pub fn push_typed(json: &mut String, alloc: Global, request: &Value) -> Result<()> {
    let asked = Asked {
        text: text_of(member(request, "text")?)?,
        detail: detail_of(request),
    };
    let is_value = request.get("value").is_some();
    match text_of(member(request, "type")?)? {
        "Borrowed" => Ok(push_made::<Borrowed>(json, alloc, asked, is_value)?),
        "Point" => Ok(push_made::<Point>(json, alloc, asked, is_value)?),
        "Shape" => Ok(push_made::<Shape>(json, alloc, asked, is_value)?),
        "Window" => Ok(push_made::<Window>(json, alloc, asked, is_value)?),
        other => bail!("no type {other}"),
    }
}

fn push_made<'a, T: Deserialize<'a> + Serialize>(
    json: &mut String,
    alloc: Global,
    asked: Asked<'a>,
    is_value: bool,
) -> Result<(), AllocError> {
    if is_value {
        return push_converted::<T>(json, alloc, asked);
    }
    match from_str::<T>(alloc, asked.text) {
        Ok(made) => push_written(json, alloc, made, asked.detail),
        Err(refused) => push_refused_at(json, alloc, refused, asked.detail),
    }
}

fn push_converted<'a, T: Deserialize<'a> + Serialize>(
    json: &mut String,
    alloc: Global,
    asked: Asked<'a>,
) -> Result<(), AllocError> {
    match value_from_str(alloc, asked.text) {
        Ok(value) => push_made_of::<T>(json, alloc, value, asked.detail),
        Err(refused) => push_refused_at(json, alloc, refused, asked.detail),
    }
}

fn push_made_of<'a, T: Deserialize<'a> + Serialize>(
    json: &mut String,
    alloc: Global,
    value: Untyped,
    detail: Detail,
) -> Result<(), AllocError> {
    match into_rust::<T>(alloc, value) {
        Ok(made) => push_written(json, alloc, made, detail),
        Err(refused) => push_refused(json, alloc, refused, detail),
    }
}

/// Appends the text of a value, and gives the value up.
fn push_written<T: Serialize + Drop>(
    json: &mut String,
    alloc: Global,
    made: T,
    detail: Detail,
) -> Result<(), AllocError> {
    let written: std::result::Result<String, Error> = to_string(alloc, &made);
    drop(made);
    match written {
        Ok(text) => push_ok(json, alloc, text.as_str()),
        Err(refused) => push_refused(json, alloc, refused, detail),
    }
}
