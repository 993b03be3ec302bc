//! What a request gives to be read and to be written.
use crate::options::options_of;
use crate::refused::end_refusing;
use anyhow::Result;
use ron::error::{Error, SpannedError, SpannedResult};
use ron::schema::{Data, Schema};
use ron::ser::PrettyConfig;
use ron::{Deserializer, Options};
use ron_test_requests::config::config_of;
use ron_test_requests::json::{count_of, member, push_text, string_of, text_of};
use ron_test_requests::refusal::{Detail, detail_of, push_refusal, push_refusal_at};
use ron_test_requests::schema::schema_of;
use ron_test_requests::shown::push_data;
use serde_json::Value;
use std::alloc::{AllocError, Global};

/// A text, or bytes that may be none.
#[derive(Drop)]
pub enum Input {
    Text(String),
    Bytes(Vec<u8>),
}

/// The request's `text`, or the bytes that its `hex` tells.
pub fn input_of(alloc: Global, request: &Value) -> Result<Input> {
    match request.get("hex") {
        Some(digits) => Ok(Input::Bytes(hex::decode(alloc, text_of(digits)?)?)),
        None => Ok(Input::Text(string_of(alloc, member(request, "text")?)?)),
    }
}

/// The input's bytes, whatever it is.
pub fn all_bytes(input: &Input) -> &[u8] {
    match input {
        Input::Text(text) => text.as_bytes(),
        Input::Bytes(bytes) => bytes.as_slice(),
    }
}

/// How something is to be read.
#[derive(Drop)]
pub struct Reading {
    pub schema: Schema,
    pub options: Options,
    pub input: Input,
    pub detail: Detail,
}

pub fn reading_of(alloc: Global, request: &Value) -> Result<Reading> {
    let root = request.get("root").map_or(Ok(0), count_of)?;
    Ok(Reading {
        schema: schema_of(alloc, request, root)?,
        options: options_of(request, "ext", "limit")?,
        input: input_of(alloc, request)?,
        detail: detail_of(request),
    })
}

pub fn read_input<'a>(
    alloc: Global,
    input: &'a Input,
    options: &Options,
    schema: &Schema,
) -> SpannedResult<Data<'a>> {
    match input {
        Input::Text(text) => options.from_str_seed(alloc, text.as_str(), schema),
        Input::Bytes(bytes) => options.from_bytes_seed(alloc, bytes.as_slice(), schema),
    }
}

/// Reads one value and the end of the text.
pub fn read_whole(reader: &mut Deserializer, schema: &Schema) -> std::result::Result<(), Error> {
    reader.read(schema)?;
    reader.end()
}

/// Appends what was read, or why nothing was.
pub fn push_read(
    json: &mut String,
    alloc: Global,
    answer: SpannedResult<Data>,
    detail: Detail,
) -> Result<(), AllocError> {
    match answer {
        Ok(data) => push_data_ok(json, alloc, data),
        Err(refused) => push_refused_at(json, alloc, refused, detail),
    }
}

/// Appends data that was read or made, and gives it up.
pub fn push_data_ok(json: &mut String, alloc: Global, data: Data) -> Result<(), AllocError> {
    end_refusing(alloc);
    push_data_between(json, alloc, data)
}

/// Appends data behind which more is asked for, and gives it up.
pub fn push_data_between(json: &mut String, alloc: Global, data: Data) -> Result<(), AllocError> {
    let shown = push_shown(json, alloc, &data);
    drop(data);
    shown
}

/// Appends why nothing was made, and gives it up.
pub fn push_refused(
    json: &mut String,
    alloc: Global,
    refused: Error,
    detail: Detail,
) -> Result<(), AllocError> {
    end_refusing(alloc);
    let told = push_refusal(json, alloc, &refused, detail);
    drop(refused);
    told
}

/// Appends why nothing was read, and where, likewise.
pub fn push_refused_at(
    json: &mut String,
    alloc: Global,
    refused: SpannedError,
    detail: Detail,
) -> Result<(), AllocError> {
    end_refusing(alloc);
    push_refused_between(json, alloc, refused, detail)
}

/// Appends why nothing was read, behind which more is asked for, likewise.
pub fn push_refused_between(
    json: &mut String,
    alloc: Global,
    refused: SpannedError,
    detail: Detail,
) -> Result<(), AllocError> {
    let told = push_refusal_at(json, alloc, &refused, detail);
    drop(refused);
    told
}

fn push_shown(json: &mut String, alloc: Global, data: &Data) -> Result<(), AllocError> {
    json.push_str("\"ok\":")?;
    push_data(json, alloc, data)
}

/// Appends a text that was written.
pub fn push_ok(json: &mut String, alloc: Global, text: &str) -> Result<(), AllocError> {
    end_refusing(alloc);
    json.push_str("\"ok\":")?;
    push_text(json, alloc, text)
}

/// How data is to be written.
#[derive(Drop)]
pub struct Writing {
    pub options: Options,
    pub config: Option<PrettyConfig>,
    pub detail: Detail,
}

pub fn writing_of(
    alloc: Global,
    request: &Value,
    extensions: &str,
    limit: &str,
) -> Result<Writing> {
    Ok(Writing {
        options: options_of(request, extensions, limit)?,
        config: config_of(alloc, request)?,
        detail: detail_of(request),
    })
}
