//! What can be asked.
use crate::asked::{
    Input, Reading, Writing, input_of, push_data_between, push_data_ok, push_ok, push_read,
    push_refused, push_refused_at, push_refused_between, read_input, reading_of, writing_of,
};
use crate::damage::push_damage;
use crate::deep::push_deep;
use crate::devices::{read_io, write_fmt, write_io};
use crate::options::options_of;
use crate::refused::end_refusing;
use crate::spare::push_spare;
use crate::turns::push_turns;
use crate::typed::push_typed;
use anyhow::{Result, bail};
use ron::error::{Error, SpannedResult};
use ron::schema::{AnyValue, Data, Schema, Shape};
use ron::value::{Value as Untyped, from_str};
use ron::{Deserializer, Options};
use ron_data_convert::into_data;
use ron_test_requests::data::data_of;
use ron_test_requests::error::error_of;
use ron_test_requests::json::{count_of, items_of, member, push_text, separate, text_of};
use ron_test_requests::raw::push_raw;
use ron_test_requests::refusal::{Detail, detail_of};
use ron_test_requests::schema::schema_of;
use ron_test_requests::shown::{push_data, push_untyped};
use ron_test_requests::untyped::untyped_of;
use serde_json::Value;
use std::alloc::{AllocError, Global};

/// Does what the request asks for by its `op`, and appends the members of the answer.
pub fn push_answer(json: &mut String, alloc: Global, request: &Value) -> Result<()> {
    match text_of(member(request, "op")?)? {
        "read" => read(json, alloc, request),
        "value" | "bytes" => value(json, alloc, request),
        "value_from_str" => {
            let answer = from_str(alloc, text_of(member(request, "text")?)?);
            Ok(push_value(json, alloc, answer, detail_of(request))?)
        }
        "write" => write_asked(json, alloc, request),
        "rewrite" => {
            let writing = writing_of(alloc, request, "wext", "wlimit")?;
            Ok(rewrite(json, alloc, &reading_of(alloc, request)?, writing)?)
        }
        "steps" => steps(json, alloc, request),
        "raw" => push_raw(json, alloc, request),
        "into" => converted(json, alloc, request),
        "damage" => push_damage(json, alloc, request),
        "typed" => push_typed(json, alloc, request),
        "turns" => push_turns(json, alloc, request),
        "spare" => push_spare(json, alloc),
        "deep" => push_deep(json, alloc, request),
        "read_io" => read_io(json, alloc, request),
        "write_io" => write_io(json, alloc, request),
        "write_fmt" => write_fmt(json, alloc, request),
        "error" => message(json, alloc, request),
        other => bail!("no op {other}"),
    }
}

fn read(json: &mut String, alloc: Global, request: &Value) -> Result<()> {
    let Reading {
        schema,
        options,
        input,
        detail,
    } = reading_of(alloc, request)?;
    let answer = read_input(alloc, &input, &options, &schema);
    Ok(push_read(json, alloc, answer, detail)?)
}

/// Converts an untyped value to data.
fn converted(json: &mut String, alloc: Global, request: &Value) -> Result<()> {
    let schema = schema_of(alloc, request, 0)?;
    let value = untyped_of(alloc, member(request, "value")?)?;
    match into_data(alloc, value, &schema) {
        Ok(data) => Ok(push_data_ok(json, alloc, data)?),
        Err(refused) => Ok(push_refused(json, alloc, refused, detail_of(request))?),
    }
}

/// Reads an untyped value.
fn value(json: &mut String, alloc: Global, request: &Value) -> Result<()> {
    push_value_read(json, alloc, &untyped_reading_of(alloc, request)?)
}

fn untyped_reading_of(alloc: Global, request: &Value) -> Result<Reading> {
    let input = input_of(alloc, request)?;
    let Ok(schema) = Schema::new(vec![in alloc; Shape::Value]?, 0) else {
        bail!("no memory")
    };
    Ok(Reading {
        schema,
        options: options_of(request, "ext", "limit")?,
        input,
        detail: detail_of(request),
    })
}

fn push_value_read(json: &mut String, alloc: Global, asked: &Reading) -> Result<()> {
    match read_input(alloc, &asked.input, &asked.options, &asked.schema) {
        Ok(Data::Value(value)) => Ok(push_value_ok(json, alloc, value)?),
        Ok(_) => bail!("no value"),
        Err(refused) => Ok(push_refused_at(json, alloc, refused, asked.detail)?),
    }
}

fn push_value(
    json: &mut String,
    alloc: Global,
    answer: SpannedResult<Untyped>,
    detail: Detail,
) -> Result<(), AllocError> {
    match answer {
        Ok(value) => push_value_ok(json, alloc, AnyValue::Owned(value)),
        Err(refused) => push_refused_at(json, alloc, refused, detail),
    }
}

fn push_value_ok(json: &mut String, alloc: Global, value: AnyValue) -> Result<(), AllocError> {
    end_refusing(alloc);
    let shown = push_shown_value(json, alloc, value.as_value());
    drop(value);
    shown
}

fn push_shown_value(json: &mut String, alloc: Global, value: &Untyped) -> Result<(), AllocError> {
    json.push_str("\"ok\":")?;
    push_untyped(json, alloc, value)
}

/// Data is written whatever schema stands beside it.
fn write_asked(json: &mut String, alloc: Global, request: &Value) -> Result<()> {
    let data = data_of(alloc, member(request, "data")?)?;
    let written = write_data(json, alloc, request, &data);
    drop(data);
    written
}

fn write_data(json: &mut String, alloc: Global, request: &Value, data: &Data) -> Result<()> {
    let writing = writing_of(alloc, request, "ext", "limit")?;
    Ok(push_written(json, alloc, data, writing)?)
}

fn push_written(
    json: &mut String,
    alloc: Global,
    data: &Data,
    writing: Writing,
) -> Result<(), AllocError> {
    let Writing {
        options,
        config,
        detail,
    } = writing;
    match options.to_string_data(alloc, data, config) {
        Ok(text) => push_ok(json, alloc, text.as_str()),
        Err(refused) => push_refused(json, alloc, refused, detail),
    }
}

/// Reads, and writes what was read.
fn rewrite(
    json: &mut String,
    alloc: Global,
    asked: &Reading,
    writing: Writing,
) -> Result<(), AllocError> {
    match read_input(alloc, &asked.input, &asked.options, &asked.schema) {
        Ok(data) => {
            let both = push_both(json, alloc, &data, writing);
            drop(data);
            both
        }
        Err(refused) => push_refused_at(json, alloc, refused, asked.detail),
    }
}

/// Appends what was read and what of that was written.
fn push_both(
    json: &mut String,
    alloc: Global,
    data: &Data,
    writing: Writing,
) -> Result<(), AllocError> {
    json.push_str("\"data\":")?;
    push_data(json, alloc, data)?;
    json.push(',')?;
    push_written(json, alloc, data, writing)
}

fn message(json: &mut String, alloc: Global, request: &Value) -> Result<()> {
    let error = error_of(alloc, request)?;
    let shown = error.to_string(alloc);
    drop(error);
    Ok(push_ok(json, alloc, shown?.as_str())?)
}

/// Reads a text value by value.
fn steps(json: &mut String, alloc: Global, request: &Value) -> Result<()> {
    let input = input_of(alloc, request)?;
    let options = options_of(request, "ext", "limit")?;
    let detail = detail_of(request);
    let list = steps_of(alloc, request)?;
    match reader_over(alloc, &input, &options) {
        Ok(reader) => {
            let stepper = Stepper { reader, detail };
            Ok(take_steps(json, alloc, stepper, list.as_slice())?)
        }
        Err(refused) => Ok(push_refused_at(json, alloc, refused, detail)?),
    }
}

fn reader_over<'a>(
    alloc: Global,
    input: &'a Input,
    options: &Options,
) -> SpannedResult<Deserializer<'a>> {
    match input {
        Input::Text(text) => { Deserializer::from_str_with_options(alloc, text.as_str(), options) }
        Input::Bytes(bytes) => {
            Deserializer::from_bytes_with_options(alloc, bytes.as_slice(), options)
        }
    }
}

/// What a reader is to do next.
#[derive(Drop)]
enum Step {
    Read(Schema),
    End,
}

fn steps_of(alloc: Global, request: &Value) -> Result<Vec<Step>> {
    let mut list = Vec::new(alloc);
    for step in items_of(member(request, "steps")?)? {
        list.push(step_of(alloc, request, step)?)?;
    }
    Ok(list)
}

/// `["read", root]` or `["end"]`
fn step_of(alloc: Global, request: &Value, step: &Value) -> Result<Step> {
    match items_of(step)? {
        [kind, root] if text_of(kind)? == "read" => {
            Ok(Step::Read(schema_of(alloc, request, count_of(root)?)?))
        }
        [kind] if text_of(kind)? == "end" => Ok(Step::End),
        _ => bail!("no step: {step}"),
    }
}

/// A reader that takes steps, and how much is told of one that it refuses.
#[derive(Drop)]
struct Stepper<'de> {
    reader: Deserializer<'de>,
    detail: Detail,
}

fn take_steps(
    json: &mut String,
    alloc: Global,
    stepper: Stepper,
    list: &[Step],
) -> Result<(), AllocError> {
    let mut stepper = stepper;
    let rest = stepper.reader.remainder();
    json.push_str("\"ok\":[")?;
    for step in list {
        separate(json)?;
        take_step(json, alloc, &mut stepper, step)?;
    }
    json.push(']')?;
    push_rest(json, alloc, rest)
}

/// Takes a step, and appends an object that says what came of it and what is left of the text.
fn take_step(
    json: &mut String,
    alloc: Global,
    stepper: &mut Stepper,
    step: &Step,
) -> Result<(), AllocError> {
    json.push('{')?;
    match outcome(&mut stepper.reader, step) {
        Ok(Some(data)) => push_data_between(json, alloc, data)?,
        Ok(None) => json.push_str("\"ok\":null")?,
        Err(code) => {
            let refused = stepper.reader.span_error(code);
            push_refused_between(json, alloc, refused, stepper.detail)?
        }
    }
    push_rest(json, alloc, stepper.reader.remainder())?;
    Ok(json.push('}')?)
}

fn push_rest(json: &mut String, alloc: Global, rest: &str) -> Result<(), AllocError> {
    json.push_str(",\"rest\":")?;
    push_text(json, alloc, rest)
}

fn outcome<'de>(reader: &mut Deserializer<'de>, step: &Step) -> Result<Option<Data<'de>>, Error> {
    match step {
        Step::Read(schema) => Ok(Some(reader.read(schema)?)),
        Step::End => {
            reader.end()?;
            Ok(None)
        }
    }
}
