//! Data of requests.
use crate::json::{character_of, string_of, text_of};
use crate::schema::width_of;
use crate::untyped::untyped_of;
use anyhow::{Result, bail};
use ron_data::any_value::AnyValue;
use ron_data::data::{Data, VariantData};
use ron_de_raw::raw::RawValue;
use ron_lex_text::parsed::{ParsedByteStr, ParsedStr};
use ron_value_number::number::Number;
use ron_value_number::width::Width;
use serde_json::Value;
use std::alloc::Global;

/// The data of `[kind, parts ..]`.
#[cycle(data)]
pub fn data_of(alloc: Global, value: &Value) -> Result<Data<'static>> {
    match value {
        Value::Array(items) => match items.as_slice() {
            [kind] => bare_of(text_of(kind)?),
            [kind, part] => part_of(alloc, text_of(kind)?, part),
            [kind, part, _] if matches!(text_of(kind)?, "str" | "bytes") => {
                plain_of(alloc, text_of(kind)?, part)
            }
            [kind, name, held] => {
                let name = string_of(alloc, name)?;
                named_of(alloc, text_of(kind)?, name, held)
            }
            [kind, name, variant, content]
                if text_of(kind)? == "variant" && text_of(content)? == "unit" => {
                variant_of(alloc, name, variant, VariantData::Unit)
            }
            [kind, name, variant, held, content] if text_of(kind)? == "variant" => {
                let content = content_of(alloc, text_of(held)?, content)?;
                variant_of(alloc, name, variant, content)
            }
            _ => bail!("no data: {value}"),
        },
        _ => bail!("no data: {value}"),
    }
}

/// Data that is a word alone: the unit, or an option without a value.
fn bare_of(kind: &str) -> Result<Data<'static>> {
    match kind {
        "unit" => Ok(Data::Unit),
        "none" => Ok(Data::Option(None)),
        _ => bail!("no data {kind}"),
    }
}

/// Data of one part: an option's value, items, pairs, a name, an untyped value, or what `plain_of` makes.
#[cycle(data)]
fn part_of(alloc: Global, kind: &str, part: &Value) -> Result<Data<'static>> {
    match (kind, part) {
        ("some", _) => Ok(Data::Option(Some(boxed_of(alloc, part)?))),
        ("seq", Value::Array(items)) => items_in(alloc, items.as_slice()).map(Data::Seq),
        ("tuple", Value::Array(items)) => items_in(alloc, items.as_slice()).map(Data::Tuple),
        ("map", Value::Array(pairs)) => pairs_in(alloc, pairs.as_slice()).map(Data::Map),
        ("unit_struct", _) => Ok(Data::UnitStruct(string_of(alloc, part)?)),
        ("value", _) => Ok(Data::Value(AnyValue::Owned(untyped_of(alloc, part)?))),
        ("raw", _) => raw_of(string_of(alloc, part)?),
        _ => plain_of(alloc, kind, part),
    }
}

fn raw_of(text: String) -> Result<Data<'static>> {
    match RawValue::from_boxed_ron(text) {
        Ok(raw) => Ok(Data::Raw(raw)),
        Err(refused) => bail!("{refused}"),
    }
}

/// Data of a struct of this name, by what it holds.
#[cycle(data)]
fn named_of(alloc: Global, kind: &str, name: String, held: &Value) -> Result<Data<'static>> {
    match (kind, held) {
        ("newtype", _) => Ok(Data::Newtype(name, boxed_of(alloc, held)?)),
        ("tuple_struct", Value::Array(items)) => {
            Ok(Data::TupleStruct(name, items_in(alloc, items.as_slice())?))
        }
        ("struct", Value::Array(fields)) => {
            Ok(Data::Struct(name, fields_of(alloc, fields.as_slice())?))
        }
        _ => bail!("no data {kind}"),
    }
}

fn variant_of(
    alloc: Global,
    name: &Value,
    variant: &Value,
    content: VariantData<'static>,
) -> Result<Data<'static>> {
    Ok(Data::Variant {
        name: string_of(alloc, name)?,
        variant: string_of(alloc, variant)?,
        content,
    })
}

/// What a variant of this kind holds.
#[cycle(data)]
fn content_of(alloc: Global, held: &str, content: &Value) -> Result<VariantData<'static>> {
    match (held, content) {
        ("newtype", _) => boxed_of(alloc, content).map(VariantData::Newtype),
        ("tuple", Value::Array(items)) => {
            items_in(alloc, items.as_slice()).map(VariantData::Tuple)
        }
        ("struct", Value::Array(fields)) => {
            fields_of(alloc, fields.as_slice()).map(VariantData::Struct)
        }
        _ => bail!("no variant of {held}: {content}"),
    }
}

/// Data of a kind without parts: a boolean, a character, a text, bytes in hexadecimal, or a number of the width of this
/// name. No mark is looked at: a text or bytes of their own are made.
fn plain_of(alloc: Global, kind: &str, value: &Value) -> Result<Data<'static>> {
    match kind {
        "bool" => match value {
            Value::Bool(b) => Ok(Data::Bool(*b)),
            _ => bail!("no boolean: {value}"),
        },
        "char" => Ok(Data::Char(character_of(value)?)),
        "str" => Ok(Data::Str(ParsedStr::Allocated(string_of(alloc, value)?))),
        "bytes" => Ok(Data::Bytes(ParsedByteStr::Allocated(hex::decode(alloc, text_of(value)?)?))),
        width => Ok(Data::Int(number_of(width, text_of(value)?)?)),
    }
}

/// Data that stands in other data.
#[cycle(data)]
fn boxed_of(alloc: Global, value: &Value) -> Result<Box<Data<'static>>> {
    let data = data_of(alloc, value)?;
    Ok(Box::new(alloc, data)?)
}

/// Items, one after another.
#[cycle(data)]
fn items_in(alloc: Global, list: &[Value]) -> Result<Vec<Data<'static>>> {
    let mut items = Vec::new(alloc);
    for item in list {
        items.push(data_of(alloc, item)?)?;
    }
    Ok(items)
}

/// The pairs of `[key, data]`.
#[cycle(data)]
fn pairs_in(alloc: Global, list: &[Value]) -> Result<Vec<(Data<'static>, Data<'static>)>> {
    let mut pairs = Vec::new(alloc);
    for pair in list {
        pairs.push(entry_of(alloc, pair)?)?;
    }
    Ok(pairs)
}

#[cycle(data)]
fn entry_of(alloc: Global, pair: &Value) -> Result<(Data<'static>, Data<'static>)> {
    match pair {
        Value::Array(items) => match items.as_slice() {
            [key, value] => {
                let key = data_of(alloc, key)?;
                Ok((key, data_of(alloc, value)?))
            }
            _ => bail!("no pair: {pair}"),
        },
        _ => bail!("no pair: {pair}"),
    }
}

/// The fields of `[name, data]`.
#[cycle(data)]
fn fields_of(alloc: Global, list: &[Value]) -> Result<Vec<(String, Data<'static>)>> {
    let mut fields = Vec::new(alloc);
    for field in list {
        fields.push(field_of(alloc, field)?)?;
    }
    Ok(fields)
}

#[cycle(data)]
fn field_of(alloc: Global, field: &Value) -> Result<(String, Data<'static>)> {
    match field {
        Value::Array(items) => match items.as_slice() {
            [name, value] => {
                let name = string_of(alloc, name)?;
                Ok((name, data_of(alloc, value)?))
            }
            _ => bail!("no field: {field}"),
        },
        _ => bail!("no field: {field}"),
    }
}

/// The number of the width of this name that the digits tell.
pub fn number_of(width: &str, digits: &str) -> Result<Number> {
    let Some(known) = width_of(width) else {
        bail!("no data {width}")
    };
    match number_within(known, digits) {
        Some(number) => Ok(number),
        None => bail!("no {width}: {digits}"),
    }
}

fn number_within(width: Width, digits: &str) -> Option<Number> {
    match width {
        Width::I8 => digits.parse().ok().map(Number::I8),
        Width::I16 => digits.parse().ok().map(Number::I16),
        Width::I32 => digits.parse().ok().map(Number::I32),
        Width::I64 => digits.parse().ok().map(Number::I64),
        Width::I128 => digits.parse().ok().map(Number::I128),
        Width::U8 => digits.parse().ok().map(Number::U8),
        Width::U16 => digits.parse().ok().map(Number::U16),
        Width::U32 => digits.parse().ok().map(Number::U32),
        Width::U64 => digits.parse().ok().map(Number::U64),
        Width::U128 => digits.parse().ok().map(Number::U128),
    }
}
