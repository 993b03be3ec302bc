//! Data as JSON.
use super::{
    push_bytes_part, push_char_part, push_kind, push_number, push_text_part, push_untyped,
};
use crate::json::{push_text, separate};
use ron_data::data::{Data, VariantData};
use ron_lex_text::parsed::{ParsedByteStr, ParsedStr};
use std::alloc::{AllocError, Global};
use std::fmt::Write;

/// Data, with `s` for a slice of the source and `a` for a text of its own.
#[cycle(data)]
pub fn push_data(json: &mut String, alloc: Global, data: &Data) -> Result<(), AllocError> {
    if let Data::Int(number) = data {
        return push_number(json, *number);
    }
    push_kind(json, kind_of(data))?;
    push_parts(json, alloc, data)?;
    Ok(json.push(']')?)
}

fn kind_of(data: &Data) -> &'static str {
    match data {
        Data::Bool(_) => "bool",
        Data::Int(_) => "number",
        Data::Char(_) => "char",
        Data::Str(_) => "str",
        Data::Bytes(_) => "bytes",
        Data::Unit => "unit",
        Data::Option(None) => "none",
        Data::Option(Some(_)) => "some",
        Data::Seq(_) => "seq",
        Data::Tuple(_) => "tuple",
        Data::Map(_) => "map",
        Data::UnitStruct(_) => "unit_struct",
        Data::Newtype(_, _) => "newtype",
        Data::TupleStruct(_, _) => "tuple_struct",
        Data::Struct(_, _) => "struct",
        Data::Variant { .. } => "variant",
        Data::Value(_) => "value",
        Data::Raw(_) => "raw",
    }
}

#[cycle(data)]
fn push_parts(json: &mut String, alloc: Global, data: &Data) -> Result<(), AllocError> {
    match data {
        Data::Bool(b) => write!(json, ",{b}"),
        Data::Char(character) => push_char_part(json, alloc, *character),
        Data::Str(text) => push_str(json, alloc, text),
        Data::Bytes(bytes) => push_bytes(json, alloc, bytes),
        Data::Option(Some(value)) => push_held(json, alloc, value),
        Data::Seq(items) | Data::Tuple(items) => push_items(json, alloc, items.as_slice()),
        Data::Map(pairs) => push_pairs(json, alloc, pairs.as_slice()),
        Data::UnitStruct(name) => push_text_part(json, alloc, name.as_str()),
        Data::Newtype(name, value) => {
            push_text_part(json, alloc, name.as_str())?;
            push_held(json, alloc, value)
        }
        Data::TupleStruct(name, items) => {
            push_text_part(json, alloc, name.as_str())?;
            push_items(json, alloc, items.as_slice())
        }
        Data::Struct(name, fields) => {
            push_text_part(json, alloc, name.as_str())?;
            push_fields(json, alloc, fields.as_slice())
        }
        Data::Variant {
            name,
            variant,
            content,
        } => {
            push_text_part(json, alloc, name.as_str())?;
            push_text_part(json, alloc, variant.as_str())?;
            push_content(json, alloc, content)
        }
        Data::Value(value) => {
            json.push(',')?;
            push_untyped(json, alloc, value.as_value())
        }
        Data::Raw(raw) => push_text_part(json, alloc, raw.get_ron()),
        Data::Int(_) | Data::Unit | Data::Option(None) => Ok(()),
    }
}

/// What a variant holds: its kind, and its parts.
#[cycle(data)]
fn push_content(json: &mut String, alloc: Global, content: &VariantData) -> Result<(), AllocError> {
    match content {
        VariantData::Unit => Ok(json.push_str(",\"unit\"")?),
        VariantData::Newtype(value) => {
            json.push_str(",\"newtype\"")?;
            push_held(json, alloc, value)
        }
        VariantData::Tuple(items) => {
            json.push_str(",\"tuple\"")?;
            push_items(json, alloc, items.as_slice())
        }
        VariantData::Struct(fields) => {
            json.push_str(",\"struct\"")?;
            push_fields(json, alloc, fields.as_slice())
        }
    }
}

/// A text, and whose it is.
fn push_str(json: &mut String, alloc: Global, text: &ParsedStr) -> Result<(), AllocError> {
    push_text_part(json, alloc, text.as_str())?;
    let mark = match text {
        ParsedStr::Slice(_) => "s",
        ParsedStr::Allocated(_) => "a",
    };
    write!(json, ",\"{mark}\"")
}

/// Bytes, and whose they are.
fn push_bytes(json: &mut String, alloc: Global, bytes: &ParsedByteStr) -> Result<(), AllocError> {
    push_bytes_part(json, alloc, bytes.as_slice())?;
    let mark = match bytes {
        ParsedByteStr::Slice(_) => "s",
        ParsedByteStr::Allocated(_) => "a",
    };
    write!(json, ",\"{mark}\"")
}

#[cycle(data)]
fn push_held(json: &mut String, alloc: Global, value: &Data) -> Result<(), AllocError> {
    json.push(',')?;
    push_data(json, alloc, value)
}

#[cycle(data)]
fn push_items(json: &mut String, alloc: Global, items: &[Data]) -> Result<(), AllocError> {
    json.push_str(",[")?;
    for item in items {
        separate(json)?;
        push_data(json, alloc, item)?;
    }
    Ok(json.push(']')?)
}

#[cycle(data)]
fn push_pairs(json: &mut String, alloc: Global, pairs: &[(Data, Data)]) -> Result<(), AllocError> {
    json.push_str(",[")?;
    for (key, value) in pairs {
        separate(json)?;
        json.push('[')?;
        push_data(json, alloc, key)?;
        push_held(json, alloc, value)?;
        json.push(']')?;
    }
    Ok(json.push(']')?)
}

#[cycle(data)]
fn push_fields(
    json: &mut String,
    alloc: Global,
    fields: &[(String, Data)],
) -> Result<(), AllocError> {
    json.push_str(",[")?;
    for (name, value) in fields {
        separate(json)?;
        json.push('[')?;
        push_text(json, alloc, name.as_str())?;
        push_held(json, alloc, value)?;
        json.push(']')?;
    }
    Ok(json.push(']')?)
}
