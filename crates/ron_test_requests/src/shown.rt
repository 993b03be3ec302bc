//! Data and values as JSON: a list of the kind and of its parts. Each call appends to the answer.
mod data;
mod untyped;

use crate::json::push_text;
pub use data::push_data;
use ron_value_number::number::Number;
use std::alloc::{AllocError, Global};
use std::fmt::{Display, Write};
pub use untyped::push_untyped;

/// The list's opening bracket and its first item. Each part comes behind a comma.
fn push_kind(json: &mut String, kind: &str) -> Result<(), AllocError> {
    write!(json, "[\"{kind}\"")
}

fn push_text_part(json: &mut String, alloc: Global, text: &str) -> Result<(), AllocError> {
    json.push(',')?;
    push_text(json, alloc, text)
}

fn push_char_part(json: &mut String, alloc: Global, character: char) -> Result<(), AllocError> {
    let text = character.to_string(alloc)?;
    push_text_part(json, alloc, text.as_str())
}

/// Bytes in hexadecimal.
fn push_bytes_part(json: &mut String, alloc: Global, bytes: &[u8]) -> Result<(), AllocError> {
    let digits = hex::encode(alloc, bytes)?;
    write!(json, ",\"{digits}\"")
}

/// A number: the width's name, and the digits as a text.
fn push_number(json: &mut String, number: Number) -> Result<(), AllocError> {
    match number {
        Number::I8(value) => push_digits(json, "i8", value),
        Number::I16(value) => push_digits(json, "i16", value),
        Number::I32(value) => push_digits(json, "i32", value),
        Number::I64(value) => push_digits(json, "i64", value),
        Number::I128(value) => push_digits(json, "i128", value),
        Number::U8(value) => push_digits(json, "u8", value),
        Number::U16(value) => push_digits(json, "u16", value),
        Number::U32(value) => push_digits(json, "u32", value),
        Number::U64(value) => push_digits(json, "u64", value),
        Number::U128(value) => push_digits(json, "u128", value),
    }
}

fn push_digits<N: Display + Drop>(
    json: &mut String,
    width: &str,
    value: N,
) -> Result<(), AllocError> {
    write!(json, "[\"{width}\",\"{value}\"]")
}
