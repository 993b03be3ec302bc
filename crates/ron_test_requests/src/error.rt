//! Errors of requests.
use crate::json::{character_of, count_of, items_of, member, string_of, text_of};
use anyhow::{Result, bail};
use ron_base::error::{Error, EscapeFault, SchemaFault};
use serde_json::Value;
use std::alloc::Global;

/// Why escapes are refused.
static ESCAPE_FAULTS: [EscapeFault; 8] = [
    EscapeFault::UnknownCharacter,
    EscapeFault::NonHexDigit,
    EscapeFault::BytesOfNoCharacter,
    EscapeFault::MissingBrace,
    EscapeFault::NoDigits,
    EscapeFault::MissingClosingBrace,
    EscapeFault::NoCharacter,
    EscapeFault::UnicodeInByte,
];

/// Why tables are refused.
static SCHEMA_FAULTS: [SchemaFault; 4] = [
    SchemaFault::IndexOutOfRange,
    SchemaFault::Cycle,
    SchemaFault::DuplicateName,
    SchemaFault::MissingRangeField,
];

/// The error of the request's `kind`, with what the request gives for its fields.
pub fn error_of(alloc: Global, request: &Value) -> Result<Error> {
    let kind = text_of(member(request, "kind")?)?;
    if let Some(error) = expected(kind) {
        return Ok(error);
    }
    if let Some(error) = bare(kind) {
        return Ok(error);
    }
    match of_text(alloc, kind, request)? {
        Some(error) => Ok(error),
        None => of_fields(alloc, kind, request),
    }
}

/// Errors of something expected, and of nothing else.
fn expected(kind: &str) -> Option<Error> {
    Some(match kind {
        "ExpectedArray" => Error::ExpectedArray,
        "ExpectedArrayEnd" => Error::ExpectedArrayEnd,
        "ExpectedAttribute" => Error::ExpectedAttribute,
        "ExpectedAttributeEnd" => Error::ExpectedAttributeEnd,
        "ExpectedBoolean" => Error::ExpectedBoolean,
        "ExpectedComma" => Error::ExpectedComma,
        "ExpectedChar" => Error::ExpectedChar,
        "ExpectedByteLiteral" => Error::ExpectedByteLiteral,
        "ExpectedFloat" => Error::ExpectedFloat,
        "ExpectedInteger" => Error::ExpectedInteger,
        "ExpectedOption" => Error::ExpectedOption,
        "ExpectedOptionEnd" => Error::ExpectedOptionEnd,
        "ExpectedMap" => Error::ExpectedMap,
        "ExpectedMapColon" => Error::ExpectedMapColon,
        "ExpectedMapEnd" => Error::ExpectedMapEnd,
        "ExpectedStructLike" => Error::ExpectedStructLike,
        "ExpectedStructLikeEnd" => Error::ExpectedStructLikeEnd,
        "ExpectedUnit" => Error::ExpectedUnit,
        "ExpectedString" => Error::ExpectedString,
        "ExpectedByteString" => Error::ExpectedByteString,
        "ExpectedStringEnd" => Error::ExpectedStringEnd,
        "ExpectedIdentifier" => Error::ExpectedIdentifier,
        "ExpectedRawValue" => Error::ExpectedRawValue,
        "ExpectedRangeSyntax" => Error::ExpectedRangeSyntax,
        _ => return None,
    })
}

/// The other errors that hold nothing.
fn bare(kind: &str) -> Option<Error> {
    Some(match kind {
        "Fmt" => Error::Fmt,
        "Eof" => Error::Eof,
        "FloatUnderscore" => Error::FloatUnderscore,
        "IntegerOutOfBounds" => Error::IntegerOutOfBounds,
        "UnclosedBlockComment" => Error::UnclosedBlockComment,
        "UnclosedLineComment" => Error::UnclosedLineComment,
        "UnderscoreAtBeginning" => Error::UnderscoreAtBeginning,
        "TrailingCharacters" => Error::TrailingCharacters,
        "ExceededRecursionLimit" => Error::ExceededRecursionLimit,
        "UnsupportedFloat" => Error::UnsupportedFloat,
        "OutOfMemory" => Error::OutOfMemory,
        "Failed" => Error::Failed,
        _ => return None,
    })
}

/// Errors that hold one text, the request's `text` or `name`.
fn of_text(alloc: Global, kind: &str, request: &Value) -> Result<Option<Error>> {
    let Some(value) = request.get("text").or(request.get("name")) else {
        return Ok(None);
    };
    if matches!(kind, "InvalidEscape" | "InvalidSchema") {
        return Ok(Some(of_fault(kind, text_of(value)?)?));
    }
    let text = string_of(alloc, value)?;
    Ok(Some(match kind {
        "Io" => Error::Io(text),
        "Message" => Error::Message(text),
        "ExpectedNamedStructLike" => Error::ExpectedNamedStructLike(text),
        "NoSuchExtension" => Error::NoSuchExtension(text),
        "InvalidIdentifier" => Error::InvalidIdentifier(text),
        "SuggestRawIdentifier" => Error::SuggestRawIdentifier(text),
        "ExpectedStructName" => Error::ExpectedStructName(text),
        _ => return Ok(None),
    }))
}

/// Errors that hold a fault, by its text.
fn of_fault(kind: &str, text: &str) -> Result<Error> {
    match kind {
        "InvalidEscape" => Ok(Error::InvalidEscape(escape_fault(text)?)),
        _ => Ok(Error::InvalidSchema(schema_fault(text)?)),
    }
}

/// Errors of more fields.
fn of_fields(alloc: Global, kind: &str, request: &Value) -> Result<Error> {
    match kind {
        "InvalidIntegerDigit" => Ok(Error::InvalidIntegerDigit {
            digit: character_of(member(request, "digit")?)?,
            base: u8::try_from(count_of(member(request, "base")?)?)?,
        }),
        "UnexpectedChar" => Ok(Error::UnexpectedChar(character_of(member(request, "char")?)?)),
        "ExpectedDifferentLength" => Ok(Error::ExpectedDifferentLength {
            found: count_of(member(request, "found")?)?,
            expected: string_of(alloc, member(request, "expected")?)?,
        }),
        "ExpectedDifferentStructName" | "InvalidValueForType" => of_two(alloc, kind, request),
        "NoSuchEnumVariant" | "NoSuchStructField" => of_names(alloc, kind, request),
        "MissingStructField" | "DuplicateStructField" => of_field(alloc, kind, request),
        _ => bail!("no error {kind}"),
    }
}

/// Errors of something expected and something found in its place.
fn of_two(alloc: Global, kind: &str, request: &Value) -> Result<Error> {
    let expected = string_of(alloc, member(request, "expected")?)?;
    let found = string_of(alloc, member(request, "found")?)?;
    Ok(match kind {
        "InvalidValueForType" => Error::InvalidValueForType { expected, found },
        _ => Error::ExpectedDifferentStructName { expected, found },
    })
}

/// Errors of a name that is none of those expected.
fn of_names(alloc: Global, kind: &str, request: &Value) -> Result<Error> {
    let expected = names_of(alloc, member(request, "expected")?)?;
    let found = string_of(alloc, member(request, "found")?)?;
    let outer = outer_of(alloc, request)?;
    Ok(match kind {
        "NoSuchEnumVariant" => Error::NoSuchEnumVariant {
            expected,
            found,
            outer,
        },
        _ => Error::NoSuchStructField {
            expected,
            found,
            outer,
        },
    })
}

/// Errors of a field.
fn of_field(alloc: Global, kind: &str, request: &Value) -> Result<Error> {
    let field = string_of(alloc, member(request, "field")?)?;
    let outer = outer_of(alloc, request)?;
    Ok(match kind {
        "MissingStructField" => Error::MissingStructField { field, outer },
        _ => Error::DuplicateStructField { field, outer },
    })
}

/// The name of the struct or the enum around, where there is one.
fn outer_of(alloc: Global, request: &Value) -> Result<Option<String>> {
    match request.get("outer") {
        None | Some(Value::Null) => Ok(None),
        Some(outer) => Ok(Some(string_of(alloc, outer)?)),
    }
}

fn names_of(alloc: Global, list: &Value) -> Result<Vec<String>> {
    let mut names = Vec::new(alloc);
    for name in items_of(list)? {
        names.push(string_of(alloc, name)?)?;
    }
    Ok(names)
}

fn escape_fault(text: &str) -> Result<EscapeFault> {
    for fault in &ESCAPE_FAULTS {
        if fault.text() == text {
            return Ok(*fault);
        }
    }
    bail!("no fault: {text}")
}

fn schema_fault(text: &str) -> Result<SchemaFault> {
    for fault in &SCHEMA_FAULTS {
        if fault.text() == text {
            return Ok(*fault);
        }
    }
    bail!("no fault: {text}")
}
