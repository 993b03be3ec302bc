//! How types refuse data.
ghost use Rattle.std.specs.Prelude.{MatchResult};
ghost use Rattle.ron_types.specs.Faults.{IsRefusal, TellsNotBorrowed};

use ron_base::error::{Error, Result};
use ron_base::escape::Quoted;
use ron_data::data::{Data, VariantData};
use ron_data::kinds::number_found;
use ron_value_number::{Number, Width};
use std::alloc::Global;

/// The refusal of data of another kind than the type's, which is given up: `InvalidValueForType`, or `OutOfMemory`.
pub fn another_kind(alloc: Global, expected: &str, found: Data) -> Error
    ensures { IsRefusal result }
{
    let kind = kind_of(&found);
    drop(found);
    match wrong_value(alloc, expected, kind) {
        Ok(error) | Err(error) => error,
    }
}

/// The refusal of a number of another width, likewise.
pub fn another_width(alloc: Global, width: Width, found: Number) -> Error
    ensures { IsRefusal result }
{
    match wrong_number(alloc, width, found) {
        Ok(error) | Err(error) => error,
    }
}

/// The refusal of a struct or an enum of another name: `ExpectedDifferentStructName`, or `OutOfMemory`.
pub fn another_name(alloc: Global, expected: &str, found: &str) -> Error
    ensures { IsRefusal result }
{
    match wrong_name(alloc, expected, found) {
        Ok(error) | Err(error) => error,
    }
}

/// How many items a tuple has, and how many there are.
#[derive(Clone, Copy)]
pub struct Lengths {
    pub wanted: usize,
    pub found: usize,
}

/// The refusal of another number of items: `ExpectedDifferentLength`, or `OutOfMemory`.
pub fn another_length(alloc: Global, lengths: Lengths) -> Error
    ensures { IsRefusal result }
{
    match wrong_length(alloc, lengths) {
        Ok(error) | Err(error) => error,
    }
}

/// The refusal of a struct without the field of this name at its place: `MissingStructField`, or `OutOfMemory`.
pub fn missing_field(alloc: Global, name: &str) -> Error
    ensures { IsRefusal result }
{
    match no_field(alloc, name) {
        Ok(error) | Err(error) => error,
    }
}

/// The refusal of a field behind the last one: `ExpectedDifferentLength`, or `OutOfMemory`.
pub fn unexpected_field(alloc: Global) -> Error
    ensures { IsRefusal result }
{
    match further_field(alloc) {
        Ok(error) | Err(error) => error,
    }
}

/// The refusal of a variant of another name than these: `NoSuchEnumVariant`, or `OutOfMemory`.
pub fn no_variant(alloc: Global, names: &[&str], found: &str) -> Error
    ensures { IsRefusal result }
{
    match unknown_variant(alloc, names, found) {
        Ok(error) | Err(error) => error,
    }
}

/// The refusal of a variant that holds something of another kind, which is given up: `InvalidValueForType`, or
/// `OutOfMemory`.
pub fn another_content(alloc: Global, expected: &str, found: VariantData) -> Error
    ensures { IsRefusal result }
{
    let kind = content_of(&found);
    drop(found);
    match wrong_value(alloc, expected, kind) {
        Ok(error) | Err(error) => error,
    }
}

/// The refusal of a text of its own where a borrowed one is wanted: `InvalidValueForType`, which quotes it, or
/// `OutOfMemory`.
pub fn not_borrowed(alloc: Global, text: &str) -> Error
    ensures told { TellsNotBorrowed text.now result }
    ensures refused { IsRefusal result }
{
    match owned_text(alloc, text) {
        Ok(error) | Err(error) => error,
    }
}

fn wrong_value(alloc: Global, expected: &str, found: &str) -> Result<Error>
    ensures { MatchResult result IsRefusal IsRefusal }
{
    Ok(Error::InvalidValueForType {
        expected: String::from_str(alloc, expected)?,
        found: String::from_str(alloc, found)?,
    })
}

fn wrong_number(alloc: Global, width: Width, found: Number) -> Result<Error>
    ensures { MatchResult result IsRefusal IsRefusal }
{
    Ok(Error::InvalidValueForType {
        expected: String::from_str(alloc, width.name())?,
        found: number_found(alloc, found)?,
    })
}

fn wrong_name(alloc: Global, expected: &str, found: &str) -> Result<Error>
    ensures { MatchResult result IsRefusal IsRefusal }
{
    Ok(Error::ExpectedDifferentStructName {
        expected: String::from_str(alloc, expected)?,
        found: String::from_str(alloc, found)?,
    })
}

fn wrong_length(alloc: Global, lengths: Lengths) -> Result<Error>
    ensures { MatchResult result IsRefusal IsRefusal }
{
    let Lengths { wanted, found } = lengths;
    Ok(Error::ExpectedDifferentLength {
        expected: format!(in alloc; "a tuple of size {wanted}")?,
        found,
    })
}

fn further_field(alloc: Global) -> Result<Error>
    ensures { MatchResult result IsRefusal IsRefusal }
{
    Ok(Error::ExpectedDifferentLength {
        expected: String::from_str(alloc, "no further field")?,
        found: 1,
    })
}

fn no_field(alloc: Global, name: &str) -> Result<Error>
    ensures { MatchResult result IsRefusal IsRefusal }
{
    Ok(Error::MissingStructField {
        field: String::from_str(alloc, name)?,
        outer: None,
    })
}

fn unknown_variant(alloc: Global, names: &[&str], found: &str) -> Result<Error>
    ensures { MatchResult result IsRefusal IsRefusal }
{
    let mut expected = Vec::with_capacity(alloc, names.len())?;
    for name in names {
        expected.push(String::from_str(alloc, name)?)?;
    }
    Ok(Error::NoSuchEnumVariant {
        expected,
        found: String::from_str(alloc, found)?,
        outer: None,
    })
}

fn owned_text(alloc: Global, text: &str) -> Result<Error>
    ensures told { MatchResult result (TellsNotBorrowed text.now) (TellsNotBorrowed text.now) }
    ensures refused { MatchResult result IsRefusal IsRefusal }
{
    Ok(Error::InvalidValueForType {
        expected: String::from_str(alloc, "a borrowed string")?,
        found: format!(in alloc; "the string {}", Quoted(text))?,
    })
}

/// What messages call data.
fn kind_of(found: &Data) -> &'static str {
    match found {
        Data::Bool(_) => "a boolean",
        Data::Int(_) => "an integer",
        Data::Char(_) => "a character",
        Data::Str(_) => "a string",
        Data::Bytes(_) => "bytes",
        Data::Unit => "a unit value",
        Data::Option(_) => "an optional value",
        Data::UnitStruct(_) => "a unit struct",
        Data::Seq(_) => "a sequence",
        Data::Tuple(_) => "a tuple",
        Data::Map(_) => "a map",
        Data::TupleStruct(_, _) => "a tuple struct",
        Data::Newtype(_, _) => "a newtype struct",
        Data::Struct(_, _) => "a struct",
        Data::Variant { .. } => "an enum",
        Data::Value(_) => "any value",
        Data::Raw(_) => "a raw value",
    }
}

/// What messages call what a variant holds.
fn content_of(found: &VariantData) -> &'static str {
    match found {
        VariantData::Unit => "a unit variant",
        VariantData::Newtype(_) => "a newtype variant",
        VariantData::Tuple(_) => "a tuple variant",
        VariantData::Struct(_) => "a struct variant",
    }
}
