//! Values that hold no others.
ghost use Rattle.std.specs.Prelude.{Some, IfOk, chars, string_bytes};
ghost use Rattle.ron_spec_grammar.specs.Schema.{any_raw};
ghost use Rattle.ron_spec_grammar.specs.Values.Conversion.{boolean_as, character_as, text_as, bytes_as, number_as, unit_as, none_as};
ghost use Rattle.ron_value_number.specs.Number.{number_width, number_value};
ghost use Rattle.ron_data.specs.Datum.{data_view};
ghost use Rattle.ron_value.specs.Tree as tree;
ghost use Rattle.ron_data_convert.specs.Becomes.{Becomes, IsMovedInto, IsOwn, shape_seen};
ghost use Rattle.ron_data_convert.specs.Misfits.{kind_differs, not_raw, text_misfit};

use crate::refuse::{another_kind, out_of_range};
use ron_base::error::{Error, Result};
use ron_data::data::Data;
use ron_data_schema::schema::Shape;
use ron_de_raw::raw::RawValue;
use ron_lex_text::parsed::{ParsedByteStr, ParsedStr};
use ron_value_number::{Number, number_in};
use std::alloc::Global;

pub(crate) fn boolean<'o>(alloc: Global, held: bool, shape: Option<&Shape>) -> Result<Data<'o>>
    ensures value { Becomes data_view (boolean_as held (shape_seen shape.entry)) kind_differs result }
    ensures moved { IsMovedInto (tree.boolean held) (boolean_as held (shape_seen shape.entry)) result }
    ensures own { IfOk result IsOwn }
{
    match shape {
        Some(Shape::Bool) => Ok(Data::Bool(held)),
        _ => another_kind(alloc, shape, "a boolean"),
    }
}

pub(crate) fn character<'o>(alloc: Global, held: char, shape: Option<&Shape>) -> Result<Data<'o>>
    ensures value { Becomes data_view (character_as held (shape_seen shape.entry)) kind_differs result }
    ensures moved { IsMovedInto (tree.character held) (character_as held (shape_seen shape.entry)) result }
    ensures own { IfOk result IsOwn }
{
    match shape {
        Some(Shape::Char) => Ok(Data::Char(held)),
        _ => another_kind(alloc, shape, "a character"),
    }
}

/// A number of any width, where its value lies in the shape's.
pub(crate) fn number<'o>(alloc: Global, held: Number, shape: Option<&Shape>) -> Result<Data<'o>>
    ensures value { Becomes data_view (number_as (number_value held) (shape_seen shape.entry)) kind_differs result }
    ensures moved { IsMovedInto (tree.number (number_width held) (number_value held))
        (number_as (number_value held) (shape_seen shape.entry)) result }
    ensures own { IfOk result IsOwn }
{
    match shape {
        Some(Shape::Int(width)) => {
            let (is_negative, magnitude) = held.sign_and_magnitude();
            match number_in(*width, is_negative, magnitude) {
                Some(fitting) => Ok(Data::Int(fitting)),
                None => out_of_range(alloc, *width, held),
            }
        }
        _ => another_kind(alloc, shape, "an integer"),
    }
}

/// A text, which moves into the data; as a raw text it must be a value by itself.
pub(crate) fn text<'o>(alloc: Global, held: String, shape: Option<&Shape>) -> Result<Data<'o>>
    ensures value { Becomes data_view (text_as (chars (string_bytes held)) (shape_seen shape.entry))
        (text_misfit (shape_seen shape.entry)) result }
    ensures moved { IsMovedInto (tree.text (string_bytes held))
        (text_as (chars (string_bytes held)) (shape_seen shape.entry)) result }
    ensures own { IfOk result IsOwn }
{
    match shape {
        Some(Shape::Str) => Ok(Data::Str(ParsedStr::Allocated(held))),
        Some(Shape::Raw) => raw_text(held),
        _ => another_kind(alloc, shape, "a string"),
    }
}

/// A text that is a value by itself. Another is refused by `ExpectedRawValue`.
fn raw_text<'o>(held: String) -> Result<Data<'o>>
    ensures value { Becomes data_view (text_as (chars (string_bytes held)) (Some any_raw)) not_raw result }
    ensures own { IfOk result IsOwn }
{
    match RawValue::from_boxed_ron(held) {
        Ok(raw) => Ok(Data::Raw(raw)),
        Err(refused) => match refused.code {
            Error::OutOfMemory => Err(Error::OutOfMemory),
            _ => Err(Error::ExpectedRawValue),
        },
    }
}

/// Bytes, which move into the data.
pub(crate) fn bytes<'o>(alloc: Global, held: Vec<u8>, shape: Option<&Shape>) -> Result<Data<'o>>
    ensures value { Becomes data_view (bytes_as held.items (shape_seen shape.entry)) kind_differs result }
    ensures moved { IsMovedInto (tree.bytes held.items) (bytes_as held.items (shape_seen shape.entry)) result }
    ensures own { IfOk result IsOwn }
{
    match shape {
        Some(Shape::Bytes) => Ok(Data::Bytes(ParsedByteStr::Allocated(held))),
        _ => another_kind(alloc, shape, "bytes"),
    }
}

/// The unit, or a struct without fields.
pub(crate) fn unit<'o>(alloc: Global, shape: Option<&Shape>) -> Result<Data<'o>>
    ensures value { Becomes data_view (unit_as (shape_seen shape.entry)) kind_differs result }
    ensures moved { IsMovedInto tree.unit (unit_as (shape_seen shape.entry)) result }
    ensures own { IfOk result IsOwn }
{
    match shape {
        Some(Shape::Unit) => Ok(Data::Unit),
        Some(Shape::UnitStruct(name)) => Ok(Data::UnitStruct(String::from_str(
            alloc,
            name.as_str(),
        )?)),
        _ => another_kind(alloc, shape, "a unit value"),
    }
}

pub(crate) fn none<'o>(alloc: Global, shape: Option<&Shape>) -> Result<Data<'o>>
    ensures value { Becomes data_view (none_as (shape_seen shape.entry)) kind_differs result }
    ensures moved { IsMovedInto tree.none (none_as (shape_seen shape.entry)) result }
    ensures own { IfOk result IsOwn }
{
    match shape {
        Some(Shape::Option(_)) => Ok(Data::Option(None)),
        _ => another_kind(alloc, shape, "an optional value"),
    }
}
