//! Texts, owned and borrowed.
ghost use Rattle.std.specs.Prelude.{chars, string_bytes, IfErr, IfOk, MatchResult, ◌≡◌};
ghost use Rattle.ron_base.specs.declared.error.Error.TheVariants.{OutOfMemory};
ghost use Rattle.ron_spec_grammar.specs.Data as plain;
ghost use Rattle.ron_spec_grammar.specs.Schema as shapes;
ghost use Rattle.ron_data_schema.specs.Table.{table_of};
ghost use Rattle.ron_data.specs.Datum.{data_view};
ghost use Rattle.ron_types.specs.Accepts.{IsText, IsBorrowedText};
ghost use Rattle.ron_types.specs.Faults.{IsRefusal, RefusesBorrowed};
ghost use Rattle.ron_types.specs.Normal.{unchanged};
ghost use Rattle.ron_types.specs.Tables.{leaf};
ghost use Rattle.ron_types.specs.Texts.{text_of_bytes};

use crate::refuse::{another_kind, not_borrowed};
use crate::tables::leaf;
use crate::traits::{Deserialize, Schematic, Serialize};
use ron_base::error::Result;
use ron_data::data::Data;
use ron_data_schema::schema::{Schema, Shape};
use ron_lex_text::parsed::ParsedStr;
use std::alloc::Global;

impl Schematic for String {
    ghost schema_is = { leaf shapes.str };

    ghost data = { λ s. plain.str_of (chars (string_bytes s)) };

    ghost normal = { unchanged };

    ghost accepts = { IsText };

    fn schema(alloc: Global) -> Result<Schema> {
        leaf(alloc, Shape::Str)
    }
}

impl Serialize for String {
    fn to_data(&self, _alloc: Global) -> Result<Data<'_>> {
        Ok(Data::Str(ParsedStr::Slice(self.as_str())))
    }
}

impl<'de> Deserialize<'de> for String {
    ghost refuses = { λ _. IsRefusal };

    fn from_data(alloc: Global, from: Data<'de>) -> Result<Self> {
        match from {
            Data::Str(ParsedStr::Slice(text)) => Ok(String::from_str(alloc, text)?),
            Data::Str(ParsedStr::Allocated(text)) => Ok(text),
            other => Err(another_kind(alloc, "a string", other)),
        }
    }
}

impl<'a> Schematic for &'a str {
    ghost schema_is = { leaf shapes.str };

    ghost data = { λ s. plain.str_of (text_of_bytes s.now) };

    ghost normal = { unchanged };

    ghost accepts = { IsBorrowedText };

    fn schema(alloc: Global) -> Result<Schema>
        ensures { MatchResult result (λ s. table_of s ≡ leaf shapes.str) (λ e. e ≡ OutOfMemory) }
    {
        leaf(alloc, Shape::Str)
    }
}

impl<'a> Serialize for &'a str {
    fn to_data(&self, _alloc: Global) -> Result<Data<'_>> {
        Ok(slice_of(self))
    }
}

/// The text as data, borrowed.
fn slice_of(text: &str) -> Data<'_>
    ensures value { data_view result ≡ plain.str_of (text_of_bytes text.now) }
    ensures accepted { IsBorrowedText result }
{
    Data::Str(ParsedStr::Slice(text))
}

impl<'de> Deserialize<'de> for &'de str {
    ghost refuses = { RefusesBorrowed };

    fn from_data(alloc: Global, from: Data<'de>) -> Result<Self> {
        borrowed_text(alloc, from)
    }
}

/// The text that data borrows. A text of its own is refused by `InvalidValueForType`, which quotes it.
pub fn borrowed_text<'de>(alloc: Global, from: Data<'de>) -> Result<&'de str>
    ensures value { IfOk result (λ text. plain.str_of (chars text.now) ≡ data_view from.entry) }
    ensures accepted { MatchResult result (λ _. IsBorrowedText from.entry)
        (λ e. IsBorrowedText from.entry → e ≡ OutOfMemory) }
    ensures refused { IfErr result (RefusesBorrowed from.entry) }
    ensures spelled { IfOk result (λ text. text_of_bytes text.now ≡ chars text.now) }
{
    match from {
        Data::Str(ParsedStr::Slice(text)) => Ok(as_read(text)),
        Data::Str(ParsedStr::Allocated(text)) => Err(not_borrowed(alloc, text.as_str())),
        other => Err(another_kind(alloc, "a string", other)),
    }
}

/// The slice that was read: by itself it is known to be text.
fn as_read<'de>(text: &'de str) -> &'de str
    ensures same { result ≡ text.entry }
    ensures spelled { text_of_bytes result.now ≡ chars result.now }
{
    text
}
