//! Data that lives on its own.
ghost use Rattle.std.specs.Prelude.{◌≡◌, map, Ok, Err, MatchResult};
ghost use Rattle.ron_base.specs.declared.error.Error.TheVariants.{OutOfMemory};
ghost use Rattle.ron_lex_text.specs.Parsed.{parsed_text, parsed_bytes};
ghost use Rattle.ron_data.specs.Datum.{data_view, content_view, items_view, pair_view, named_view};

use crate::any_value::owned_value;
use crate::data::{Data, VariantData};
use ron_base::error::Result;
use ron_lex_text::parsed::{ParsedByteStr, ParsedStr};
use std::alloc::Global;

impl Data<'_> {
    /// Equal data that borrows nothing: slices and borrowed values are copied, and all else moves. Refused by `OutOfMemory` alone, and
    /// then given up.
    pub fn into_owned<'o>(self, alloc: Global) -> Result<Data<'o>>
        ensures { MatchResult result (λ d. data_view d ≡ data_view self.entry) (λ e. e ≡ OutOfMemory) }
    {
        owned(alloc, self)
    }
}

/// The same of data.
#[cycle(owned)]
fn owned<'o>(alloc: Global, value: Data) -> Result<Data<'o>>
    ensures { MatchResult result (λ d. data_view d ≡ data_view value.entry) (λ e. e ≡ OutOfMemory) }
{
    match value {
        Data::Bool(b) => Ok(Data::Bool(b)),
        Data::Int(number) => Ok(Data::Int(number)),
        Data::Char(c) => Ok(Data::Char(c)),
        Data::Str(text) => Ok(Data::Str(owned_text(alloc, text)?)),
        Data::Bytes(bytes) => Ok(Data::Bytes(owned_bytes(alloc, bytes)?)),
        Data::Unit => Ok(Data::Unit),
        Data::Option(option) => match option {
            None => Ok(Data::Option(None)),
            Some(content) => Ok(Data::Option(Some(owned_box(alloc, content)?))),
        },
        Data::Seq(items) => Ok(Data::Seq(owned_items(alloc, items)?)),
        Data::Tuple(items) => Ok(Data::Tuple(owned_items(alloc, items)?)),
        Data::Map(pairs) => Ok(Data::Map(owned_pairs(alloc, pairs)?)),
        Data::UnitStruct(name) => Ok(Data::UnitStruct(name)),
        Data::Newtype(name, content) => Ok(Data::Newtype(name, owned_box(alloc, content)?)),
        Data::TupleStruct(name, items) => Ok(Data::TupleStruct(name, owned_items(alloc, items)?)),
        Data::Struct(name, fields) => Ok(Data::Struct(name, owned_fields(alloc, fields)?)),
        Data::Variant {
            name,
            variant,
            content,
        } => Ok(Data::Variant {
            name,
            variant,
            content: owned_content(alloc, content)?,
        }),
        Data::Value(value) => Ok(Data::Value(owned_value(value)?)),
        Data::Raw(raw) => Ok(Data::Raw(raw.into_owned(alloc)?)),
    }
}

/// The same of what a variant holds.
#[cycle(owned)]
fn owned_content<'o>(alloc: Global, content: VariantData) -> Result<VariantData<'o>>
    ensures { MatchResult result (λ c. content_view c ≡ content_view content.entry) (λ e. e ≡ OutOfMemory) }
{
    match content {
        VariantData::Unit => Ok(VariantData::Unit),
        VariantData::Newtype(content) => Ok(VariantData::Newtype(owned_box(alloc, content)?)),
        VariantData::Tuple(items) => Ok(VariantData::Tuple(owned_items(alloc, items)?)),
        VariantData::Struct(fields) => Ok(VariantData::Struct(owned_fields(alloc, fields)?)),
    }
}

/// The same of data in a box.
#[cycle(owned)]
fn owned_box<'o>(alloc: Global, content: Box<Data>) -> Result<Box<Data<'o>>>
    ensures { MatchResult result (λ d. data_view d.value ≡ data_view content.entry.value) (λ e. e ≡ OutOfMemory) }
{
    let content = owned(alloc, Box::into_inner(content))?;
    Ok(Box::new(alloc, content)?)
}

/// The same of items.
#[cycle(owned)]
fn owned_items<'o>(alloc: Global, items: Vec<Data>) -> Result<Vec<Data<'o>>>
    ensures { MatchResult result (λ all. items_view all.items ≡ items_view items.entry.items) (λ e. e ≡ OutOfMemory) }
{
    let mut all = Vec::with_capacity(alloc, items.len())?;
    for item in items {
        all.push(owned(alloc, item)?)?;
    }
    Ok(all)
}

/// The same of keys and values.
#[cycle(owned)]
fn owned_pairs<'a, 'o>(
    alloc: Global,
    pairs: Vec<(Data<'a>, Data<'a>)>,
) -> Result<Vec<(Data<'o>, Data<'o>)>>
    ensures { MatchResult result (λ all. map pair_view all.items ≡ map pair_view pairs.entry.items)
        (λ e. e ≡ OutOfMemory) }
{
    let mut all: Vec<(Data<'o>, Data<'o>)> = Vec::with_capacity(alloc, pairs.len())?;
    for pair in pairs {
        all.push(owned_pair(alloc, pair)?)?;
    }
    Ok(all)
}

/// The same of a key and its value.
#[cycle(owned)]
fn owned_pair<'a, 'o>(alloc: Global, pair: (Data<'a>, Data<'a>)) -> Result<(Data<'o>, Data<'o>)>
    ensures { MatchResult result (λ p. pair_view p ≡ pair_view pair.entry) (λ e. e ≡ OutOfMemory) }
{
    let (key, value) = pair;
    let key = owned(alloc, key)?;
    beside(key, owned(alloc, value))
}

/// The same of fields.
#[cycle(owned)]
fn owned_fields<'o>(alloc: Global, fields: Vec<(String, Data)>) -> Result<Vec<(String, Data<'o>)>>
    ensures { MatchResult result (λ all. map named_view all.items ≡ map named_view fields.entry.items)
        (λ e. e ≡ OutOfMemory) }
{
    let mut all = Vec::with_capacity(alloc, fields.len())?;
    for field in fields {
        all.push(owned_field(alloc, field)?)?;
    }
    Ok(all)
}

/// The same of a field.
#[cycle(owned)]
fn owned_field<'o>(alloc: Global, field: (String, Data)) -> Result<(String, Data<'o>)>
    ensures { MatchResult result (λ f. named_view f ≡ named_view field.entry) (λ e. e ≡ OutOfMemory) }
{
    let (name, value) = field;
    beside(name, owned(alloc, value))
}

/// The one beside the other, where there is one.
fn beside<A: Drop, B>(one: A, other: Result<B>) -> Result<(A, B)>
    ensures { MatchResult result (λ p. (p.0 ≡ one) × (other ≡ Ok p.1)) (λ e. other ≡ Err e) }
{
    Ok((one, other?))
}

/// A text of its own: a copy of a slice. Refused by `OutOfMemory` alone.
#[inline(never)]
pub fn owned_text<'o>(alloc: Global, text: ParsedStr) -> Result<ParsedStr<'o>>
    ensures { MatchResult result (λ t. parsed_text t ≡ parsed_text text.entry) (λ e. e ≡ OutOfMemory) }
{
    match text {
        ParsedStr::Slice(text) => Ok(ParsedStr::Allocated(String::from_str(alloc, text)?)),
        ParsedStr::Allocated(text) => Ok(ParsedStr::Allocated(text)),
    }
}

/// Bytes of their own, likewise.
#[inline(never)]
pub fn owned_bytes<'o>(alloc: Global, bytes: ParsedByteStr) -> Result<ParsedByteStr<'o>>
    ensures { MatchResult result (λ b. parsed_bytes b ≡ parsed_bytes bytes.entry) (λ e. e ≡ OutOfMemory) }
{
    match bytes {
        ParsedByteStr::Slice(bytes) => {
            let mut owned = Vec::with_capacity(alloc, bytes.len())?;
            owned.extend_from_slice(bytes)?;
            Ok(ParsedByteStr::Allocated(owned))
        }
        ParsedByteStr::Allocated(bytes) => Ok(ParsedByteStr::Allocated(bytes)),
    }
}
