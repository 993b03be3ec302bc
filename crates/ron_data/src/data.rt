//! Data: what a text spells under a schema.
use crate::any_value::AnyValue;
use ron_de_raw::raw::RawValue;
use ron_lex_text::parsed::{ParsedByteStr, ParsedStr};
use ron_value_number::Number;

/// A value of a schema. It lives as long as the text that it was read of, where it holds slices of
/// it, and as long as the values that it borrows.
#[cycle(data)]
#[derive(Debug, Drop)]
pub enum Data<'a> {
    Bool(bool),
    /// A number of the shape's width.
    Int(Number),
    /// A character.
    Char(char),
    /// A string. Two are equal where their texts are, whether slices of a text or not.
    Str(ParsedStr<'a>),
    /// Bytes, likewise.
    Bytes(ParsedByteStr<'a>),
    Unit,
    /// A value that may be there.
    Option(Option<Box<Data<'a>>>),
    /// A list: its items, all of one shape.
    Seq(Vec<Data<'a>>),
    /// A tuple: an item of each of its shapes.
    Tuple(Vec<Data<'a>>),
    /// A map: its keys with their values.
    Map(Vec<(Data<'a>, Data<'a>)>),
    /// A struct without fields, by its name.
    UnitStruct(String),
    /// The name of a struct with one field that has no name, and that field.
    Newtype(String, Box<Data<'a>>),
    /// The name of a struct whose fields have no names, and an item of each of its shapes.
    TupleStruct(String, Vec<Data<'a>>),
    /// The struct's name, and its fields by name in the schema's order.
    Struct(String, Vec<(String, Data<'a>)>),
    /// The enum's name, the variant's, and what the variant holds.
    Variant {
        name: String,
        variant: String,
        content: VariantData<'a>,
    },
    /// A value without a schema, borrowed or owned. Two are equal where their values are.
    Value(AnyValue<'a>),
    /// A value that is kept as its text. Two are equal where their texts are.
    Raw(RawValue<'a>),
}

/// What a variant of an enum holds.
#[cycle(data)]
#[derive(Debug, Drop)]
pub enum VariantData<'a> {
    Unit,
    /// One value.
    Newtype(Box<Data<'a>>),
    /// An item of each of the variant's shapes.
    Tuple(Vec<Data<'a>>),
    /// Fields by name in the schema's order.
    Struct(Vec<(String, Data<'a>)>),
}
