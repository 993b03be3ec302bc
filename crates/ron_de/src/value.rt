//! Reading one value by its shape.
ghost use Rattle.std.specs.Prelude.{◌≡◌, ◌<◌, ◌≤◌, ◌+◌, false, Some, length, IfOk, OnOk, IfErr};
ghost use Rattle.ron_de_parts.specs.Errors.{IsOfReading};
ghost use Rattle.ron_de_parts.specs.Kept.{Kept};
ghost use Rattle.ron_de_parts.specs.Slices.{IsSliced, StringsAreSliced};
ghost use Rattle.ron_de_parts.specs.Values.{ReadsValue, RefusesLeaf, TakesMemoryForEscapes, ExpectsBytesAt};
ghost use Rattle.ron_spec_grammar.specs.Room.{rank, chain};
ghost use Rattle.ron_de_steps.specs.Spends.{SpendsTyped};

use crate::enums::read_enum;
use crate::lists::read_seq;
use crate::maps::read_map;
use crate::newtypes::read_newtype;
use crate::options::read_option;
use crate::structs::read_struct;
use crate::tuples::{read_tuple, read_tuple_struct};
use ron_base::error::Result;
use ron_data::data::Data;
use ron_data_schema::schema::Shape;
use ron_de_parts::bytes::read_bytes;
use ron_de_parts::context::Context;
use ron_de_parts::leaves::{
    read_bool, read_char, read_integer, read_str, read_unit, read_unit_struct,
};
use ron_de_parts::raw::read_raw;
use ron_de_parts::untyped::read_untyped;
use ron_lex::cursor::Cursor;

/// Reads the value of the shape at `index` that begins at the cursor. Where it is refused, the cursor stays somewhere
/// in the text, behind what was gone past; its text stays.
#[cycle(read)]
pub fn read_value<'o>(
    context: &Context<'_, 'o>,
    cursor: &mut Cursor<'_>,
    index: usize,
) -> Result<Data<'o>>
    requires { index < length context.now.schema }
    ensures text { cursor.new.text ≡ cursor.old.text }
    ensures value { ReadsValue context.now index cursor.old result cursor.new.rest }
    ensures no_longer { OnOk result (length cursor.new.rest ≤ length cursor.old.rest) }
    ensures fault { IfErr result IsOfReading }

    // Where slices are taken of the text that is read, a string or byte string is one unless it holds an escape or a
    // continuation: the value itself at its own place, and each that it holds at a place to which whole tokens lead from
    // there.
    ensures slice { context.now.source ≡ Some cursor.old.text → IfOk result (IsSliced cursor.old.rest cursor.new.rest) }
    ensures slices { IfOk result (Kept context.now.source (StringsAreSliced cursor.old.rest) cursor.old.text) }

    // An integer or a character takes memory only to be refused, and no level.
    ensures leaf { RefusesLeaf context.now index cursor.old result }

    // A string of which a slice is taken takes memory only for its escapes and continuations.
    ensures string { TakesMemoryForEscapes context.now index cursor.old result }

    // Where no bytes begin, bytes want no memory to be refused.
    ensures bytes { ExpectsBytesAt context.now index cursor.old result }
    ensures turns { SpendsTyped false (chain context.now.schema) (rank context.now.schema index + 2) cursor.old result
        cursor.new }
{
    match context.shape(index) {
        Some(Shape::Bool) => read_bool(cursor),
        Some(Shape::Int(width)) => read_integer(context.alloc(), cursor, *width),
        Some(Shape::Char) => read_char(cursor),
        Some(Shape::Str) => read_str(context, cursor),
        Some(Shape::Bytes) => read_bytes(context, cursor),
        Some(Shape::Unit) => read_unit(cursor),
        Some(Shape::Seq(item)) => read_seq(context, cursor, *item),
        Some(Shape::Tuple(shapes)) => read_tuple(context, cursor, shapes.as_slice()),
        Some(Shape::UnitStruct(name)) => read_unit_struct(context, cursor, name.as_str()),
        Some(Shape::Newtype(name, content)) => read_newtype(
            context,
            cursor,
            name.as_str(),
            *content,
        ),
        Some(Shape::TupleStruct(name, shapes)) => {
            read_tuple_struct(context, cursor, name.as_str(), shapes.as_slice())
        }
        Some(Shape::Struct(name, list)) => read_struct(context, cursor, name.as_str(), list),
        Some(Shape::Option(content)) => read_option(context, cursor, *content),
        Some(Shape::Map(key, value)) => read_map(context, cursor, *key, *value),
        Some(Shape::Enum(name, variants)) => {
            read_enum(context, cursor, name.as_str(), variants.as_slice())
        }
        Some(Shape::Value) => read_untyped(context, cursor),
        Some(Shape::Raw) => read_raw(context, cursor, false),
        None => unreachable!(),
    }
}
