//! Reading where the cursor stands: at the start of its text, where nothing but a gap stands before the value, or not.
ghost use Rattle.std.specs.Prelude.{◌≡◌, ◌<◌, ◌+◌, false, Some, length, IfOk};
ghost use Rattle.ron_de_steps.specs.Advance.{Advances};
ghost use Rattle.ron_de_parts.specs.Kept.{Kept};
ghost use Rattle.ron_de_parts.specs.Slices.{IsSliced, StringsAreSliced};
ghost use Rattle.ron_de_parts.specs.Values.{ReadsFirst, ReadsAtPlace, RefusesLeaf, TakesMemoryForEscapes, ExpectsBytesAt};
ghost use Rattle.ron_de.specs.Turns.{SpendsLooked};
ghost use Rattle.ron_spec_grammar.specs.Room.{rank, chain};
ghost use Rattle.ron_de_steps.specs.Spends.{SpendsTyped};

use crate::value::read_value;
use ron_base::error::Result;
use ron_data::data::Data;
use ron_data_schema::schema::Shape;
use ron_de_parts::context::Context;
use ron_de_parts::options::stands_alone;
use ron_de_parts::raw::read_raw;
use ron_lex::cursor::Cursor;

/// Reads the value of the shape at `index` that begins at the cursor, as `read_value` does, wherever that stands in its
/// text.
pub fn read_here<'o>(
    context: &Context<'_, 'o>,
    cursor: &mut Cursor<'_>,
    index: usize,
) -> Result<Data<'o>>
    requires { index < length context.now.schema }
    ensures value { ReadsAtPlace context.now index cursor.old result cursor.new.rest }
    ensures slice { context.now.source ≡ Some cursor.old.text → IfOk result (IsSliced cursor.old.rest cursor.new.rest) }
    ensures advance { Advances (Kept context.now.source (StringsAreSliced cursor.old.rest) cursor.old.text) cursor.old result cursor.new }
    ensures leaf { RefusesLeaf context.now index cursor.old result }
    ensures string { TakesMemoryForEscapes context.now index cursor.old result }
    ensures bytes { ExpectsBytesAt context.now index cursor.old result }
    ensures turns { SpendsTyped false (chain context.now.schema) (rank context.now.schema index + 3) cursor.old result
        cursor.new }
{
    if cursor.is_at_start() {
        read_first(context, cursor, index)
    } else {
        read_value(context, cursor, index)
    }
}

/// Reads it where nothing but a gap stands before it in the text. What an implied `Some` or an unwrapped newtype holds
/// stands there as well.
fn read_first<'o>(
    context: &Context<'_, 'o>,
    cursor: &mut Cursor<'_>,
    index: usize,
) -> Result<Data<'o>>
    requires { index < length context.now.schema }
    ensures value { ReadsFirst context.now index cursor.old result cursor.new.rest }
    ensures slice { context.now.source ≡ Some cursor.old.text → IfOk result (IsSliced cursor.old.rest cursor.new.rest) }
    ensures advance { Advances (Kept context.now.source (StringsAreSliced cursor.old.rest) cursor.old.text) cursor.old result cursor.new }
    ensures leaf { RefusesLeaf context.now index cursor.old result }
    ensures string { TakesMemoryForEscapes context.now index cursor.old result }
    ensures bytes { ExpectsBytesAt context.now index cursor.old result }
    ensures turns { SpendsLooked context.now.schema index cursor.old result cursor.new }
{
    match context.shape(index) {
        Some(Shape::Option(content)) => {
            if !stands_alone(context, cursor) {
                return read_value(context, cursor, index);
            }
            let value = read_first(&context.deeper()?, cursor, *content)?;
            Ok(Data::Option(Some(Box::new(context.alloc(), value)?)))
        }
        Some(Shape::Newtype(name, content)) => {
            if !context.unwraps_newtypes() {
                return read_value(context, cursor, index);
            }
            let value = read_first(&context.deeper()?, cursor, *content)?;
            let name = String::from_str(context.alloc(), name.as_str())?;
            Ok(Data::Newtype(name, Box::new(context.alloc(), value)?))
        }
        Some(Shape::Bool) => read_value(context, cursor, index),
        Some(Shape::Int(_)) => read_value(context, cursor, index),
        Some(Shape::Char) => read_value(context, cursor, index),
        Some(Shape::Str) => read_value(context, cursor, index),
        Some(Shape::Bytes) => read_value(context, cursor, index),
        Some(Shape::Unit) => read_value(context, cursor, index),
        Some(Shape::Seq(_)) => read_value(context, cursor, index),
        Some(Shape::Tuple(_)) => read_value(context, cursor, index),
        Some(Shape::Map(_, _)) => read_value(context, cursor, index),
        Some(Shape::UnitStruct(_)) => read_value(context, cursor, index),
        Some(Shape::TupleStruct(_, _)) => read_value(context, cursor, index),
        Some(Shape::Struct(_, _)) => read_value(context, cursor, index),
        Some(Shape::Enum(_, _)) => read_value(context, cursor, index),
        Some(Shape::Value) => read_value(context, cursor, index),
        Some(Shape::Raw) => read_raw(context, cursor, true),
        None => unreachable!(),
    }
}
