//! Reading bare content: what stands in the parentheses of a `Some` or a variant that are those of the value as well.
ghost use Rattle.std.specs.Prelude.{◌≡◌, ◌<◌, true, suc, nat_lt, Some, length, chars, slice_get};
ghost use Rattle.std.specs.List.{list_all};
ghost use Rattle.ron_spec_grammar.specs.Room.{rank};
ghost use Rattle.ron_spec_grammar.specs.Schema.{optional, newtype};
ghost use Rattle.ron_de_steps.specs.Advance.{Advances};
ghost use Rattle.ron_de_parts.specs.Content.{ReadsBare, ReadsBareShape, ReadsClosed, ReadsBareItems};
ghost use Rattle.ron_de_parts.specs.Kept.{Kept};
ghost use Rattle.ron_de_parts.specs.Slices.{StringsAreSliced, ItemsAreSliced};
ghost use Rattle.ron_de.specs.Turns.{SpendsBare, SpendsShape, SpendsItems};

use crate::content::{read_bare_below, read_below};
use crate::structs::read_fields_inside;
use crate::tuples::read_tuple_inside;
use crate::value::read_value;
use ron_base::error::Result;
use ron_data::data::Data;
use ron_data_schema::schema::Shape;
use ron_de_parts::content::{Holder, close_bare, close_content};
use ron_de_parts::context::Context;
use ron_de_parts::options::stands_alone;
use ron_de_parts::raw::read_bare_raw;
use ron_de_parts::tuples::Owner;
use ron_de_parts::untyped::read_bare_untyped;
use ron_lex::cursor::Cursor;

/// Reads bare content of the shape at `index`, up to and past the closing parenthesis.
#[cycle(read)]
pub(crate) fn read_bare<'o>(
    context: &Context<'_, 'o>,
    cursor: &mut Cursor<'_>,
    index: usize,
    holder: Holder,
) -> Result<Data<'o>>
    requires { index < length context.now.schema }
    ensures value { ReadsBare context.now index cursor.old result cursor.new.rest }
    ensures advance { Advances (Kept context.now.source (StringsAreSliced cursor.old.rest) cursor.old.text) cursor.old result cursor.new }
    ensures turns { SpendsBare context.now.schema index cursor.old result cursor.new }
{
    match context.shape(index) {
        Some(Shape::Unit) => {
            close_bare(cursor, holder)?;
            Ok(Data::Unit)
        }
        Some(Shape::UnitStruct(name)) => {
            if cursor.opens_interval() {
                return read_closed(context, cursor, index, holder);
            }
            close_bare(cursor, holder)?;
            Ok(Data::UnitStruct(String::from_str(context.alloc(), name.as_str())?))
        }
        Some(Shape::Option(content)) => read_bare_option(context, cursor, index, *content, holder),
        Some(Shape::Newtype(name, content)) => {
            read_bare_newtype(context, cursor, name.as_str(), *content, holder)
        }
        Some(Shape::Tuple(shapes)) => {
            let items = read_bare_items(context, cursor, shapes.as_slice(), Owner::Tuple, holder)?;
            Ok(Data::Tuple(items))
        }
        Some(Shape::TupleStruct(name, shapes)) => {
            let name = name.as_str();
            let items = read_bare_items(
                context,
                cursor,
                shapes.as_slice(),
                Owner::Struct(name),
                holder,
            )?;
            Ok(Data::TupleStruct(String::from_str(context.alloc(), name)?, items))
        }
        Some(Shape::Struct(name, list)) => {
            if cursor.opens_interval() {
                return read_closed(context, cursor, index, holder);
            }
            let name = name.as_str();
            let fields = read_fields_inside(context, cursor, name, list)?;
            Ok(Data::Struct(String::from_str(context.alloc(), name)?, fields))
        }
        Some(Shape::Value) => read_bare_untyped(context, cursor, holder),
        Some(Shape::Bool) => read_closed(context, cursor, index, holder),
        Some(Shape::Int(_)) => read_closed(context, cursor, index, holder),
        Some(Shape::Char) => read_closed(context, cursor, index, holder),
        Some(Shape::Str) => read_closed(context, cursor, index, holder),
        Some(Shape::Bytes) => read_closed(context, cursor, index, holder),
        Some(Shape::Seq(_)) => read_closed(context, cursor, index, holder),
        Some(Shape::Map(_, _)) => read_closed(context, cursor, index, holder),
        Some(Shape::Enum(_, _)) => read_closed(context, cursor, index, holder),
        Some(Shape::Raw) => read_bare_raw(context, cursor, holder),
        None => unreachable!(),
    }
}

/// Reads bare content of a shape that has no bare form of its own: a value, with perhaps a comma behind it.
#[cycle(read)]
fn read_closed<'o>(
    context: &Context<'_, 'o>,
    cursor: &mut Cursor<'_>,
    index: usize,
    holder: Holder,
) -> Result<Data<'o>>
    requires { index < length context.now.schema }
    ensures value { ReadsClosed context.now index cursor.old result cursor.new.rest }
    ensures advance { Advances (Kept context.now.source (StringsAreSliced cursor.old.rest) cursor.old.text) cursor.old result cursor.new }
    ensures turns { SpendsShape context.now.schema index cursor.old result cursor.new }
{
    let value = read_value(context, cursor, index)?;
    close_content(cursor, holder)?;
    Ok(value)
}

/// Reads a bare option: its content is bare too where it stands alone.
#[cycle(read)]
fn read_bare_option<'o>(
    context: &Context<'_, 'o>,
    cursor: &mut Cursor<'_>,
    index: usize,
    content: usize,
    holder: Holder,
) -> Result<Data<'o>>
    requires at { slice_get context.now.schema index ≡ Some (optional content) }
    requires in_range { (index < length context.now.schema) × (content < length context.now.schema) }
    requires falls { rank context.now.schema index ≡ suc (rank context.now.schema content) }
    ensures value { ReadsBare context.now index cursor.old result cursor.new.rest }
    ensures advance { Advances (Kept context.now.source (StringsAreSliced cursor.old.rest) cursor.old.text) cursor.old result cursor.new }
    ensures turns { SpendsBare context.now.schema index cursor.old result cursor.new }
{
    if !stands_alone(context, cursor) {
        return read_closed(context, cursor, index, holder);
    }
    let value = read_bare_below(context, cursor, content, holder)?;
    Ok(Data::Option(Some(Box::new(context.alloc(), value)?)))
}

/// Reads a bare newtype: its content alone.
#[cycle(read)]
fn read_bare_newtype<'o>(
    context: &Context<'_, 'o>,
    cursor: &mut Cursor<'_>,
    name: &str,
    content: usize,
    holder: Holder,
) -> Result<Data<'o>>
    requires { content < length context.now.schema }
    ensures value { ReadsBareShape context.now (newtype (chars name.now) content) cursor.old result cursor.new.rest }
    ensures advance { Advances (Kept context.now.source (StringsAreSliced cursor.old.rest) cursor.old.text) cursor.old result cursor.new }
    ensures turns { SpendsShape context.now.schema content cursor.old result cursor.new }
{
    let value = read_below(context, cursor, content)?;
    close_content(cursor, holder)?;
    let name = String::from_str(context.alloc(), name)?;
    Ok(Data::Newtype(name, Box::new(context.alloc(), value)?))
}

/// Reads the bare items of a tuple. Where there are none, a comma may stand all the same.
#[cycle(read)]
fn read_bare_items<'o>(
    context: &Context<'_, 'o>,
    cursor: &mut Cursor<'_>,
    shapes: &[usize],
    owner: Owner<'_>,
    holder: Holder,
) -> Result<Vec<Data<'o>>>
    requires { list_all (λ j. nat_lt j (length context.now.schema)) shapes.now ≡ true }
    ensures value { ReadsBareItems context.now shapes.now cursor.old result cursor.new.rest }
    ensures advance { Advances (Kept context.now.source (ItemsAreSliced cursor.old.rest) cursor.old.text) cursor.old result cursor.new }
    ensures turns { SpendsItems context.now.schema cursor.old result cursor.new }
{
    if !shapes.is_empty() {
        return read_tuple_inside(context, cursor, shapes, owner);
    }
    context.deeper()?;
    close_bare(cursor, holder)?;
    Ok(Vec::new(context.alloc()))
}
