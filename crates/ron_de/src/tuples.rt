//! Reading tuples and tuple structs.
ghost use Rattle.std.specs.Prelude.{◌≡◌, ◌∷◌, true, nat_lt, length, chars, IfOk};
ghost use Rattle.std.specs.List.{list_all};
ghost use Rattle.ron_spec_words.specs.Characters.{left_parenthesis};
ghost use Rattle.ron_spec_grammar.specs.Schema.{tuple, tuple_struct};
ghost use Rattle.ron_de_steps.specs.Advance.{Advances};
ghost use Rattle.ron_de_parts.specs.Content.{ReadsTuple, ReadsTupleInside};
ghost use Rattle.ron_de_parts.specs.Kept.{Kept};
ghost use Rattle.ron_de_parts.specs.Slices.{IsSliced, StringsAreSliced, ItemsAreSliced};
ghost use Rattle.ron_de_parts.specs.Values.{ReadsShape};
ghost use Rattle.ron_de.specs.Turns.{SettlesShape, SpendsGroup, SpendsItems};

use crate::elements::{Elements, read_elements};
use ron_base::error::{Error, Result};
use ron_data::data::Data;
use ron_de_parts::context::Context;
use ron_de_parts::names::before_struct;
use ron_de_parts::tuples::{Owner, expect_length};
use ron_de_steps::gap::pass_gap;
use ron_lex::cursor::Cursor;

/// Reads a tuple: an item of each of the shapes.
#[cycle(read)]
#[inline(never)]
pub(crate) fn read_tuple<'o>(
    context: &Context<'_, 'o>,
    cursor: &mut Cursor<'_>,
    shapes: &[usize],
) -> Result<Data<'o>>
    requires { list_all (λ j. nat_lt j (length context.now.schema)) shapes.now ≡ true }
    ensures value { ReadsShape context.now (tuple shapes.now) cursor.old result cursor.new.rest }
    ensures slice { IfOk result (IsSliced cursor.old.rest cursor.new.rest) }
    ensures advance { Advances (Kept context.now.source (StringsAreSliced cursor.old.rest) cursor.old.text) cursor.old result cursor.new }
    ensures turns { SettlesShape context.now.schema cursor.old result cursor.new }
{
    if !cursor.take('(') {
        return Err(Error::ExpectedStructLike);
    }
    let items = read_tuple_items(context, cursor, shapes, Owner::Tuple)?;
    Ok(Data::Tuple(items))
}

/// Reads a tuple struct: perhaps its name, and directly behind it an item of each of the shapes in parentheses.
#[cycle(read)]
#[inline(never)]
pub(crate) fn read_tuple_struct<'o>(
    context: &Context<'_, 'o>,
    cursor: &mut Cursor<'_>,
    name: &str,
    shapes: &[usize],
) -> Result<Data<'o>>
    requires { list_all (λ j. nat_lt j (length context.now.schema)) shapes.now ≡ true }
    ensures value { ReadsShape context.now (tuple_struct (chars name.now) shapes.now) cursor.old result cursor.new.rest }
    ensures slice { IfOk result (IsSliced cursor.old.rest cursor.new.rest) }
    ensures advance { Advances (Kept context.now.source (StringsAreSliced cursor.old.rest) cursor.old.text) cursor.old result cursor.new }
    ensures turns { SettlesShape context.now.schema cursor.old result cursor.new }
{
    before_struct(context, cursor, name)?;
    if !cursor.take('(') {
        return Err(Error::ExpectedNamedStructLike(String::from_str(context.alloc(), name)?));
    }
    let items = read_tuple_items(context, cursor, shapes, Owner::Struct(name))?;
    Ok(Data::TupleStruct(String::from_str(context.alloc(), name)?, items))
}

/// Reads an item of each of the shapes behind the opening parenthesis, and the closing one.
#[cycle(read)]
pub(crate) fn read_tuple_items<'o>(
    context: &Context<'_, 'o>,
    cursor: &mut Cursor<'_>,
    shapes: &[usize],
    owner: Owner<'_>,
) -> Result<Vec<Data<'o>>>
    requires { list_all (λ j. nat_lt j (length context.now.schema)) shapes.now ≡ true }
    ensures value { ReadsTuple context.now shapes.now (left_parenthesis ∷ cursor.old.rest) result cursor.new.rest }
    ensures advance { Advances (Kept context.now.source (ItemsAreSliced cursor.old.rest) cursor.old.text) cursor.old result cursor.new }
    ensures turns { SpendsGroup context.now.schema cursor.old result cursor.new }
{
    pass_gap(cursor)?;
    read_tuple_inside(context, cursor, shapes, owner)
}

/// Reads an item of each of the shapes and the closing parenthesis, where the opening one and its gap are behind.
#[cycle(read)]
pub(crate) fn read_tuple_inside<'o>(
    context: &Context<'_, 'o>,
    cursor: &mut Cursor<'_>,
    shapes: &[usize],
    owner: Owner<'_>,
) -> Result<Vec<Data<'o>>>
    requires { list_all (λ j. nat_lt j (length context.now.schema)) shapes.now ≡ true }
    ensures value { ReadsTupleInside context.now shapes.now cursor.old result cursor.new.rest }
    ensures advance { Advances (Kept context.now.source (ItemsAreSliced cursor.old.rest) cursor.old.text) cursor.old result cursor.new }
    ensures turns { SpendsItems context.now.schema cursor.old result cursor.new }
{
    let inner = context.deeper()?;
    let items = read_elements(&inner, cursor, Elements::Each(shapes), ')')?;
    expect_length(context.alloc(), owner, shapes.len(), items.len())?;
    cursor.pass(')');
    Ok(items)
}
