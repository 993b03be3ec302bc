//! Reading newtypes.
ghost use Rattle.std.specs.Prelude.{◌<◌, length, chars, IfOk};
ghost use Rattle.ron_spec_grammar.specs.Data.{newtype_of};
ghost use Rattle.ron_spec_grammar.specs.Schema.{newtype};
ghost use Rattle.ron_data.specs.Datum.{data_view};
ghost use Rattle.ron_de_steps.specs.Advance.{Advances};
ghost use Rattle.ron_de_parts.specs.Kept.{Kept};
ghost use Rattle.ron_de_parts.specs.Slices.{IsSliced, StringsAreSliced};
ghost use Rattle.ron_de_parts.specs.Values.{ReadsShape, ReadsAs};
ghost use Rattle.ron_de.specs.Turns.{SpendsShape};

use crate::content::{read_below, read_content};
use ron_base::error::{Error, Result};
use ron_data::data::Data;
use ron_de_parts::content::Holder;
use ron_de_parts::context::Context;
use ron_de_parts::names::read_name;
use ron_lex::cursor::Cursor;

/// Reads a newtype: perhaps its name, a gap, and its content in parentheses; where newtypes are unwrapped, its content
/// alone.
#[cycle(read)]
#[inline(never)]
pub(crate) fn read_newtype<'o>(
    context: &Context<'_, 'o>,
    cursor: &mut Cursor<'_>,
    name: &str,
    content: usize,
) -> Result<Data<'o>>
    requires { content < length context.now.schema }
    ensures value { ReadsShape context.now (newtype (chars name.now) content) cursor.old result cursor.new.rest }
    ensures slice { IfOk result (IsSliced cursor.old.rest cursor.new.rest) }
    ensures advance { Advances (Kept context.now.source (StringsAreSliced cursor.old.rest) cursor.old.text) cursor.old result cursor.new }
    ensures turns { SpendsShape context.now.schema content cursor.old result cursor.new }
{
    let value = read_held(context, cursor, name, content)?;
    let name = String::from_str(context.alloc(), name)?;
    Ok(Data::Newtype(name, Box::new(context.alloc(), value)?))
}

/// Reads what a newtype holds, and what stands around it.
#[cycle(read)]
fn read_held<'o>(
    context: &Context<'_, 'o>,
    cursor: &mut Cursor<'_>,
    name: &str,
    content: usize,
) -> Result<Data<'o>>
    requires { content < length context.now.schema }
    ensures value { ReadsAs (λ d. newtype_of (chars name.now) (data_view d)) context.now
        (newtype (chars name.now) content) cursor.old result cursor.new.rest }
    ensures advance { Advances (Kept context.now.source (StringsAreSliced cursor.old.rest) cursor.old.text) cursor.old result cursor.new }
    ensures turns { SpendsShape context.now.schema content cursor.old result cursor.new }
{
    if context.unwraps_newtypes() {
        return read_below(context, cursor, content);
    }
    read_name(context, cursor, name)?;
    if !cursor.take('(') {
        return Err(Error::ExpectedNamedStructLike(String::from_str(context.alloc(), name)?));
    }
    read_content(context, cursor, content, false, Holder::Struct)
}
