//! Reading one value.
ghost use Rattle.std.specs.Prelude.{true, false};
ghost use Rattle.ron_lex.specs.Turns.{Grows};
ghost use Rattle.ron_de_steps.specs.Advance.{Advances};
ghost use Rattle.ron_de_steps.specs.Spends.{SpendsAny, SpendsUntyped};
ghost use Rattle.ron_de_untyped.specs.Order.{HoldsOrder};
ghost use Rattle.ron_de_untyped.specs.Values.{ReadsAny, ReadsBelow, ReadsWord};

use crate::entries::{Keys, read_mapping};
use crate::form::{Form, form_at};
use crate::groups::{Brackets, read_group};
use crate::items::read_sequence;
use crate::leaves::{read_bytes, read_char, read_string, read_unit};
use crate::ranges::read_interval;
use crate::somes::read_some;
use crate::words::{enter_named, enter_some, take_fixed, take_unit};
use ron_base::error::Result;
use ron_de_steps::context::Context;
use ron_de_steps::steps::pass_last_comma;
use ron_lex::cursor::Cursor;
use ron_lex::kinds::Kind;
use ron_value::value::Value;

/// Reads the value that begins at the cursor, within the levels that are left. Bare, it is what stands in the parentheses
/// of a `Some` where that is unwrapped. Where it is refused, the cursor stays somewhere in the text, behind what was gone
/// past; its text stays.
#[cycle(read)]
pub fn read_any(context: &Context, cursor: &mut Cursor<'_>, is_bare: bool) -> Result<Value>
    ensures value { ReadsAny context.now is_bare cursor.old result cursor.new.rest }
    ensures advance { Advances HoldsOrder cursor.old result cursor.new }
    ensures turns { SpendsAny is_bare 2 cursor.old result cursor.new }
    ensures grows { Grows cursor.old cursor.new }
{
    if is_bare {
        return read_bare(context, cursor);
    }
    read_value(context, cursor)
}

/// Reads a value a level deeper.
#[cycle(read)]
pub(crate) fn read_below(context: &Context, cursor: &mut Cursor<'_>) -> Result<Value>
    ensures value { ReadsBelow context.now cursor.old result cursor.new.rest }
    ensures advance { Advances HoldsOrder cursor.old result cursor.new }
    ensures turns { SpendsUntyped 2 cursor.old result cursor.new }
    ensures grows { Grows cursor.old cursor.new }
{
    let inner = context.deeper()?;
    read_any(&inner, cursor, false)
}

/// Reads a value by what it begins with.
#[cycle(read)]
fn read_value(context: &Context, cursor: &mut Cursor<'_>) -> Result<Value>
    ensures value { ReadsAny context.now false cursor.old result cursor.new.rest }
    ensures advance { Advances HoldsOrder cursor.old result cursor.new }
    ensures turns { SpendsUntyped 2 cursor.old result cursor.new }
    ensures grows { Grows cursor.old cursor.new }
{
    match form_at(cursor) {
        Form::Character => read_char(cursor),
        Form::Text => read_string(context.alloc(), cursor),
        Form::Bytes => read_bytes(context.alloc(), cursor),
        Form::List => read_group(context, cursor, Brackets::List),
        Form::Map => read_group(context, cursor, Brackets::Map),
        Form::Group => {
            if take_unit(cursor) {
                return Ok(Value::Unit);
            }
            read_group(context, cursor, Brackets::Group)
        }
        Form::Number => read_interval(context.alloc(), cursor),
        Form::Word => read_word(context, cursor),
    }
}

/// Reads a value that begins with a word: a boolean, an option, a name before a group, or a name alone.
#[cycle(read)]
fn read_word(context: &Context, cursor: &mut Cursor<'_>) -> Result<Value>
    ensures value { ReadsWord context.now cursor.old result cursor.new.rest }
    ensures advance { Advances HoldsOrder cursor.old result cursor.new }
    ensures turns { SpendsUntyped 1 cursor.old result cursor.new }
    ensures grows { Grows cursor.old cursor.new }
{
    if let Some(value) = take_fixed(cursor) {
        return Ok(value);
    }
    let is_some = enter_some(cursor)?;
    if is_some {
        return read_some(context, cursor);
    }
    let is_named = enter_named(cursor)?;
    if is_named {
        return read_group(context, cursor, Brackets::Group);
    }
    read_unit(cursor)
}

/// Reads bare content, up to the closing parenthesis: nothing, fields, several items, or a value with perhaps a comma
/// behind it.
#[cycle(read)]
#[inline(never)]
fn read_bare(context: &Context, cursor: &mut Cursor<'_>) -> Result<Value>
    ensures value { ReadsAny context.now true cursor.old result cursor.new.rest }
    ensures advance { Advances HoldsOrder cursor.old result cursor.new }
    ensures turns { SpendsAny true 2 cursor.old result cursor.new }
    ensures grows { Grows cursor.old cursor.new }
{
    if cursor.is_at(')') {
        return Ok(Value::Unit);
    }
    match cursor.kind(context.alloc())? {
        Kind::Named => read_mapping(context, cursor, Keys::Names),
        Kind::Many => read_sequence(context, cursor, ')', true),
        Kind::Newtype | Kind::Broken => {
            let value = read_value(context, cursor)?;
            pass_last_comma(cursor)?;
            Ok(value)
        }
    }
}
