//! Values without a schema: as data of the shape that takes any of them, and as those of unknown fields.
ghost use Rattle.std.specs.Prelude.{◌≡◌, ◌≤◌, true, false, length, IfOk, OnOk, IfErr};
ghost use Rattle.ron_spec_grammar.specs.Schema.{any_value};
ghost use Rattle.ron_de_untyped.specs.Values.{ReadsAny};
ghost use Rattle.ron_de_steps.specs.Advance.{Advances};
ghost use Rattle.ron_de_steps.specs.Spends.{SpendsAny};
ghost use Rattle.ron_de_parts.specs.Content.{ReadsBareShape};
ghost use Rattle.ron_de_parts.specs.Errors.{IsOfReading};
ghost use Rattle.ron_de_parts.specs.Slices.{IsSliced, StringsAreSliced};
ghost use Rattle.ron_de_parts.specs.Terms.{conditions_of};
ghost use Rattle.ron_de_parts.specs.Turns.{SpendsLeaf};
ghost use Rattle.ron_de_parts.specs.Values.{ReadsShape, SkipsValue};

use crate::content::{Holder, close_alone};
use crate::context::Context;
use ron_base::error::Result;
use ron_data::any_value::AnyValue;
use ron_data::data::Data;
use ron_de_untyped::value::read_any;
use ron_lex::cursor::Cursor;
use ron_value::value::Value;

/// Reads a value of any form.
#[inline(never)]
pub fn read_untyped<'o>(context: &Context<'_, 'o>, cursor: &mut Cursor<'_>) -> Result<Data<'o>>
    ensures value { ReadsShape context.now any_value cursor.old result cursor.new.rest }
    ensures slice { IfOk result (IsSliced cursor.old.rest cursor.new.rest) }
    ensures advance { Advances (StringsAreSliced cursor.old.rest cursor.old.text) cursor.old result cursor.new }
    ensures turns { SpendsLeaf false 2 cursor.old result cursor.new }
{
    let value = read_within(context, cursor, false)?;
    Ok(Data::Value(AnyValue::Owned(value)))
}

/// Reads bare content of any form, up to and past the closing parenthesis. What may have a comma behind it has read
/// that too.
pub fn read_bare_untyped<'o>(
    context: &Context<'_, 'o>,
    cursor: &mut Cursor<'_>,
    holder: Holder,
) -> Result<Data<'o>>
    ensures value { ReadsBareShape context.now any_value cursor.old result cursor.new.rest }
    ensures advance { Advances (StringsAreSliced cursor.old.rest cursor.old.text) cursor.old result cursor.new }
    ensures turns { SpendsLeaf true 2 cursor.old result cursor.new }
{
    let value = read_within(context, cursor, true)?;
    close_alone(cursor, holder)?;
    Ok(Data::Value(AnyValue::Owned(value)))
}

/// Reads a value of any form, and drops it.
pub fn skip_untyped(context: &Context<'_, '_>, cursor: &mut Cursor<'_>) -> Result<()>
    ensures text { cursor.new.text ≡ cursor.old.text }
    ensures value { SkipsValue context.now cursor.old result cursor.new.rest }
    ensures no_longer { OnOk result (length cursor.new.rest ≤ length cursor.old.rest) }
    ensures fault { IfErr result IsOfReading }
    ensures turns { SpendsLeaf false 2 cursor.old result cursor.new }
{
    read_within(context, cursor, false)?;
    Ok(())
}

/// Reads a value of any form, bare or not, within the levels that are left.
fn read_within(context: &Context<'_, '_>, cursor: &mut Cursor<'_>, is_bare: bool) -> Result<Value>
    ensures text { cursor.new.text ≡ cursor.old.text }
    ensures value { ReadsAny (conditions_of context.now) is_bare cursor.old result cursor.new.rest }
    ensures no_longer { OnOk result (length cursor.new.rest ≤ length cursor.old.rest) }
    ensures fault { IfErr result IsOfReading }
    ensures turns { SpendsAny is_bare 2 cursor.old result cursor.new }
{
    read_any(context.reading(), cursor, is_bare)
}
