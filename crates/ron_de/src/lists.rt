//! Reading lists.
ghost use Rattle.std.specs.Prelude.{◌<◌, length, IfOk};
ghost use Rattle.ron_spec_grammar.specs.Schema.{seq};
ghost use Rattle.ron_de_steps.specs.Advance.{Advances};
ghost use Rattle.ron_de_parts.specs.Kept.{Kept};
ghost use Rattle.ron_de_parts.specs.Slices.{IsSliced, StringsAreSliced};
ghost use Rattle.ron_de_parts.specs.Values.{ReadsShape};
ghost use Rattle.ron_de.specs.Turns.{SettlesShape};

use crate::elements::{Elements, read_elements};
use ron_base::error::{Error, Result};
use ron_data::data::Data;
use ron_de_parts::context::Context;
use ron_de_steps::gap::pass_gap;
use ron_lex::cursor::Cursor;

/// Reads a list whose items are of one shape.
#[cycle(read)]
#[inline(never)]
pub(crate) fn read_seq<'o>(
    context: &Context<'_, 'o>,
    cursor: &mut Cursor<'_>,
    item: usize,
) -> Result<Data<'o>>
    requires { item < length context.now.schema }
    ensures value { ReadsShape context.now (seq item) cursor.old result cursor.new.rest }
    ensures slice { IfOk result (IsSliced cursor.old.rest cursor.new.rest) }
    ensures advance { Advances (Kept context.now.source (StringsAreSliced cursor.old.rest) cursor.old.text) cursor.old result cursor.new }
    ensures turns { SettlesShape context.now.schema cursor.old result cursor.new }
{
    if !cursor.take('[') {
        return Err(Error::ExpectedArray);
    }
    pass_gap(cursor)?;
    let inner = context.deeper()?;
    let items = read_elements(&inner, cursor, Elements::All(item), ']')?;
    cursor.pass(']');
    Ok(Data::Seq(items))
}
