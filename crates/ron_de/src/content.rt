//! What stands in parentheses alone: the content of a `Some`, of a newtype, or of a variant that holds one value.
ghost use Rattle.std.specs.Prelude.{◌<◌, ◌∷◌, length};
ghost use Rattle.ron_spec_words.specs.Characters.{left_parenthesis};
ghost use Rattle.ron_de_steps.specs.Advance.{Advances};
ghost use Rattle.ron_de_parts.specs.Content.{ReadsBelow, ReadsContent, ReadsBareBelow};
ghost use Rattle.ron_de_parts.specs.Kept.{Kept};
ghost use Rattle.ron_de_parts.specs.Slices.{StringsAreSliced};
ghost use Rattle.ron_de.specs.Turns.{SpendsShape, SpendsBare, SpendsGroup};

use crate::bare::read_bare;
use crate::value::read_value;
use ron_base::error::Result;
use ron_data::data::Data;
use ron_de_parts::content::{Holder, close_content};
use ron_de_parts::context::Context;
use ron_de_steps::gap::pass_gap;
use ron_lex::cursor::Cursor;

/// Reads content behind its opening parenthesis, a level deeper: bare content where it is unwrapped, else a value with
/// perhaps a comma behind it; and the closing one.
#[cycle(read)]
pub(crate) fn read_content<'o>(
    context: &Context<'_, 'o>,
    cursor: &mut Cursor<'_>,
    content: usize,
    is_unwrapped: bool,
    holder: Holder,
) -> Result<Data<'o>>
    requires { content < length context.now.schema }
    ensures value { ReadsContent context.now is_unwrapped content (left_parenthesis ∷ cursor.old.rest) result
        cursor.new.rest }
    ensures advance { Advances (Kept context.now.source (StringsAreSliced cursor.old.rest) cursor.old.text) cursor.old result cursor.new }
    ensures turns { SpendsGroup context.now.schema cursor.old result cursor.new }
{
    pass_gap(cursor)?;
    if is_unwrapped {
        return read_bare_below(context, cursor, content, holder);
    }
    let value = read_below(context, cursor, content)?;
    close_content(cursor, holder)?;
    Ok(value)
}

/// Reads a value a level deeper.
#[cycle(read)]
pub(crate) fn read_below<'o>(
    context: &Context<'_, 'o>,
    cursor: &mut Cursor<'_>,
    content: usize,
) -> Result<Data<'o>>
    requires { content < length context.now.schema }
    ensures value { ReadsBelow context.now content cursor.old result cursor.new.rest }
    ensures advance { Advances (Kept context.now.source (StringsAreSliced cursor.old.rest) cursor.old.text) cursor.old result cursor.new }
    ensures turns { SpendsShape context.now.schema content cursor.old result cursor.new }
{
    let inner = context.deeper()?;
    read_value(&inner, cursor, content)
}

/// Reads bare content a level deeper, up to and past the closing parenthesis.
#[cycle(read)]
pub(crate) fn read_bare_below<'o>(
    context: &Context<'_, 'o>,
    cursor: &mut Cursor<'_>,
    content: usize,
    holder: Holder,
) -> Result<Data<'o>>
    requires { content < length context.now.schema }
    ensures value { ReadsBareBelow context.now content cursor.old result cursor.new.rest }
    ensures advance { Advances (Kept context.now.source (StringsAreSliced cursor.old.rest) cursor.old.text) cursor.old result cursor.new }
    ensures turns { SpendsBare context.now.schema content cursor.old result cursor.new }
{
    let inner = context.deeper()?;
    read_bare(&inner, cursor, content, holder)
}
