//! Reading options.
ghost use Rattle.std.specs.Prelude.{◌≡◌, ◌<◌, false, length, IfOk, codes};
ghost use Rattle.ron_spec_words.specs.Directly.{stands};
ghost use Rattle.ron_spec_grammar.specs.Data.{some_of};
ghost use Rattle.ron_spec_grammar.specs.Schema.{optional};
ghost use Rattle.ron_data.specs.Datum.{data_view};
ghost use Rattle.ron_de_steps.specs.Advance.{Advances};
ghost use Rattle.ron_de_parts.specs.Kept.{Kept};
ghost use Rattle.ron_de_parts.specs.Slices.{IsSliced, StringsAreSliced};
ghost use Rattle.ron_de_parts.specs.Values.{ReadsShape, ReadsAs};
ghost use Rattle.ron_de.specs.Turns.{SpendsLooked};

use crate::content::{read_below, read_content};
use ron_base::error::{Error, Result};
use ron_data::data::Data;
use ron_de_parts::content::Holder;
use ron_de_parts::context::Context;
use ron_de_parts::options::take_none;
use ron_lex::cursor::Cursor;

/// Reads an option: the word `None`; the word `Some` with its content in parentheses; or, where a `Some` is implied,
/// the content alone.
#[cycle(read)]
#[inline(never)]
pub(crate) fn read_option<'o>(
    context: &Context<'_, 'o>,
    cursor: &mut Cursor<'_>,
    content: usize,
) -> Result<Data<'o>>
    requires { content < length context.now.schema }
    ensures value { ReadsShape context.now (optional content) cursor.old result cursor.new.rest }
    ensures slice { IfOk result (IsSliced cursor.old.rest cursor.new.rest) }
    ensures advance { Advances (Kept context.now.source (StringsAreSliced cursor.old.rest) cursor.old.text) cursor.old result cursor.new }
    ensures turns { SpendsLooked context.now.schema content cursor.old result cursor.new }
{
    if take_none(cursor) {
        return Ok(Data::Option(None));
    }
    let value = read_some(context, cursor, content)?;
    Ok(Data::Option(Some(Box::new(context.alloc(), value)?)))
}

/// Reads the content of an option that isn't `None`.
#[cycle(read)]
fn read_some<'o>(
    context: &Context<'_, 'o>,
    cursor: &mut Cursor<'_>,
    content: usize,
) -> Result<Data<'o>>
    requires in_range { content < length context.now.schema }
    requires not_none { stands (codes "None") cursor.old.rest ≡ false }
    ensures value { ReadsAs (λ d. some_of (data_view d)) context.now (optional content) cursor.old result cursor.new.rest }
    ensures advance { Advances (Kept context.now.source (StringsAreSliced cursor.old.rest) cursor.old.text) cursor.old result cursor.new }
    ensures turns { SpendsLooked context.now.schema content cursor.old result cursor.new }
{
    if cursor.take_some() {
        return read_content(
            context,
            cursor,
            content,
            context.unwraps_variants(),
            Holder::Some,
        );
    }
    if context.implies_some() {
        return read_below(context, cursor, content);
    }
    Err(Error::ExpectedOption)
}
