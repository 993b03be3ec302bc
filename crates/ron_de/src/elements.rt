//! The items of lists and tuples.
ghost use Rattle.std.specs.Prelude.{◌≡◌, ◌<◌, ◌≤◌, true, length, OnOk, IfErr};
ghost use Rattle.ron_spec_words.specs.Runs.{is_at};
ghost use Rattle.ron_spec_grammar.specs.Turns.{shape_after};
ghost use Rattle.ron_de_steps.specs.Steps.{past_item, GoesTo};
ghost use Rattle.ron_de_steps.specs.Advance.{Advances};
ghost use Rattle.ron_de.specs.Elements.{elements_view, AreBelow, Encloses, ReadsElements, ReadsElement};
ghost use Rattle.std.specs.List.{All};
ghost use Rattle.ron_de_parts.specs.Errors.{IsOfText};
ghost use Rattle.ron_de_parts.specs.Kept.{Kept};
ghost use Rattle.ron_de_parts.specs.Slices.{StringsAreSliced, ItemsAreSliced};
ghost use Rattle.ron_de.specs.Turns.{SpendsItems, LeadsPast};
ghost use Rattle.ron_lex.specs.Turns.{Moves};

use crate::value::read_value;
use ron_base::error::{Error, Result};
use ron_data::data::Data;
use ron_de_parts::context::Context;
use ron_de_steps::steps::read_comma;
use ron_lex::cursor::Cursor;

/// Of which shapes items are, by their indices in the table.
#[derive(Clone, Copy)]
pub(crate) enum Elements<'s> {
    /// All of one shape.
    All(usize),
    /// One of each of these, in turn.
    Each(&'s [usize]),
}

impl Elements<'_> {
    /// The shape of the item behind so many.
    fn shape_after(self, count: usize) -> Option<usize>
        ensures { result ≡ shape_after (elements_view self.entry) count }
    {
        match self {
            Elements::All(index) => Some(index),
            Elements::Each(indices) => indices.get(count).copied(),
        }
    }
}

/// Reads items up to the closing character. The context is that of the items' list, a level below the value.
#[cycle(read)]
pub(crate) fn read_elements<'o>(
    context: &Context<'_, 'o>,
    cursor: &mut Cursor<'_>,
    elements: Elements<'_>,
    close: char,
) -> Result<Vec<Data<'o>>>
    requires in_range { AreBelow (length context.now.schema) (elements_view elements) }
    requires closes { Encloses close }
    ensures closed { OnOk result (is_at close cursor.new.rest ≡ true) }
    ensures value { ReadsElements context.now (elements_view elements.entry) close cursor.old result cursor.new.rest }
    ensures advance { Advances (Kept context.now.source (ItemsAreSliced cursor.old.rest) cursor.old.text) cursor.old result cursor.new }
    ensures turns { SpendsItems context.now.schema cursor.old result cursor.new }
{
    let mut items = Vec::new(context.alloc());
    'items: while !cursor.is_at(close) {
        let item = read_element(context, cursor, elements, items.len())?;
        items.push(item)?;
        pass_element_end(cursor, elements, items.len(), close)?;
    }
    items.shrink_to_fit();
    Ok(items)
}

/// Goes past a comma, or stops at the closing character, behind so many items. Behind a tuple's last one nothing else
/// may stand.
fn pass_element_end(
    cursor: &mut Cursor<'_>,
    elements: Elements<'_>,
    count: usize,
    close: char,
) -> Result<()>
    ensures text { cursor.new.text ≡ cursor.old.text }
    ensures value { GoesTo (past_item close cursor.old.rest) result (cursor.new.gap, cursor.new.rest) }
    ensures no_longer { length cursor.new.rest ≤ length cursor.old.rest }
    ensures fault { IfErr result IsOfText }
    ensures turns { Moves 1 cursor.old result cursor.new }
{
    match read_comma(cursor, close) {
        Err(Error::ExpectedComma) if elements.shape_after(count).is_none() => {
            Err(Error::ExpectedStructLikeEnd)
        }
        result => result,
    }
}

/// Reads the item behind so many, a level below their list's own.
#[cycle(read)]
fn read_element<'o>(
    context: &Context<'_, 'o>,
    cursor: &mut Cursor<'_>,
    elements: Elements<'_>,
    count: usize,
) -> Result<Data<'o>>
    requires { AreBelow (length context.now.schema) (elements_view elements) }
    ensures value { ReadsElement context.now (elements_view elements.entry) count cursor.old result cursor.new.rest }
    ensures advance { Advances (Kept context.now.source (StringsAreSliced cursor.old.rest) cursor.old.text) cursor.old result cursor.new }
    ensures turns { SpendsItems context.now.schema cursor.old result cursor.new }
    ensures leads { LeadsPast cursor.old result cursor.new }
{
    let Some(index) = elements.shape_after(count) else {
        return Err(Error::ExpectedStructLikeEnd);
    };
    let inner = context.deeper()?;
    read_value(&inner, cursor, index)
}
