//! The items of lists.
ghost use Rattle.std.specs.Prelude.{◌≡◌, ◌<◌, ◌≤◌, ◌&&◌, true, nat_lt, length, IfOk, IfErr};
ghost use Rattle.ron_lex.specs.Turns.{Grows, Moves};
ghost use Rattle.ron_de_steps.specs.Advance.{Advances};
ghost use Rattle.ron_de_steps.specs.Errors.{IsOfText};
ghost use Rattle.ron_de_steps.specs.Spends.{SpendsUntyped};
ghost use Rattle.ron_de_steps.specs.Steps.{past_comma};
ghost use Rattle.ron_de_untyped.specs.Order.{HoldsOrder, HoldItemsOrder};
ghost use Rattle.ron_de_untyped.specs.Comma.{Follows};
ghost use Rattle.ron_de_untyped.specs.Values.{ReadsItems, ReadsSequence};

use crate::value::read_below;
use ron_base::error::{Error, Result};
use ron_de_steps::context::Context;
use ron_de_steps::steps;
use ron_lex::cursor::Cursor;
use ron_value::value::Value;

/// Reads items as a list, with the level that it takes, up to where no comma stands or the closing character. Where
/// `is_several`, two are wanted.
#[cycle(read)]
#[inline(never)]
pub(crate) fn read_sequence(
    context: &Context,
    cursor: &mut Cursor<'_>,
    close: char,
    is_several: bool,
) -> Result<Value>
    ensures value { ReadsSequence is_several context.now close cursor.old result cursor.new.rest }
    ensures advance { Advances HoldsOrder cursor.old result cursor.new }
    ensures turns { SpendsUntyped 2 cursor.old result cursor.new }
    ensures grows { Grows cursor.old cursor.new }
{
    let inner = context.deeper()?;
    let items = read_items(&inner, cursor, close)?;
    if are_too_few(is_several, &items) {
        return Err(Error::ExpectedComma);
    }
    Ok(Value::Seq(items))
}

/// Whether items are missing, where several are wanted.
fn are_too_few(is_several: bool, items: &Vec<Value>) -> bool
    ensures { result ≡ (is_several && nat_lt (length items.now.items) 2) }
{
    is_several && items.len() < 2
}

/// Reads items, each a level below. The context is that of the items' list.
#[cycle(read)]
#[inline(never)]
fn read_items(context: &Context, cursor: &mut Cursor<'_>, close: char) -> Result<Vec<Value>>
    ensures value { ReadsItems context.now close cursor.old result cursor.new.rest }
    ensures advance { Advances HoldItemsOrder cursor.old result cursor.new }
    ensures turns { SpendsUntyped 2 cursor.old result cursor.new }
    ensures grows { Grows cursor.old cursor.new }
{
    let mut items = Vec::new(context.alloc());
    let mut more = !cursor.is_at(close);
    'items: while more {
        let item = read_below(context, cursor)?;
        items.push(item)?;
        more = more_follow(cursor, close)?;
    }
    Ok(items)
}

/// Goes past the gap behind an item, and past a comma with its gap, where one stands. Answers whether another item
/// has to stand here.
#[inline(always)]
pub(crate) fn more_follow(cursor: &mut Cursor<'_>, close: char) -> Result<bool>
    ensures text { cursor.new.text ≡ cursor.old.text }
    ensures value { Follows close (past_comma cursor.old.rest) result cursor.new }
    ensures shorter { IfOk result (λ more. more ≡ true → length cursor.new.rest < length cursor.old.rest) }
    ensures no_longer { length cursor.new.rest ≤ length cursor.old.rest }
    ensures fault { IfErr result IsOfText }
    ensures turns { Moves 1 cursor.old result cursor.new }
    ensures grows { Grows cursor.old cursor.new }
{
    let is_passed = steps::pass_comma(cursor)?;
    Ok(is_passed && !cursor.is_at(close))
}
