//! What stands in brackets.
ghost use Rattle.std.specs.Prelude.{◌≡◌, ◌<◌, ◌≤◌, true, length, OnOk, IfErr};
ghost use Rattle.ron_lex.specs.Turns.{Grows, Moves};
ghost use Rattle.ron_de_steps.specs.Advance.{Advances};
ghost use Rattle.ron_de_steps.specs.Errors.{IsOfText};
ghost use Rattle.ron_de_steps.specs.Spends.{SpendsAny, SettlesUntyped};
ghost use Rattle.ron_de_steps.specs.Steps.{past_mark, past_close, GoesTo};
ghost use Rattle.ron_de_untyped.specs.Order.{HoldsOrder};
ghost use Rattle.ron_de_untyped.specs.Group.{open_mark, close_mark};
ghost use Rattle.ron_de_untyped.specs.Values.{ReadsGroup, ReadsInside};

use crate::entries::{Keys, read_mapping};
use crate::items::read_sequence;
use ron_base::error::Result;
use ron_de_steps::context::Context;
use ron_de_steps::steps::{pass_close, pass_mark};
use ron_lex::cursor::Cursor;
use ron_value::value::Value;

/// The brackets of a list, of a map, and of fields or items.
#[derive(Clone, Copy)]
pub(crate) enum Brackets {
    List,
    Map,
    Group,
}

impl Brackets {
    fn open(self) -> char
        ensures { result ≡ open_mark self }
    {
        match self {
            Brackets::List => '[',
            Brackets::Map => '{',
            Brackets::Group => '(',
        }
    }

    fn close(self) -> char
        ensures { result ≡ close_mark self }
    {
        match self {
            Brackets::List => ']',
            Brackets::Map => '}',
            Brackets::Group => ')',
        }
    }
}

/// Reads what stands in brackets, and the brackets themselves.
#[cycle(read)]
pub(crate) fn read_group(
    context: &Context,
    cursor: &mut Cursor<'_>,
    brackets: Brackets,
) -> Result<Value>
    ensures value { ReadsGroup brackets context.now cursor.old result cursor.new.rest }
    ensures advance { Advances HoldsOrder cursor.old result cursor.new }
    ensures turns { SettlesUntyped cursor.old result cursor.new }
    ensures grows { Grows cursor.old cursor.new }
{
    open_group(cursor, brackets)?;
    let value = read_inside(context, cursor, brackets)?;
    close_group(cursor, brackets)?;
    Ok(value)
}

/// Goes past the opening bracket and the gap behind it.
#[inline(always)]
fn open_group(cursor: &mut Cursor<'_>, brackets: Brackets) -> Result<()>
    ensures text { cursor.new.text ≡ cursor.old.text }
    ensures value { GoesTo (past_mark (open_mark brackets) cursor.old.rest) result (cursor.new.gap, cursor.new.rest) }
    ensures shorter { OnOk result (length cursor.new.rest < length cursor.old.rest) }
    ensures fault { IfErr result IsOfText }
    ensures turns { Moves 1 cursor.old result cursor.new }
    ensures grows { Grows cursor.old cursor.new }
{
    pass_mark(cursor, brackets.open())
}

/// Goes past the gap behind what stands in the brackets, and the closing one.
#[inline(always)]
fn close_group(cursor: &mut Cursor<'_>, brackets: Brackets) -> Result<()>
    ensures text { cursor.new.text ≡ cursor.old.text }
    ensures value { GoesTo (past_close (close_mark brackets) cursor.old.rest) result cursor.new.rest }
    ensures no_longer { OnOk result (length cursor.new.rest ≤ length cursor.old.rest) }
    ensures fault { IfErr result IsOfText }
    ensures turns { Moves 1 cursor.old result cursor.new }
    ensures grows { Grows cursor.old cursor.new }
{
    pass_close(cursor, brackets.close(), false)
}

/// Reads what stands in brackets, with the level that it takes.
#[cycle(read)]
fn read_inside(context: &Context, cursor: &mut Cursor<'_>, brackets: Brackets) -> Result<Value>
    ensures value { ReadsInside brackets context.now cursor.old result cursor.new.rest }
    ensures advance { Advances HoldsOrder cursor.old result cursor.new }
    ensures turns { SpendsAny true 3 cursor.old result cursor.new }
    ensures grows { Grows cursor.old cursor.new }
{
    match brackets {
        Brackets::List => read_sequence(context, cursor, ']', false),
        Brackets::Map => read_mapping(context, cursor, Keys::Values),
        Brackets::Group => {
            if cursor.opens_field() {
                return read_mapping(context, cursor, Keys::Names);
            }
            read_sequence(context, cursor, ')', false)
        }
    }
}
