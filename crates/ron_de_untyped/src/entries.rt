//! The pairs of maps, and fields.
ghost use Rattle.std.specs.Prelude.{◌≡◌, ◌<◌, ◌≤◌, ◌&&◌, true, nat_lt, length};
ghost use Rattle.ron_spec_words.specs.Runs.{is_at};
ghost use Rattle.ron_value.specs.View.{tree_of};
ghost use Rattle.ron_lex.specs.Turns.{Grows};
ghost use Rattle.ron_de_steps.specs.Advance.{Advances};
ghost use Rattle.ron_de_steps.specs.Reads.{Reads};
ghost use Rattle.ron_de_steps.specs.Spends.{SpendsUntyped, SettlesUntyped};
ghost use Rattle.ron_de_untyped.specs.Order.{HoldsOrder, HoldsPairOrder, HoldPairsOrder};
ghost use Rattle.ron_de_untyped.specs.Keys.{close_of, are_names};
ghost use Rattle.ron_de_untyped.specs.Count.{LeadsBefore};
ghost use Rattle.ron_de_untyped.specs.Values.{ReadsKey, ReadsEntry, ReadsEntries, ReadsMapping};
ghost use Rattle.ron_de_untyped.specs.Reading.{name_key};

use crate::items::more_follow;
use crate::leaves::text_value;
use crate::value::read_below;
use ron_base::error::{Error, Result};
use ron_de_steps::context::Context;
use ron_de_steps::faults::identifier_error;
use ron_de_steps::steps::pass_colon;
use ron_lex::cursor::Cursor;
use ron_value::map::Map;
use ron_value::value::Value;
use std::alloc::Global;

/// What stands before the colons: the names of fields, or any values.
#[derive(Clone, Copy)]
pub(crate) enum Keys {
    Names,
    Values,
}

impl Keys {
    fn close(self) -> char
        ensures { result ≡ close_of self }
    {
        match self {
            Keys::Names => ')',
            Keys::Values => '}',
        }
    }

    fn are_names(self) -> bool
        ensures { result ≡ are_names self }
    {
        match self {
            Keys::Names => true,
            Keys::Values => false,
        }
    }
}

/// Reads keys with their values as a map, with the level that it takes. A field is wanted where the keys are names.
#[cycle(read)]
#[inline(never)]
pub(crate) fn read_mapping(context: &Context, cursor: &mut Cursor<'_>, keys: Keys) -> Result<Value>
    ensures value { ReadsMapping keys context.now cursor.old result cursor.new.rest }
    ensures advance { Advances HoldsOrder cursor.old result cursor.new }
    ensures turns { SpendsUntyped 2 cursor.old result cursor.new }
    ensures grows { Grows cursor.old cursor.new }
{
    let inner = context.deeper()?;
    let pairs = read_entries(&inner, cursor, keys)?;
    if lacks_field(keys, &pairs) {
        return Err(Error::ExpectedIdentifier);
    }
    let map = Map::from_pairs(pairs)?;
    Ok(Value::Map(map))
}

/// Whether no field is read where one is wanted.
fn lacks_field(keys: Keys, pairs: &Vec<(Value, Value)>) -> bool
    ensures { result ≡ (are_names keys && nat_lt (length pairs.now.items) 1) }
{
    keys.are_names() && pairs.len() < 1
}

/// Reads keys with their values, each a level below. The context is that of their map.
#[cycle(read)]
fn read_entries(
    context: &Context,
    cursor: &mut Cursor<'_>,
    keys: Keys,
) -> Result<Vec<(Value, Value)>>
    ensures value { ReadsEntries keys context.now cursor.old result cursor.new.rest }
    ensures advance { Advances HoldPairsOrder cursor.old result cursor.new }
    ensures turns { SpendsUntyped 2 cursor.old result cursor.new }
    ensures grows { Grows cursor.old cursor.new }
{
    let mut pairs = Vec::new(context.alloc());
    let close = keys.close();
    let mut more = !cursor.is_at(close);
    'pairs: while more {
        let pair = read_entry(context, cursor, keys)?;
        pairs.push(pair)?;
        more = more_follow(cursor, close)?;
    }
    Ok(pairs)
}

/// Reads a key, the colon and the key's value.
#[cycle(read)]
fn read_entry(context: &Context, cursor: &mut Cursor<'_>, keys: Keys) -> Result<(Value, Value)>
    ensures value { ReadsEntry keys context.now cursor.old result cursor.new.rest }
    ensures advance { Advances HoldsPairOrder cursor.old result cursor.new }
    ensures turns { SpendsUntyped 2 cursor.old result cursor.new }
    ensures grows { Grows cursor.old cursor.new }
    ensures leads { LeadsBefore cursor.old result cursor.new }
{
    let key = read_key(context, cursor, keys)?;
    pass_colon(cursor)?;
    let value = read_below(context, cursor)?;
    Ok((key, value))
}

/// Reads a key.
#[cycle(read)]
fn read_key(context: &Context, cursor: &mut Cursor<'_>, keys: Keys) -> Result<Value>
    ensures value { ReadsKey keys context.now cursor.old result cursor.new.rest }
    ensures advance { Advances HoldsOrder cursor.old result cursor.new }
    ensures turns { SpendsUntyped 2 cursor.old result cursor.new }
    ensures grows { Grows cursor.old cursor.new }
    ensures leads { LeadsBefore cursor.old result cursor.new }
{
    match keys {
        Keys::Names => read_name(context.alloc(), cursor),
        Keys::Values => read_below(context, cursor),
    }
}

/// Reads a field's name, as a text.
fn read_name(alloc: Global, cursor: &mut Cursor<'_>) -> Result<Value>
    ensures value { Reads tree_of result (name_key cursor.old.rest) cursor.new.rest }
    ensures advance { Advances HoldsOrder cursor.old result cursor.new }
    ensures turns { SettlesUntyped cursor.old result cursor.new }
    ensures grows { Grows cursor.old cursor.new }
{
    match cursor.identifier() {
        Ok(name) => text_value(alloc, name),
        Err(fault) => Err(identifier_error(alloc, fault)?),
    }
}
