//! Types that hold no other.
ghost use Rattle.ron_types.specs.Laws.{AcceptsAll};

use crate::traits::Schematic;
use ron_de_raw::raw::RawValue;
use ron_value::value::Value;

/// Booleans, characters, texts, the unit, values without a schema, and raw texts.
pub fn leaves_accept_their_data<'a>()
    ensures booleans { AcceptsAll ⟦<bool as Schematic>⟧.schema_is ⟦<bool as Schematic>⟧.accepts }
    ensures characters { AcceptsAll ⟦<char as Schematic>⟧.schema_is ⟦<char as Schematic>⟧.accepts }
    ensures texts { AcceptsAll ⟦<String as Schematic>⟧.schema_is ⟦<String as Schematic>⟧.accepts }
    ensures units { AcceptsAll ⟦<() as Schematic>⟧.schema_is ⟦<() as Schematic>⟧.accepts }
    ensures values { AcceptsAll ⟦<Value as Schematic>⟧.schema_is ⟦<Value as Schematic>⟧.accepts }
    ensures raw_texts { AcceptsAll ⟦<RawValue<'a> as Schematic>⟧.schema_is ⟦<RawValue<'a> as Schematic>⟧.accepts }
{}

/// Integers of each width.
pub fn integers_accept_their_data()
    ensures signed_8 { AcceptsAll ⟦<i8 as Schematic>⟧.schema_is ⟦<i8 as Schematic>⟧.accepts }
    ensures signed_16 { AcceptsAll ⟦<i16 as Schematic>⟧.schema_is ⟦<i16 as Schematic>⟧.accepts }
    ensures signed_32 { AcceptsAll ⟦<i32 as Schematic>⟧.schema_is ⟦<i32 as Schematic>⟧.accepts }
    ensures signed_64 { AcceptsAll ⟦<i64 as Schematic>⟧.schema_is ⟦<i64 as Schematic>⟧.accepts }
    ensures signed_128 { AcceptsAll ⟦<i128 as Schematic>⟧.schema_is ⟦<i128 as Schematic>⟧.accepts }
    ensures unsigned_8 { AcceptsAll ⟦<u8 as Schematic>⟧.schema_is ⟦<u8 as Schematic>⟧.accepts }
    ensures unsigned_16 { AcceptsAll ⟦<u16 as Schematic>⟧.schema_is ⟦<u16 as Schematic>⟧.accepts }
    ensures unsigned_32 { AcceptsAll ⟦<u32 as Schematic>⟧.schema_is ⟦<u32 as Schematic>⟧.accepts }
    ensures unsigned_64 { AcceptsAll ⟦<u64 as Schematic>⟧.schema_is ⟦<u64 as Schematic>⟧.accepts }
    ensures unsigned_128 { AcceptsAll ⟦<u128 as Schematic>⟧.schema_is ⟦<u128 as Schematic>⟧.accepts }
{}
