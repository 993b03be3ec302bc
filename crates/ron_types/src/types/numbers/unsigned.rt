//! Integers without a sign.
ghost use Rattle.std.specs.Prelude.{pos};
ghost use Rattle.ron_value_number.specs.declared.width.Width.TheVariants as width;
ghost use Rattle.ron_spec_grammar.specs.Data as plain;
ghost use Rattle.ron_spec_grammar.specs.Schema as shapes;
ghost use Rattle.ron_types.specs.Accepts.{IsInt};
ghost use Rattle.ron_types.specs.Faults.{IsRefusal};
ghost use Rattle.ron_types.specs.Normal.{unchanged};
ghost use Rattle.ron_types.specs.Tables.{leaf};

use crate::refuse::another_width;
use crate::tables::leaf;
use crate::traits::{Deserialize, Schematic, Serialize};
use crate::types::numbers::{number_in, of_number};
use ron_base::error::Result;
use ron_data::data::Data;
use ron_data_schema::schema::{Schema, Shape};
use ron_value_number::{Number, Width};
use std::alloc::Global;

impl Schematic for u8 {
    ghost schema_is = { leaf (shapes.int width.U8) };

    ghost data = { λ n. plain.int_of width.U8 (pos n) };

    ghost normal = { unchanged };

    ghost accepts = { IsInt width.U8 };

    fn schema(alloc: Global) -> Result<Schema> {
        leaf(alloc, Shape::Int(Width::U8))
    }
}

impl Serialize for u8 {
    fn to_data(&self, _alloc: Global) -> Result<Data<'_>> {
        Ok(of_number(Number::U8(*self)))
    }
}

impl<'de> Deserialize<'de> for u8 {
    ghost refuses = { λ _. IsRefusal };

    fn from_data(alloc: Global, from: Data<'de>) -> Result<Self> {
        match number_in(alloc, from)? {
            Number::U8(held) => Ok(held),
            other => Err(another_width(alloc, Width::U8, other)),
        }
    }
}

impl Schematic for u16 {
    ghost schema_is = { leaf (shapes.int width.U16) };

    ghost data = { λ n. plain.int_of width.U16 (pos n) };

    ghost normal = { unchanged };

    ghost accepts = { IsInt width.U16 };

    fn schema(alloc: Global) -> Result<Schema> {
        leaf(alloc, Shape::Int(Width::U16))
    }
}

impl Serialize for u16 {
    fn to_data(&self, _alloc: Global) -> Result<Data<'_>> {
        Ok(of_number(Number::U16(*self)))
    }
}

impl<'de> Deserialize<'de> for u16 {
    ghost refuses = { λ _. IsRefusal };

    fn from_data(alloc: Global, from: Data<'de>) -> Result<Self> {
        match number_in(alloc, from)? {
            Number::U16(held) => Ok(held),
            other => Err(another_width(alloc, Width::U16, other)),
        }
    }
}

impl Schematic for u32 {
    ghost schema_is = { leaf (shapes.int width.U32) };

    ghost data = { λ n. plain.int_of width.U32 (pos n) };

    ghost normal = { unchanged };

    ghost accepts = { IsInt width.U32 };

    fn schema(alloc: Global) -> Result<Schema> {
        leaf(alloc, Shape::Int(Width::U32))
    }
}

impl Serialize for u32 {
    fn to_data(&self, _alloc: Global) -> Result<Data<'_>> {
        Ok(of_number(Number::U32(*self)))
    }
}

impl<'de> Deserialize<'de> for u32 {
    ghost refuses = { λ _. IsRefusal };

    fn from_data(alloc: Global, from: Data<'de>) -> Result<Self> {
        match number_in(alloc, from)? {
            Number::U32(held) => Ok(held),
            other => Err(another_width(alloc, Width::U32, other)),
        }
    }
}

impl Schematic for u64 {
    ghost schema_is = { leaf (shapes.int width.U64) };

    ghost data = { λ n. plain.int_of width.U64 (pos n) };

    ghost normal = { unchanged };

    ghost accepts = { IsInt width.U64 };

    fn schema(alloc: Global) -> Result<Schema> {
        leaf(alloc, Shape::Int(Width::U64))
    }
}

impl Serialize for u64 {
    fn to_data(&self, _alloc: Global) -> Result<Data<'_>> {
        Ok(of_number(Number::U64(*self)))
    }
}

impl<'de> Deserialize<'de> for u64 {
    ghost refuses = { λ _. IsRefusal };

    fn from_data(alloc: Global, from: Data<'de>) -> Result<Self> {
        match number_in(alloc, from)? {
            Number::U64(held) => Ok(held),
            other => Err(another_width(alloc, Width::U64, other)),
        }
    }
}

impl Schematic for u128 {
    ghost schema_is = { leaf (shapes.int width.U128) };

    ghost data = { λ n. plain.int_of width.U128 (pos n) };

    ghost normal = { unchanged };

    ghost accepts = { IsInt width.U128 };

    fn schema(alloc: Global) -> Result<Schema> {
        leaf(alloc, Shape::Int(Width::U128))
    }
}

impl Serialize for u128 {
    fn to_data(&self, _alloc: Global) -> Result<Data<'_>> {
        Ok(of_number(Number::U128(*self)))
    }
}

impl<'de> Deserialize<'de> for u128 {
    ghost refuses = { λ _. IsRefusal };

    fn from_data(alloc: Global, from: Data<'de>) -> Result<Self> {
        match number_in(alloc, from)? {
            Number::U128(held) => Ok(held),
            other => Err(another_width(alloc, Width::U128, other)),
        }
    }
}
