//! Integers with a sign.
ghost use Rattle.ron_value_number.specs.declared.width.Width.TheVariants as width;
ghost use Rattle.ron_spec_grammar.specs.Data as plain;
ghost use Rattle.ron_spec_grammar.specs.Schema as shapes;
ghost use Rattle.ron_types.specs.Accepts.{IsInt};
ghost use Rattle.ron_types.specs.Faults.{IsRefusal};
ghost use Rattle.ron_types.specs.Normal.{unchanged};
ghost use Rattle.ron_types.specs.Tables.{leaf};

use crate::refuse::another_width;
use crate::tables::leaf;
use crate::traits::{Deserialize, Schematic, Serialize};
use crate::types::numbers::{number_in, of_number};
use ron_base::error::Result;
use ron_data::data::Data;
use ron_data_schema::schema::{Schema, Shape};
use ron_value_number::{Number, Width};
use std::alloc::Global;

impl Schematic for i8 {
    ghost schema_is = { leaf (shapes.int width.I8) };

    ghost data = { λ n. plain.int_of width.I8 n };

    ghost normal = { unchanged };

    ghost accepts = { IsInt width.I8 };

    fn schema(alloc: Global) -> Result<Schema> {
        leaf(alloc, Shape::Int(Width::I8))
    }
}

impl Serialize for i8 {
    fn to_data(&self, _alloc: Global) -> Result<Data<'_>> {
        Ok(of_number(Number::I8(*self)))
    }
}

impl<'de> Deserialize<'de> for i8 {
    ghost refuses = { λ _. IsRefusal };

    fn from_data(alloc: Global, from: Data<'de>) -> Result<Self> {
        match number_in(alloc, from)? {
            Number::I8(held) => Ok(held),
            other => Err(another_width(alloc, Width::I8, other)),
        }
    }
}

impl Schematic for i16 {
    ghost schema_is = { leaf (shapes.int width.I16) };

    ghost data = { λ n. plain.int_of width.I16 n };

    ghost normal = { unchanged };

    ghost accepts = { IsInt width.I16 };

    fn schema(alloc: Global) -> Result<Schema> {
        leaf(alloc, Shape::Int(Width::I16))
    }
}

impl Serialize for i16 {
    fn to_data(&self, _alloc: Global) -> Result<Data<'_>> {
        Ok(of_number(Number::I16(*self)))
    }
}

impl<'de> Deserialize<'de> for i16 {
    ghost refuses = { λ _. IsRefusal };

    fn from_data(alloc: Global, from: Data<'de>) -> Result<Self> {
        match number_in(alloc, from)? {
            Number::I16(held) => Ok(held),
            other => Err(another_width(alloc, Width::I16, other)),
        }
    }
}

impl Schematic for i32 {
    ghost schema_is = { leaf (shapes.int width.I32) };

    ghost data = { λ n. plain.int_of width.I32 n };

    ghost normal = { unchanged };

    ghost accepts = { IsInt width.I32 };

    fn schema(alloc: Global) -> Result<Schema> {
        leaf(alloc, Shape::Int(Width::I32))
    }
}

impl Serialize for i32 {
    fn to_data(&self, _alloc: Global) -> Result<Data<'_>> {
        Ok(of_number(Number::I32(*self)))
    }
}

impl<'de> Deserialize<'de> for i32 {
    ghost refuses = { λ _. IsRefusal };

    fn from_data(alloc: Global, from: Data<'de>) -> Result<Self> {
        match number_in(alloc, from)? {
            Number::I32(held) => Ok(held),
            other => Err(another_width(alloc, Width::I32, other)),
        }
    }
}

impl Schematic for i64 {
    ghost schema_is = { leaf (shapes.int width.I64) };

    ghost data = { λ n. plain.int_of width.I64 n };

    ghost normal = { unchanged };

    ghost accepts = { IsInt width.I64 };

    fn schema(alloc: Global) -> Result<Schema> {
        leaf(alloc, Shape::Int(Width::I64))
    }
}

impl Serialize for i64 {
    fn to_data(&self, _alloc: Global) -> Result<Data<'_>> {
        Ok(of_number(Number::I64(*self)))
    }
}

impl<'de> Deserialize<'de> for i64 {
    ghost refuses = { λ _. IsRefusal };

    fn from_data(alloc: Global, from: Data<'de>) -> Result<Self> {
        match number_in(alloc, from)? {
            Number::I64(held) => Ok(held),
            other => Err(another_width(alloc, Width::I64, other)),
        }
    }
}

impl Schematic for i128 {
    ghost schema_is = { leaf (shapes.int width.I128) };

    ghost data = { λ n. plain.int_of width.I128 n };

    ghost normal = { unchanged };

    ghost accepts = { IsInt width.I128 };

    fn schema(alloc: Global) -> Result<Schema> {
        leaf(alloc, Shape::Int(Width::I128))
    }
}

impl Serialize for i128 {
    fn to_data(&self, _alloc: Global) -> Result<Data<'_>> {
        Ok(of_number(Number::I128(*self)))
    }
}

impl<'de> Deserialize<'de> for i128 {
    ghost refuses = { λ _. IsRefusal };

    fn from_data(alloc: Global, from: Data<'de>) -> Result<Self> {
        match number_in(alloc, from)? {
            Number::I128(held) => Ok(held),
            other => Err(another_width(alloc, Width::I128, other)),
        }
    }
}
