//! Booleans, characters, and the unit.
ghost use Rattle.ron_spec_grammar.specs.Data as plain;
ghost use Rattle.ron_spec_grammar.specs.Schema as shapes;
ghost use Rattle.ron_types.specs.Accepts.{IsBool, IsChar, IsUnit};
ghost use Rattle.ron_types.specs.Faults.{IsRefusal};
ghost use Rattle.ron_types.specs.Normal.{unchanged};
ghost use Rattle.ron_types.specs.Tables.{leaf};

use crate::refuse::another_kind;
use crate::tables::leaf;
use crate::traits::{Deserialize, Schematic, Serialize};
use ron_base::error::Result;
use ron_data::data::Data;
use ron_data_schema::schema::{Schema, Shape};
use std::alloc::Global;

impl Schematic for bool {
    ghost schema_is = { leaf shapes.bool };

    ghost data = { plain.bool_of };

    ghost normal = { unchanged };

    ghost accepts = { IsBool };

    fn schema(alloc: Global) -> Result<Schema> {
        leaf(alloc, Shape::Bool)
    }
}

impl Serialize for bool {
    fn to_data(&self, _alloc: Global) -> Result<Data<'_>> {
        Ok(Data::Bool(*self))
    }
}

impl<'de> Deserialize<'de> for bool {
    ghost refuses = { λ _. IsRefusal };

    fn from_data(alloc: Global, from: Data<'de>) -> Result<Self> {
        match from {
            Data::Bool(held) => Ok(held),
            other => Err(another_kind(alloc, "a boolean", other)),
        }
    }
}

impl Schematic for char {
    ghost schema_is = { leaf shapes.char };

    ghost data = { plain.char_of };

    ghost normal = { unchanged };

    ghost accepts = { IsChar };

    fn schema(alloc: Global) -> Result<Schema> {
        leaf(alloc, Shape::Char)
    }
}

impl Serialize for char {
    fn to_data(&self, _alloc: Global) -> Result<Data<'_>> {
        Ok(Data::Char(*self))
    }
}

impl<'de> Deserialize<'de> for char {
    ghost refuses = { λ _. IsRefusal };

    fn from_data(alloc: Global, from: Data<'de>) -> Result<Self> {
        match from {
            Data::Char(held) => Ok(held),
            other => Err(another_kind(alloc, "a character", other)),
        }
    }
}

impl Schematic for () {
    ghost schema_is = { leaf shapes.unit };

    ghost data = { λ _. plain.the_unit };

    ghost normal = { unchanged };

    ghost accepts = { IsUnit };

    fn schema(alloc: Global) -> Result<Schema> {
        leaf(alloc, Shape::Unit)
    }
}

impl Serialize for () {
    fn to_data(&self, _alloc: Global) -> Result<Data<'_>> {
        Ok(Data::Unit)
    }
}

impl<'de> Deserialize<'de> for () {
    ghost refuses = { λ _. IsRefusal };

    fn from_data(alloc: Global, from: Data<'de>) -> Result<Self> {
        match from {
            Data::Unit => Ok(()),
            other => Err(another_kind(alloc, "a unit value", other)),
        }
    }
}
