//! Values without a schema, and raw texts.
ghost use Rattle.std.specs.Prelude.{◌≡◌, MatchResult};
ghost use Rattle.ron_base.specs.declared.error.Error.TheVariants.{OutOfMemory};
ghost use Rattle.ron_spec_grammar.specs.Data as plain;
ghost use Rattle.ron_spec_grammar.specs.Schema as shapes;
ghost use Rattle.ron_de_raw.specs.Raw.{raw_text_of};
ghost use Rattle.ron_data_schema.specs.Table.{table_of};
ghost use Rattle.ron_value.specs.View.{tree_of};
ghost use Rattle.ron_types.specs.Accepts.{IsAnyValue, IsRaw};
ghost use Rattle.ron_types.specs.Faults.{IsRefusal};
ghost use Rattle.ron_types.specs.Normal.{unchanged};
ghost use Rattle.ron_types.specs.Tables.{leaf};

use crate::refuse::another_kind;
use crate::tables::leaf;
use crate::traits::{Deserialize, Schematic, Serialize};
use crate::types::widths::numbers_fit;
use ron_base::error::Result;
use ron_data::any_value::AnyValue;
use ron_data::data::Data;
use ron_data_schema::schema::{Schema, Shape};
use ron_de_raw::raw::RawValue;
use ron_value::value::Value;
use std::alloc::Global;

impl Schematic for Value {
    ghost schema_is = { leaf shapes.any_value };

    ghost data = { λ v. plain.value_of (tree_of v) };

    ghost normal = { unchanged };

    ghost accepts = { IsAnyValue };

    fn schema(alloc: Global) -> Result<Schema> {
        leaf(alloc, Shape::Value)
    }
}

impl Serialize for Value {
    fn to_data(&self, _alloc: Global) -> Result<Data<'_>> {
        numbers_fit(self);
        Ok(Data::Value(AnyValue::Borrowed(self)))
    }
}

impl<'de> Deserialize<'de> for Value {
    ghost refuses = { λ _. IsRefusal };

    fn from_data(alloc: Global, from: Data<'de>) -> Result<Self> {
        match from {
            Data::Value(held) => held.into_value(),
            other => Err(another_kind(alloc, "any value", other)),
        }
    }
}

impl<'a> Schematic for RawValue<'a> {
    ghost schema_is = { leaf shapes.any_raw };

    ghost data = { λ r. plain.raw_of (raw_text_of r) };

    ghost normal = { unchanged };

    ghost accepts = { IsRaw };

    fn schema(alloc: Global) -> Result<Schema>
        ensures { MatchResult result (λ s. table_of s ≡ leaf shapes.any_raw) (λ e. e ≡ OutOfMemory) }
    {
        leaf(alloc, Shape::Raw)
    }
}

impl<'a> Serialize for RawValue<'a> {
    fn to_data(&self, _alloc: Global) -> Result<Data<'_>> {
        Ok(Data::Raw(self.as_borrowed()))
    }
}

impl<'de> Deserialize<'de> for RawValue<'de> {
    ghost refuses = { λ _. IsRefusal };

    fn from_data(alloc: Global, from: Data<'de>) -> Result<Self> {
        match from {
            Data::Raw(held) => Ok(held),
            other => Err(another_kind(alloc, "a raw value", other)),
        }
    }
}
