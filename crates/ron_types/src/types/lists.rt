//! Lists.
ghost use Rattle.std.specs.Prelude.{◌≡◌, map, IfOk, IfErr, MatchResult};
ghost use Rattle.ron_base.specs.declared.error.Error.TheVariants.{OutOfMemory};
ghost use Rattle.ron_data.specs.Datum.{data_view};
ghost use Rattle.ron_types.specs.Accepts.{IsList};
ghost use Rattle.ron_types.specs.Faults.{OwnOr, PartOr, NoPart};
ghost use Rattle.ron_types.specs.Lists.{Each};
ghost use Rattle.ron_types.specs.Normal.{list_data, list_normal};
ghost use Rattle.ron_types.specs.Tables.{seq_table};

use crate::refuse::another_kind;
use crate::tables::Parts;
use crate::traits::{Deserialize, Schematic, Serialize};
use ron_base::error::Result;
use ron_data::data::Data;
use ron_data_schema::schema::{Schema, Shape};
use std::alloc::Global;

impl<T: Schematic> Schematic for Vec<T> {
    ghost schema_is = { seq_table T.schema_is };

    ghost data = { λ v. list_data T.data v.items };

    ghost normal = { list_normal T.normal };

    ghost accepts = { IsList (Each T.accepts) };

    fn schema(alloc: Global) -> Result<Schema> {
        let mut parts = Parts::new(alloc);
        let item = parts.add::<T>(alloc)?;
        parts.top(Shape::Seq(item))
    }
}

impl<T: Serialize> Serialize for Vec<T> {
    fn to_data(&self, alloc: Global) -> Result<Data<'_>> {
        let mut items = Vec::with_capacity(alloc, self.len())?;
        for item in self {
            items.push(item.to_data(alloc)?)?;
        }
        Ok(Data::Seq(items))
    }
}

impl<'de, T: Deserialize<'de>> Deserialize<'de> for Vec<T> {
    ghost refuses = { λ _. OwnOr (PartOr T.refuses NoPart) };

    fn from_data(alloc: Global, from: Data<'de>) -> Result<Self> {
        match from {
            Data::Seq(items) => values_of(alloc, items),
            other => Err(another_kind(alloc, "a sequence", other)),
        }
    }
}

/// A value of each of the data.
fn values_of<'de, T: Deserialize<'de>>(alloc: Global, items: Vec<Data<'de>>) -> Result<Vec<T>>
    ensures value { IfOk result (λ values. map T.data values.items ≡ map (λ d. T.normal (data_view d)) items.entry.items) }
    ensures accepted { MatchResult result (λ _. Each T.accepts items.entry.items)
        (λ e. Each T.accepts items.entry.items → e ≡ OutOfMemory) }
    ensures refused { IfErr result (OwnOr (PartOr T.refuses NoPart)) }
{
    let mut values = Vec::with_capacity(alloc, items.len())?;
    for item in items {
        values.push(T::from_data(alloc, item)?)?;
    }
    Ok(values)
}
