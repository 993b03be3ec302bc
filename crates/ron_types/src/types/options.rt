//! Optional values, and values in boxes.
ghost use Rattle.ron_types.specs.Accepts.{IsOption};
ghost use Rattle.ron_types.specs.Faults.{OwnOr, PartOr, NoPart};
ghost use Rattle.ron_types.specs.Normal.{option_data, option_normal};
ghost use Rattle.ron_types.specs.Tables.{optional_table};

use crate::refuse::another_kind;
use crate::tables::Parts;
use crate::traits::{Deserialize, Schematic, Serialize};
use ron_base::error::Result;
use ron_data::data::Data;
use ron_data_schema::schema::{Schema, Shape};
use std::alloc::Global;

impl<T: Schematic> Schematic for Option<T> {
    ghost schema_is = { optional_table T.schema_is };

    ghost data = { option_data T.data };

    ghost normal = { option_normal T.normal };

    ghost accepts = { IsOption T.accepts };

    fn schema(alloc: Global) -> Result<Schema> {
        let mut parts = Parts::new(alloc);
        let content = parts.add::<T>(alloc)?;
        parts.top(Shape::Option(content))
    }
}

impl<T: Serialize> Serialize for Option<T> {
    fn to_data(&self, alloc: Global) -> Result<Data<'_>> {
        match self {
            None => Ok(Data::Option(None)),
            Some(held) => {
                let content = held.to_data(alloc)?;
                Ok(Data::Option(Some(Box::new(alloc, content)?)))
            }
        }
    }
}

impl<'de, T: Deserialize<'de>> Deserialize<'de> for Option<T> {
    ghost refuses = { λ _. OwnOr (PartOr T.refuses NoPart) };

    fn from_data(alloc: Global, from: Data<'de>) -> Result<Self> {
        match from {
            Data::Option(None) => Ok(None),
            Data::Option(Some(content)) => {
                Ok(Some(T::from_data(alloc, Box::into_inner(content))?))
            }
            other => Err(another_kind(alloc, "an optional value", other)),
        }
    }
}

impl<T: Schematic> Schematic for Box<T> {
    ghost schema_is = { T.schema_is };

    ghost data = { λ b. T.data b.value };

    ghost normal = { T.normal };

    ghost accepts = { T.accepts };

    fn schema(alloc: Global) -> Result<Schema> {
        T::schema(alloc)
    }
}

impl<T: Serialize> Serialize for Box<T> {
    fn to_data(&self, alloc: Global) -> Result<Data<'_>> {
        T::to_data(self, alloc)
    }
}

impl<'de, T: Deserialize<'de>> Deserialize<'de> for Box<T> {
    ghost refuses = { λ d. OwnOr (T.refuses d) };

    fn from_data(alloc: Global, from: Data<'de>) -> Result<Self> {
        let held = T::from_data(alloc, from)?;
        Ok(Box::new(alloc, held)?)
    }
}
