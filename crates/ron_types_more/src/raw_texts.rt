//! Raw texts that own their text.
ghost use Rattle.ron_spec_grammar.specs.Data as plain;
ghost use Rattle.ron_spec_grammar.specs.Schema as shapes;
ghost use Rattle.ron_de_raw.specs.Raw.{raw_text_of};
ghost use Rattle.ron_types.specs.Accepts.{IsRaw};
ghost use Rattle.ron_types.specs.Faults.{IsRefusal};
ghost use Rattle.ron_types.specs.Normal.{unchanged};
ghost use Rattle.ron_types.specs.RecoveryLaws.{raw_texts_recover};
ghost use Rattle.ron_types.specs.Tables.{leaf};

use ron_base::error::Result;
use ron_data::data::Data;
use ron_data_schema::schema::{Schema, Shape};
use ron_de_raw::raw::RawValue;
use ron_types::faithful::Faithful;
use ron_types::refuse::another_kind;
use ron_types::tables::leaf;
use ron_types::traits::{Deserialize, Schematic, Serialize};
use std::alloc::Global;

/// A raw value that borrows nothing: so what holds it needs no lifetime, and a reader gives it.
#[derive(PartialEq, Drop)]
pub struct OwnedRaw(pub RawValue<'static>);

impl Schematic for OwnedRaw {
    ghost schema_is = { leaf shapes.any_raw };

    ghost data = { λ r. plain.raw_of (raw_text_of r.0) };

    ghost normal = { unchanged };

    ghost accepts = { IsRaw };

    fn schema(alloc: Global) -> Result<Schema> {
        leaf(alloc, Shape::Raw)
    }
}

impl Serialize for OwnedRaw {
    fn to_data(&self, alloc: Global) -> Result<Data<'_>> {
        Ok(Data::Raw(self.0.as_borrowed()))
    }
}

impl<'de> Deserialize<'de> for OwnedRaw {
    ghost refuses = { λ _. IsRefusal };

    fn from_data(alloc: Global, from: Data<'de>) -> Result<Self> {
        match from {
            Data::Raw(held) => Ok(OwnedRaw(held.into_owned(alloc)?)),
            other => Err(another_kind(alloc, "a raw value", other)),
        }
    }
}

impl Faithful for OwnedRaw {
    type Parts = ();

    ghost recovers = { λ _. λ x y. raw_texts_recover x.0 y.0 };
}
