//! The range without ends: `..`.
#![tactic(auto, unfolding(ron_lex_text::proofs::StretchLemmas::literals))]

ghost use Rattle.std.specs.Prelude.{refl, codes};
ghost use Rattle.ron_types.specs.Normal.{unchanged};
ghost use Rattle.ron_types_fields.specs.NamedStructs.{table_of_unit_struct, data_of_unit_struct, IsUnitStructOf};

use ron_base::error::Result;
use ron_data::data::Data;
use ron_data_schema::schema::Schema;
use ron_types::faithful::Faithful;
use ron_types::traits::{Deserialize, Schematic, Serialize};
use ron_types_fields::unit_structs::{from_unit_struct, unit_struct_data, unit_struct_schema};
use std::alloc::Global;

/// The range without ends: `..`.
#[derive(PartialEq, Drop)]
pub struct RangeFull;

impl Schematic for RangeFull {
    ghost schema_is = { table_of_unit_struct (codes "RangeFull") };

    ghost data = { λ _. data_of_unit_struct (codes "RangeFull") };

    ghost normal = { unchanged };

    ghost accepts = { IsUnitStructOf (codes "RangeFull") };

    fn schema(alloc: Global) -> Result<Schema> {
        unit_struct_schema(alloc, "RangeFull")
    }
}

impl Serialize for RangeFull {
    fn to_data(&self, alloc: Global) -> Result<Data<'_>> {
        unit_struct_data(alloc, "RangeFull")
    }
}

impl<'de> Deserialize<'de> for RangeFull {
    fn from_data(alloc: Global, from: Data<'de>) -> Result<Self> {
        match from_unit_struct(alloc, "RangeFull", from) {
            Ok(()) => Ok(RangeFull),
            Err(error) => Err(error),
        }
    }
}

impl Faithful for RangeFull {
    type Parts = ();

    ghost recovers = { λ _. λ x y _. refl };
}
