//! A range without an end: `1..`.
#![tactic(auto, unfolding(ron_lex_text::proofs::StretchLemmas::literals))]

ghost use Rattle.std.specs.Prelude.{[], ◌∷◌, codes};
ghost use Rattle.ron_types.specs.PieceLaws.{structs_tell};
ghost use Rattle.ron_types.specs.Rows.{table_of_struct, struct_data, struct_normal, IsStructOf};

use ron_base::error::Result;
use ron_data::data::Data;
use ron_data_schema::schema::Schema;
use ron_types::faithful::Faithful;
use ron_types::fields::{from_struct, struct_data, struct_schema};
use ron_types::rows::Row;
use ron_types::traits::{Deserialize, Schematic, Serialize};
use std::alloc::Global;

/// A range without an end: `1..`.
#[derive(PartialEq, Drop)]
pub struct RangeFrom<T> {
    pub start: T,
}

impl<T: Schematic> Schematic for RangeFrom<T> {
    ghost schema_is = { table_of_struct (codes "RangeFrom") (codes "start" ∷ []) ⟦<(T, ()) as Row>⟧.tables };

    ghost data = { λ r. struct_data (codes "RangeFrom") (codes "start" ∷ []) (⟦<(T, ()) as Row>⟧.datas (r.start, tt)) };

    ghost normal = { struct_normal ⟦<(T, ()) as Row>⟧.normals };

    ghost accepts = { IsStructOf (codes "RangeFrom") (codes "start" ∷ []) ⟦<(T, ()) as Row>⟧.accepts_named };

    fn schema(alloc: Global) -> Result<Schema> {
        struct_schema::<(T, ())>(alloc, "RangeFrom", &["start"])
    }
}

impl<T: Serialize> Serialize for RangeFrom<T> {
    fn to_data(&self, alloc: Global) -> Result<Data<'_>> {
        struct_data(alloc, "RangeFrom", &["start"], (&self.start, ()))
    }
}

impl<'de, T: Deserialize<'de>> Deserialize<'de> for RangeFrom<T> {
    fn from_data(alloc: Global, from: Data<'de>) -> Result<Self> {
        match from_struct::<(T, ())>(alloc, "RangeFrom", &["start"], from) {
            Ok(row) => {
                let (start, ()) = row;
                Ok(RangeFrom { start })
            }
            Err(error) => Err(error),
        }
    }
}

impl<T: Faithful> Faithful for RangeFrom<T> {
    type Parts = (T, ());

    ghost recovers = { λ told p q e.
        let same = structs_tell (codes "RangeFrom") (codes "start" ∷ []) p q (λ r. ⟦<(T, ()) as Row>⟧.datas (r.start, tt)) e in
        told.0 p.start q.start same.0 };
}
