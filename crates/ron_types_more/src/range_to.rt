//! A range without a start, up to its end, which isn't in it: `..5`.
#![tactic(auto, unfolding(ron_lex_text::proofs::StretchLemmas::literals))]

ghost use Rattle.std.specs.Prelude.{[], ◌∷◌, codes};
ghost use Rattle.ron_types.specs.PieceLaws.{structs_tell};
ghost use Rattle.ron_types.specs.Rows.{table_of_struct, struct_data, struct_normal, IsStructOf};

use ron_base::error::Result;
use ron_data::data::Data;
use ron_data_schema::schema::Schema;
use ron_types::faithful::Faithful;
use ron_types::fields::{from_struct, struct_data, struct_schema};
use ron_types::rows::Row;
use ron_types::traits::{Deserialize, Schematic, Serialize};
use std::alloc::Global;

/// A range without a start, up to its end, which isn't in it: `..5`.
#[derive(PartialEq, Drop)]
pub struct RangeTo<T> {
    pub end: T,
}

impl<T: Schematic> Schematic for RangeTo<T> {
    ghost schema_is = { table_of_struct (codes "RangeTo") (codes "end" ∷ []) ⟦<(T, ()) as Row>⟧.tables };

    ghost data = { λ r. struct_data (codes "RangeTo") (codes "end" ∷ []) (⟦<(T, ()) as Row>⟧.datas (r.end, tt)) };

    ghost normal = { struct_normal ⟦<(T, ()) as Row>⟧.normals };

    ghost accepts = { IsStructOf (codes "RangeTo") (codes "end" ∷ []) ⟦<(T, ()) as Row>⟧.accepts_named };

    fn schema(alloc: Global) -> Result<Schema> {
        struct_schema::<(T, ())>(alloc, "RangeTo", &["end"])
    }
}

impl<T: Serialize> Serialize for RangeTo<T> {
    fn to_data(&self, alloc: Global) -> Result<Data<'_>> {
        struct_data(alloc, "RangeTo", &["end"], (&self.end, ()))
    }
}

impl<'de, T: Deserialize<'de>> Deserialize<'de> for RangeTo<T> {
    fn from_data(alloc: Global, from: Data<'de>) -> Result<Self> {
        match from_struct::<(T, ())>(alloc, "RangeTo", &["end"], from) {
            Ok(row) => {
                let (end, ()) = row;
                Ok(RangeTo { end })
            }
            Err(error) => Err(error),
        }
    }
}

impl<T: Faithful> Faithful for RangeTo<T> {
    type Parts = (T, ());

    ghost recovers = { λ told p q e.
        let same = structs_tell (codes "RangeTo") (codes "end" ∷ []) p q (λ r. ⟦<(T, ()) as Row>⟧.datas (r.end, tt)) e in
        told.0 p.end q.end same.0 };
}
