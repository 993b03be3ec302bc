//! A range up to its end, which is in it: `1..=5`.
#![tactic(auto, unfolding(ron_lex_text::proofs::StretchLemmas::literals))]

ghost use Rattle.std.specs.Prelude.{◌&&◌, [], ◌∷◌, codes};
ghost use Rattle.ron_types.specs.PieceLaws.{structs_tell};
ghost use Rattle.ron_types.specs.Rows.{table_of_struct, struct_data, struct_normal, IsStructOf};

use ron_base::error::Result;
use ron_data::data::Data;
use ron_data_schema::schema::Schema;
use ron_types::faithful::Faithful;
use ron_types::fields::{from_struct, struct_data, struct_schema};
use ron_types::rows::Row;
use ron_types::traits::{Deserialize, Schematic, Serialize};
use std::alloc::Global;

/// A range up to its end, which is in it: `1..=5`.
#[derive(PartialEq, Drop)]
pub struct RangeInclusive<T> {
    pub start: T,
    pub end: T,
}

impl<T: Schematic> Schematic for RangeInclusive<T> {
    ghost schema_is = { table_of_struct (codes "RangeInclusive") (codes "start" ∷ codes "end" ∷ []) ⟦<(T, (T, ())) as Row>⟧.tables };

    ghost data = { λ r. struct_data (codes "RangeInclusive") (codes "start" ∷ codes "end" ∷ [])
        (⟦<(T, (T, ())) as Row>⟧.datas (r.start, (r.end, tt))) };

    ghost normal = { struct_normal ⟦<(T, (T, ())) as Row>⟧.normals };

    ghost accepts = { IsStructOf (codes "RangeInclusive") (codes "start" ∷ codes "end" ∷ []) ⟦<(T, (T, ())) as Row>⟧.accepts_named };

    fn schema(alloc: Global) -> Result<Schema> {
        struct_schema::<(T, (T, ()))>(alloc, "RangeInclusive", &["start", "end"])
    }
}

impl<T: Serialize> Serialize for RangeInclusive<T> {
    fn to_data(&self, alloc: Global) -> Result<Data<'_>> {
        struct_data(
            alloc,
            "RangeInclusive",
            &["start", "end"],
            (&self.start, (&self.end, ())),
        )
    }
}

impl<'de, T: Deserialize<'de>> Deserialize<'de> for RangeInclusive<T> {
    fn from_data(alloc: Global, from: Data<'de>) -> Result<Self> {
        match from_struct::<(T, (T, ()))>(alloc, "RangeInclusive", &["start", "end"], from) {
            Ok(row) => {
                let (start, (end, ())) = row;
                Ok(RangeInclusive { start, end })
            }
            Err(error) => Err(error),
        }
    }
}

impl<T: Faithful> Faithful for RangeInclusive<T> {
    type Parts = (T, (T, ()));

    ghost recovers = { λ told p q e.
        let same = structs_tell (codes "RangeInclusive") (codes "start" ∷ codes "end" ∷ []) p q
        (λ r. ⟦<(T, (T, ())) as Row>⟧.datas (r.start, (r.end, tt))) e in
        λ i. told.0 p.start q.start same.0 i && told.1.0 p.end q.end same.1.0 i };
}
