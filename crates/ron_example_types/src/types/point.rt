//! A struct: the least that a type of one's own takes.
#![tactic(auto, unfolding(ron_lex_text::proofs::StretchLemmas::literals))]

ghost use Rattle.std.specs.Prelude.{◌&&◌, [], ◌∷◌, codes};
ghost use Rattle.ron_types.specs.PieceLaws.{structs_tell};
ghost use Rattle.ron_types.specs.Rows.{table_of_struct, struct_data, struct_normal, IsStructOf};

use ron::error::Result;
use ron::schema::{Data, Deserialize, Faithful, Schema, Schematic, Serialize};
use ron::types::{Row, from_struct, struct_data, struct_schema};
use std::alloc::Global;

/// A place.
#[derive(PartialEq, Drop)]
pub struct Point {
    pub x: i32,
    pub y: i32,
}

impl Schematic for Point {
    ghost schema_is = { table_of_struct (codes "Point") (codes "x" ∷ codes "y" ∷ []) ⟦<(i32, (i32, ())) as Row>⟧.tables };

    ghost data = { λ p. struct_data (codes "Point") (codes "x" ∷ codes "y" ∷ []) (⟦<(i32, (i32, ())) as Row>⟧.datas (p.x, (p.y, tt))) };

    ghost normal = { struct_normal ⟦<(i32, (i32, ())) as Row>⟧.normals };

    ghost accepts = { IsStructOf (codes "Point") (codes "x" ∷ codes "y" ∷ []) ⟦<(i32, (i32, ())) as Row>⟧.accepts_named };

    fn schema(alloc: Global) -> Result<Schema> {
        struct_schema::<(i32, (i32, ()))>(alloc, "Point", &["x", "y"])
    }
}

impl Serialize for Point {
    fn to_data(&self, alloc: Global) -> Result<Data<'_>> {
        struct_data(alloc, "Point", &["x", "y"], (&self.x, (&self.y, ())))
    }
}

impl<'de> Deserialize<'de> for Point {
    fn from_data(alloc: Global, from: Data<'de>) -> Result<Self> {
        let (x, (y, ())) = from_struct(alloc, "Point", &["x", "y"], from)?;
        Ok(Point { x, y })
    }
}

impl Faithful for Point {
    type Parts = (i32, (i32, ()));

    ghost recovers = { λ told p q e.
        let same = structs_tell (codes "Point") (codes "x" ∷ codes "y" ∷ []) p q
        (λ p. ⟦<(i32, (i32, ())) as Row>⟧.datas (p.x, (p.y, tt))) e in
        λ i. told.0 p.x q.x same.0 i && told.1.0 p.y q.y same.1.0 i };
}
