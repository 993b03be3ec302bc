//! A shape of one of four kinds.
ghost use Rattle.std.specs.Prelude.{◌≡◌, [], ◌∷◌, codes};
ghost use Rattle.ron_types.specs.Kinds.{table_of_enum, enum_normal, IsOneOf, unit, newtype, tuple, named};

use ron::error::Result;
use ron::schema::{Data, Deserialize, Schema, Schematic, Serialize};
use ron::types::{
    Enum, Row, Variants, fields_in, newtype_in, newtype_variant, struct_variant, tuple_in,
    tuple_variant, unit_in, unit_variant, variant_of,
};
use std::alloc::Global;

#[derive(Drop)]
pub enum Shape {
    Empty,
    Named(String),
    Size(u32, u32),
    At { x: i32, label: String },
}

impl Enum for Shape {
    ghost variants = { let name = ⟦<String as Schematic>⟧ in
        let size = ⟦<(u32, (u32, ())) as Row>⟧ in
        let at = ⟦<(i32, (String, ())) as Row>⟧ in
        (codes "Empty", unit)
        ∷ (codes "Named", newtype name.schema_is name.accepts name.normal)
        ∷ (codes "Size", tuple size.tables size.accepts size.normals)
        ∷ (codes "At", named (codes "x" ∷ codes "label" ∷ []) at.tables at.accepts_named at.normals)
        ∷ [] };
}

impl Schematic for Shape {
    ghost use Rattle.ron_example_types.specs.Shape.{shape_data};

    ghost schema_is = { table_of_enum (codes "Shape") ⟦<Shape as Enum>⟧.variants };

    ghost data = { shape_data };

    ghost normal = { enum_normal ⟦<Shape as Enum>⟧.variants };

    ghost accepts = { IsOneOf (codes "Shape") ⟦<Shape as Enum>⟧.variants };

    #[tactic(auto, unfolding(ron_lex_text::proofs::StretchLemmas::literals))]
    fn schema(alloc: Global) -> Result<Schema> {
        let mut variants = Variants::new(alloc);
        variants.unit(alloc, "Empty")?;
        variants.newtype::<String>(alloc, "Named")?;
        variants.tuple::<(u32, (u32, ()))>(alloc, "Size")?;
        variants.fields::<(i32, (String, ()))>(alloc, "At", &["x", "label"])?;
        variants.schema::<Self>(alloc, "Shape")
    }
}

impl Serialize for Shape {
    #[tactic(auto, unfolding(ron_lex_text::proofs::StretchLemmas::literals))]
    fn to_data(&self, alloc: Global) -> Result<Data<'_>> {
        match self {
            Shape::Empty => unit_variant::<Self>(alloc, "Shape", "Empty"),
            Shape::Named(name) => newtype_variant::<Self, _>(alloc, "Shape", "Named", name),
            Shape::Size(w, h) => tuple_variant::<Self, _>(alloc, "Shape", "Size", (w, (h, ()))),
            Shape::At { x, label } => {
                struct_variant::<Self, _>(alloc, "Shape", "At", &["x", "label"], (x, (label, ())))
            }
        }
    }
}

impl<'de> Deserialize<'de> for Shape {
    fn from_data(alloc: Global, from: Data<'de>) -> Result<Self> {
        let names = ["Empty", "Named", "Size", "At"];
        let (variant, held) = variant_of::<Self>(alloc, "Shape", &names, from)?;
        match variant {
            0 => {
                unit_in::<Self>(alloc, 0, held)?;
                Ok(Shape::Empty)
            }
            1 => Ok(Shape::Named(newtype_in::<Self, _>(alloc, 1, held)?)),
            2 => {
                let (w, (h, ())) = tuple_in::<Self, _>(alloc, 2, held)?;
                Ok(Shape::Size(w, h))
            }
            _ => {
                let (x, (label, ())) = fields_in::<Self, _>(alloc, 3, &["x", "label"], held)?;
                Ok(Shape::At { x, label })
            }
        }
    }
}
