//! The schema that `ronv point` reads by.
ghost use Rattle.std.specs.Prelude.{◌≡◌, MatchResult};
ghost use Rattle.ron.specs.Table.{table_of};
ghost use Rattle.ronv_command.specs.Point.{point_table};

use ron::error::{Error, Result};
use ron::schema::{FieldList, Schema, Shape, Width};
use ron::types::field_shape;
use std::alloc::Global;

/// Point(x: i32, y: i32).
pub fn point_schema(alloc: Global) -> Result<Schema>
    ensures { MatchResult result (λ s. table_of s ≡ point_table) (λ e. e ≡ Error.OutOfMemory) }
{
    let mut fields = Vec::with_capacity(alloc, 2)?;
    fields.push(field_shape(alloc, "x", 1)?)?;
    fields.push(field_shape(alloc, "y", 1)?)?;
    let name = String::from_str(alloc, "Point")?;
    let mut shapes = Vec::with_capacity(alloc, 2)?;
    let list = FieldList {
        fields,
        skip_unknown: false,
    };
    shapes.push(Shape::Struct(name, list))?;
    shapes.push(Shape::Int(Width::I32))?;
    Schema::new(shapes, 0)
}
