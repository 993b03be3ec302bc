//! Schemas of types, put together from those of their parts.
ghost use Rattle.std.specs.Prelude.{◌≡◌, ◌<◌, ◌≤◌, true, [], length, IfOk, MatchResult};
ghost use Rattle.ron_base.specs.declared.error.Error.TheVariants.{OutOfMemory};
ghost use Rattle.ron_data_schema.specs.Shapes.{shape_view, table_view};
ghost use Rattle.ron_data_schema.specs.Table.{table_of};
ghost use Rattle.ron_types.specs.Tables.{leaf, put, root_in, topped, is_closed, MayTop};

use crate::traits::Schematic;
use ron_base::error::Result;
use ron_data_schema::schema::{Schema, Shape};
use std::alloc::Global;

/// The schemas of a type's parts behind one another, on top of which the type's own shape is put.
#[derive(Drop)]
pub struct Parts {
    shapes: Vec<Shape>,
    ghost closed: { is_closed (table_view shapes.items) ≡ true },
}

impl Parts {
    ghost use Rattle.ron_types.specs.Parts.{shapes_in};

    /// No parts yet.
    pub fn new(alloc: Global) -> Parts
        ensures { shapes_in result ≡ [] }
    {
        Parts {
            shapes: Vec::new(alloc),
        }
    }

    /// Puts the schema of a part behind the others, and answers the index of its root. Refused by `OutOfMemory` alone,
    /// which leaves the parts as they were.
    pub fn add<T: Schematic>(&mut self, alloc: Global) -> Result<usize>
        ensures value { MatchResult result
            (λ root. (shapes_in self.new ≡ put (shapes_in self.old) T.schema_is) × (root ≡ root_in (shapes_in self.old) T.schema_is))
            (λ e. (e ≡ OutOfMemory) × (shapes_in self.new ≡ shapes_in self.old)) }
        ensures in_range { IfOk result (λ root. root < length (shapes_in self.new)) }
        ensures grown { length (shapes_in self.old) ≤ length (shapes_in self.new) }
    {
        let schema = T::schema(alloc)?;
        let _ = schema.root();
        Schema::import(&mut self.shapes, &schema)
    }

    /// The schema of the type, by its own shape. Refused by `OutOfMemory` alone.
    pub fn top(self, shape: Shape) -> Result<Schema>
        requires { MayTop (shapes_in self) (shape_view shape) }
        ensures { MatchResult result (λ s. table_of s ≡ topped (shapes_in self) (shape_view shape)) (λ e. e ≡ OutOfMemory) }
    {
        let mut shapes = self.shapes;
        let root = shapes.len();
        shapes.push(shape)?;
        Schema::new(shapes, root)
    }
}

/// The schema of a shape that holds no others. Refused by `OutOfMemory` alone.
pub fn leaf(alloc: Global, shape: Shape) -> Result<Schema>
    requires { MayTop [] (shape_view shape) }
    ensures { MatchResult result (λ s. table_of s ≡ leaf (shape_view shape)) (λ e. e ≡ OutOfMemory) }
{
    Parts::new(alloc).top(shape)
}
