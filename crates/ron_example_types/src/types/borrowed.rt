//! A struct that borrows from the text.
ghost use Rattle.std.specs.Prelude.{◌≡◌, codes, MatchResult};
ghost use Rattle.ron_base.specs.declared.error.Error.TheVariants.{OutOfMemory};
ghost use Rattle.ron_data_schema.specs.Table.{table_of};
ghost use Rattle.ron_types.specs.Rows.{table_of_struct, struct_data, struct_normal, IsStructOf};

use ron::error::Result;
use ron::schema::{Data, Deserialize, Schema, Schematic, Serialize};
use ron::types::{Row, from_struct, struct_data, struct_schema};
use std::alloc::Global;

/// A text of which nothing is copied.
#[derive(Drop)]
pub struct Borrowed<'a> {
    pub value: &'a str,
}

impl<'a> Schematic for Borrowed<'a> {
    ghost use Rattle.ron_example_types.specs.FieldNames.{borrowed_names};

    ghost schema_is = { table_of_struct (codes "Borrowed") borrowed_names ⟦<(&'a str, ()) as Row>⟧.tables };

    ghost data = { λ b. struct_data (codes "Borrowed") borrowed_names (⟦<(&'a str, ()) as Row>⟧.datas (b.value, tt)) };

    ghost normal = { struct_normal ⟦<(&'a str, ()) as Row>⟧.normals };

    ghost accepts = { IsStructOf (codes "Borrowed") borrowed_names ⟦<(&'a str, ()) as Row>⟧.accepts_named };

    fn schema(alloc: Global) -> Result<Schema>
        ensures { MatchResult result
            (λ s. table_of s ≡ table_of_struct (codes "Borrowed") borrowed_names ⟦<(&'a str, ()) as Row>⟧.tables)
            (λ e. e ≡ OutOfMemory) }
    {
        struct_schema::<(&'a str, ())>(alloc, "Borrowed", &["value"])
    }
}

impl<'a> Serialize for Borrowed<'a> {
    fn to_data(&self, alloc: Global) -> Result<Data<'_>> {
        struct_data(alloc, "Borrowed", &["value"], (&self.value, ()))
    }
}

impl<'de> Deserialize<'de> for Borrowed<'de> {
    fn from_data(alloc: Global, from: Data<'de>) -> Result<Self> {
        let (value, ()) = from_struct(alloc, "Borrowed", &["value"], from)?;
        Ok(Borrowed { value })
    }
}
