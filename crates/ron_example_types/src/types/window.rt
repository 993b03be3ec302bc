//! A struct whose fields and names are told once for its three `impl`s.
#![tactic(auto, unfolding(ron_lex_text::proofs::StretchLemmas::literals))]

ghost use Rattle.std.specs.Prelude.{◌&&◌, codes};
ghost use Rattle.ron_types.specs.Faults.{OwnOr};
ghost use Rattle.ron_types.specs.PieceLaws.{structs_tell};
ghost use Rattle.ron_types.specs.Rows.{table_of_struct, struct_data, struct_normal, IsStructOf};
ghost use Rattle.ron_example_types.specs.FieldNames.{window_names};

use ron::error::Result;
use ron::schema::{Data, Deserialize, Faithful, Schema, Schematic, Serialize};
use ron::types::{FromRow, Row, from_struct, struct_data, struct_schema};
use std::alloc::Global;

/// How a window is to be.
#[derive(PartialEq, Eq, Drop)]
pub struct Window {
    pub title: String,
    pub size: (u32, u32),
    pub fullscreen: bool,
}

/// The types of the fields, in a row.
type Fields = (String, ((u32, u32), (bool, ())));

const NAMES: [&str; 3] = ["title", "size", "fullscreen"];

impl Schematic for Window {
    ghost schema_is = { table_of_struct (codes "Window") window_names ⟦<Fields as Row>⟧.tables };

    ghost data = { λ w. struct_data (codes "Window") window_names (⟦<Fields as Row>⟧.datas (w.title, (w.size, (w.fullscreen, tt)))) };

    ghost normal = { struct_normal ⟦<Fields as Row>⟧.normals };

    ghost accepts = { IsStructOf (codes "Window") window_names ⟦<Fields as Row>⟧.accepts_named };

    fn schema(alloc: Global) -> Result<Schema> {
        struct_schema::<Fields>(alloc, "Window", &NAMES)
    }
}

impl Serialize for Window {
    fn to_data(&self, alloc: Global) -> Result<Data<'_>> {
        let fields = (&self.title, (&self.size, (&self.fullscreen, ())));
        struct_data(alloc, "Window", &NAMES, fields)
    }
}

impl<'de> Deserialize<'de> for Window {
    ghost refuses = { λ _. OwnOr ⟦<Fields as FromRow<'de>>⟧.refuses };

    fn from_data(alloc: Global, from: Data<'de>) -> Result<Self> {
        let (title, (size, (fullscreen, ()))) = from_struct(alloc, "Window", &NAMES, from)?;
        Ok(Window {
            title,
            size,
            fullscreen,
        })
    }
}

impl Faithful for Window {
    type Parts = Fields;

    ghost recovers = { λ told v w e.
        let same = structs_tell (codes "Window") window_names v w
        (λ w. ⟦<Fields as Row>⟧.datas (w.title, (w.size, (w.fullscreen, tt)))) e in
        λ i. told.0 v.title w.title same.0 i && (told.1.0 v.size w.size same.1.0 i && told.1.1.0 v.fullscreen w.fullscreen same.1.1.0 i) };
}
