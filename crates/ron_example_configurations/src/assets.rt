//! A list of assets, each with what of it is known: fields that aren't are skipped.
#![tactic(auto, unfolding(ron_lex_text::proofs::StretchLemmas::literals))]

ghost use Rattle.std.specs.Prelude.{◌&&◌, [], ◌∷◌, codes};
ghost use Rattle.ron_example_configurations.specs.Names.{asset_names, assets_differ};
ghost use Rattle.ron.specs.NamedStructs.{table_of_newtype, data_of_newtype, normal_of_newtype, IsNewtypeOf};
ghost use Rattle.ron.specs.NamedStructs.{table_of_tuple_struct, data_of_tuple_struct, normal_of_tuple_struct, IsTupleStructOf};
ghost use Rattle.ron.specs.FieldStructs.{table_of_fields, data_of_fields, normal_of_fields, IsOfFields};
ghost use Rattle.ron_types_fields.specs.PieceLaws.{tuple_structs_tell, fields_tell, there_tells, left_out_recovers};

use ron::error::Result;
use ron::schema::{Data, Deserialize, Faithful, Schema, Schematic, Serialize};
use ron::types::{
    DefaultOf, FieldNames, FieldRow, May, Must, Or, Others, Row, fields_data, fields_schema,
    from_fields, from_newtype, from_tuple_struct, newtype_data, newtype_schema, tuple_struct_data,
    tuple_struct_schema,
};
use std::alloc::Global;

/// All assets.
#[derive(Drop)]
pub struct Assets(pub Vec<Asset>);

/// One asset.
#[derive(PartialEq, Drop)]
pub struct Asset {
    pub path: String,
    pub size: Option<Size>,
    pub tags: Vec<String>,
}

/// Its width and its height.
#[derive(PartialEq, Drop)]
pub struct Size(pub u32, pub u32);

/// No tags.
pub struct NoTags;

impl DefaultOf<Vec<String>> for NoTags {
    ghost use Rattle.ron.specs.MadeOf.{list_data};

    ghost default_is = { list_data ⟦<String as Schematic>⟧.data [] };

    fn make(alloc: Global) -> Result<Vec<String>> {
        Ok(Vec::new(alloc))
    }
}

type Fields = (Must<String>, (May<Size>, (Or<Vec<String>, NoTags>, Others)));

const NAMES: [(&str, &[&str]); 3] = [("path", &["file"]), ("size", &[]), ("tags", &[])];

impl Schematic for Size {
    ghost schema_is = { table_of_tuple_struct (codes "Size") ⟦<(u32, (u32, ())) as Row>⟧.tables };

    ghost data = { λ s. data_of_tuple_struct (codes "Size") (⟦<(u32, (u32, ())) as Row>⟧.datas (s.0, (s.1, tt))) };

    ghost normal = { normal_of_tuple_struct ⟦<(u32, (u32, ())) as Row>⟧.normals };

    ghost accepts = { IsTupleStructOf (codes "Size") ⟦<(u32, (u32, ())) as Row>⟧.accepts };

    fn schema(alloc: Global) -> Result<Schema> {
        tuple_struct_schema::<(u32, (u32, ()))>(alloc, "Size")
    }
}

impl Serialize for Size {
    fn to_data(&self, alloc: Global) -> Result<Data<'_>> {
        tuple_struct_data(alloc, "Size", (&self.0, (&self.1, ())))
    }
}

impl<'de> Deserialize<'de> for Size {
    fn from_data(alloc: Global, from: Data<'de>) -> Result<Self> {
        match from_tuple_struct::<(u32, (u32, ()))>(alloc, "Size", from) {
            Ok(row) => {
                let (width, (height, ())) = row;
                Ok(Size(width, height))
            }
            Err(error) => Err(error),
        }
    }
}

impl FieldNames for Asset {
    ghost names = { asset_names };
}

impl Schematic for Asset {
    ghost schema_is = { table_of_fields (codes "Asset") ⟦<Asset as FieldNames>⟧.names
        ⟦<Fields as FieldRow>⟧.members ⟦<Fields as FieldRow>⟧.skips };

    ghost data = { λ a. data_of_fields (codes "Asset") ⟦<Asset as FieldNames>⟧.names
        (⟦<Fields as FieldRow>⟧.spelled (a.path, (a.size, (a.tags, tt)))) };

    ghost normal = { normal_of_fields ⟦<Asset as FieldNames>⟧.names ⟦<Fields as FieldRow>⟧.normals };

    ghost accepts = { IsOfFields (codes "Asset") ⟦<Asset as FieldNames>⟧.names ⟦<Fields as FieldRow>⟧.accepts };

    fn schema(alloc: Global) -> Result<Schema> {
        fields_schema::<Fields>(alloc, "Asset", &NAMES)
    }
}

impl Serialize for Asset {
    fn to_data(&self, alloc: Global) -> Result<Data<'_>> {
        let values = (&self.path, (&self.size, (&self.tags, ())));
        fields_data::<Fields>(alloc, "Asset", &NAMES, values)
    }
}

impl<'de> Deserialize<'de> for Asset {
    fn from_data(alloc: Global, from: Data<'de>) -> Result<Self> {
        match from_fields::<Fields>(alloc, "Asset", &NAMES, from) {
            Ok(values) => {
                let (path, (size, (tags, ()))) = values;
                Ok(Asset { path, size, tags })
            }
            Err(error) => Err(error),
        }
    }
}

impl Schematic for Assets {
    ghost schema_is = { table_of_newtype (codes "Assets") ⟦<Vec<Asset> as Schematic>⟧.schema_is };

    ghost data = { λ a. data_of_newtype (codes "Assets") (⟦<Vec<Asset> as Schematic>⟧.data a.0) };

    ghost normal = { normal_of_newtype ⟦<Vec<Asset> as Schematic>⟧.normal };

    ghost accepts = { IsNewtypeOf (codes "Assets") ⟦<Vec<Asset> as Schematic>⟧.accepts };

    fn schema(alloc: Global) -> Result<Schema> {
        newtype_schema::<Vec<Asset>>(alloc, "Assets")
    }
}

impl Serialize for Assets {
    fn to_data(&self, alloc: Global) -> Result<Data<'_>> {
        newtype_data(alloc, "Assets", &self.0)
    }
}

impl<'de> Deserialize<'de> for Assets {
    fn from_data(alloc: Global, from: Data<'de>) -> Result<Self> {
        match from_newtype::<Vec<Asset>>(alloc, "Assets", from) {
            Ok(all) => Ok(Assets(all)),
            Err(error) => Err(error),
        }
    }
}

impl Faithful for Size {
    type Parts = (u32, (u32, ()));

    ghost recovers = { λ told s t e.
        let same = tuple_structs_tell (codes "Size") s t (λ s. ⟦<(u32, (u32, ())) as Row>⟧.datas (s.0, (s.1, tt))) e in
        λ i. told.0 s.0 t.0 same.0 i && told.1.0 s.1 t.1 same.1.0 i };
}

impl Faithful for Asset {
    type Parts = (String, (Size, (Vec<String>, ())));

    ghost recovers = { λ told a b e.
        let same = fields_tell (codes "Asset") asset_names assets_differ a b
        (λ a. ⟦<Fields as FieldRow>⟧.spelled (a.path, (a.size, (a.tags, tt)))) e in
        let size = left_out_recovers ⟦<Size as Schematic>⟧.data ⟦<Size as PartialEq>⟧.eq told.1.0 a.size b.size same.1.0 in
        λ i. told.0 a.path b.path (there_tells _ _ same.0) i && (size i && told.1.1.0 a.tags b.tags (there_tells _ _ same.1.1.0) i) };
}
