//! Structs: their fields as a row of types, under names.
ghost use Rattle.std.specs.Prelude.{◌≡◌, chars, IfOk, IfErr, OnOk, MatchResult};
ghost use Rattle.ron_base.specs.declared.error.Error.TheVariants.{OutOfMemory};
ghost use Rattle.ron_spec_grammar.specs.Schema as plain;
ghost use Rattle.ron_data_schema.specs.Shapes.{field_view};
ghost use Rattle.ron_data_schema.specs.Table.{table_of};
ghost use Rattle.ron_data.specs.Datum.{data_view, named_view};
ghost use Rattle.ron_types.specs.Accepts.{IsStruct, IsField};
ghost use Rattle.ron_types.specs.Faults.{OwnOr};
ghost use Rattle.ron_types.specs.FieldNames.{texts_of};
ghost use Rattle.ron_types.specs.OfTables.{IsOfOrdered};
ghost use Rattle.ron_types.specs.Rows.{AreNames, table_of_struct, struct_data, struct_normal};

use crate::refuse::{another_kind, another_name};
use crate::rows::{BorrowedRow, FromRow, Row};
use crate::tables::Parts;
use crate::traits::Serialize;
use ron_base::error::Result;
use ron_data::data::Data;
use ron_data_schema::schema::{FieldList, FieldShape, Schema, Shape};
use ron_lex_text::text::is_same;
use std::alloc::Global;

/// The schema of a struct of this name, with a field of each of these names, which no text may leave out. Refused by
/// `OutOfMemory` alone.
pub fn struct_schema<R: Row>(alloc: Global, name: &str, names: &[&str]) -> Result<Schema>
    requires { AreNames (texts_of names.now) R.tables }
    ensures { MatchResult result (λ s. table_of s ≡ table_of_struct name.now (texts_of names.now) R.tables)
        (λ e. e ≡ OutOfMemory) }
{
    let mut parts = Parts::new(alloc);
    let mut fields = Vec::with_capacity(alloc, names.len())?;
    R::add_fields(alloc, &mut parts, names, &mut fields)?;
    let skip_unknown = false;
    let list = FieldList {
        fields,
        skip_unknown,
    };
    parts.top(Shape::Struct(String::from_str(alloc, name)?, list))
}

/// The struct of this name with these values as its fields, by their names. Refused by `OutOfMemory` alone.
pub fn struct_data<'a, R: BorrowedRow<'a>>(
    alloc: Global,
    name: &str,
    names: &[&str],
    row: R,
) -> Result<Data<'a>>
    requires { AreNames (texts_of names.now) R.tables }
    ensures value { MatchResult result (λ d. data_view d ≡ struct_data name.now (texts_of names.now) (R.datas row))
        (λ e. e ≡ OutOfMemory) }
    ensures accepted { IfOk result (IsStruct (chars name.now) (R.accepts_named (texts_of names.now))) }
    ensures kept { OnOk result (struct_normal R.normals (struct_data name.now (texts_of names.now) (R.datas row))
        ≡ struct_data name.now (texts_of names.now) (R.datas row)) }
    ensures of_schema { OnOk result (IsOfOrdered (table_of_struct name.now (texts_of names.now) R.tables)
        (struct_data name.now (texts_of names.now) (R.datas row))) }
{
    let name = String::from_str(alloc, name)?;
    let fields = row.push_fields(alloc, names, Vec::with_capacity(alloc, names.len())?)?;
    Ok(Data::Struct(name, fields))
}

/// The values of the fields of a struct of this name, where its fields have these names in their order. Data that is no such
/// struct, or whose fields the types refuse, is refused.
pub fn from_struct<'de, R: FromRow<'de>>(
    alloc: Global,
    name: &str,
    names: &[&str],
    from: Data<'de>,
) -> Result<R>
    ensures value { IfOk result (λ r. struct_data name.now (texts_of names.now) (R.datas r)
        ≡ struct_normal R.normals (data_view from.entry)) }
    ensures accepted { MatchResult result
        (λ _. IsStruct (chars name.now) (R.accepts_named (texts_of names.now)) from.entry)
        (λ e. IsStruct (chars name.now) (R.accepts_named (texts_of names.now)) from.entry → e ≡ OutOfMemory) }
    ensures refused { IfErr result (OwnOr R.refuses) }
{
    match from {
        Data::Struct(found, fields) => {
            if !is_same(found.as_str(), name) {
                return Err(another_name(alloc, name, found.as_str()));
            }
            R::from_fields(alloc, names, fields.into_iter())
        }
        other => Err(another_kind(alloc, "a struct", other)),
    }
}

/// A field without aliases, by its name and the index of its shape, which no text may leave out. Refused by `OutOfMemory`
/// alone.
pub fn field_shape(alloc: Global, name: &str, shape: usize) -> Result<FieldShape>
    ensures { MatchResult result
        (λ f. field_view f ≡ plain.field (chars name.now) shape)
        (λ e. e ≡ OutOfMemory) }
{
    Ok(FieldShape {
        name: String::from_str(alloc, name)?,
        aliases: Vec::new(alloc),
        shape,
        may_be_missing: false,
    })
}

/// The data of a field's value, by its name. Refused by `OutOfMemory` alone.
pub fn field<'a, T: Serialize>(
    alloc: Global,
    name: &str,
    value: &'a T,
) -> Result<(String, Data<'a>)>
    ensures value { MatchResult result (λ f. named_view f ≡ (chars name.now, T.data value.now)) (λ e. e ≡ OutOfMemory) }
    ensures accepted { IfOk result (λ f. IsField (chars name.now) T.accepts f) }
    ensures kept { OnOk result (T.normal (T.data value.now) ≡ T.data value.now) }
    ensures of_schema { OnOk result (IsOfOrdered T.schema_is (T.data value.now)) }
{
    let name = String::from_str(alloc, name)?;
    Ok((name, value.to_data(alloc)?))
}
