//! Structs of fields that may be left out: their schema, and their data both ways.
ghost use Rattle.std.specs.Prelude.{◌≡◌, IfOk, IfErr, OnOk, MatchResult};
ghost use Rattle.ron_base.specs.declared.error.Error.TheVariants.{OutOfMemory};
ghost use Rattle.ron_data_schema.specs.Table.{table_of};
ghost use Rattle.ron_data.specs.Datum.{data_view};
ghost use Rattle.ron_types.specs.Faults.{OwnOr};
ghost use Rattle.ron_types.specs.OfTables.{IsOfOrdered};
ghost use Rattle.ron_types_fields.specs.Names.{names_in};
ghost use Rattle.ron_types_fields.specs.Structs.{MayBeFields, table_of_fields, data_of_fields, normal_of_fields, IsOfFields};

use crate::rows::{FieldRow, FieldsFromData, FieldsToData};
use ron_base::error::Result;
use ron_data::data::Data;
use ron_data_schema::schema::{FieldList, Schema, Shape};
use ron_lex_text::text::is_same;
use ron_types::refuse::{another_kind, another_name};
use ron_types::tables::Parts;
use std::alloc::Global;
use std::collections::VecDeque;

/// The schema of a struct of this name, with a field of each of these names and its aliases. Refused by `OutOfMemory`
/// alone.
pub fn fields_schema<R: FieldRow>(
    alloc: Global,
    name: &str,
    names: &[(&str, &[&str])],
) -> Result<Schema>
    requires { MayBeFields name.now (names_in names.now) R.members }
    ensures { MatchResult result (λ s. table_of s ≡ table_of_fields name.now (names_in names.now) R.members R.skips)
        (λ e. e ≡ OutOfMemory) }
{
    let mut parts = Parts::new(alloc);
    let mut fields = Vec::with_capacity(alloc, names.len())?;
    R::add_fields(alloc, &mut parts, names, &mut fields)?;
    let list = FieldList {
        fields,
        skip_unknown: R::skips_unknown(),
    };
    parts.top(Shape::Struct(String::from_str(alloc, name)?, list))
}

/// The struct of this name with these values as its fields, by their names, but for those that are left out. Refused by
/// `OutOfMemory` alone.
pub fn fields_data<'a, R: FieldsToData<'a>>(
    alloc: Global,
    name: &str,
    names: &[(&str, &[&str])],
    values: R::Lent,
) -> Result<Data<'a>>
    requires { MayBeFields name.now (names_in names.now) R.members }
    ensures value { MatchResult result (λ d. data_view d ≡ data_of_fields name.now (names_in names.now) (R.lent values))
        (λ e. e ≡ OutOfMemory) }
    ensures accepted { IfOk result (IsOfFields name.now (names_in names.now) R.accepts) }
    ensures kept { OnOk result (normal_of_fields (names_in names.now) R.normals
        (data_of_fields name.now (names_in names.now) (R.lent values))
        ≡ data_of_fields name.now (names_in names.now) (R.lent values)) }
    ensures of_schema { OnOk result (IsOfOrdered (table_of_fields name.now (names_in names.now) R.members R.skips)
        (data_of_fields name.now (names_in names.now) (R.lent values))) }
{
    let name = String::from_str(alloc, name)?;
    let fields = R::push_fields(
        alloc,
        names,
        values,
        Vec::with_capacity(alloc, names.len())?,
    )?;
    Ok(Data::Struct(name, fields))
}

/// The values of the fields of a struct of this name, where its fields have these names in their order, but for those that
/// are left out. Data that is no such struct, or whose fields the types refuse, is refused.
pub fn from_fields<'de, R: FieldsFromData<'de>>(
    alloc: Global,
    name: &str,
    names: &[(&str, &[&str])],
    from: Data<'de>,
) -> Result<R::Values>
    ensures value { IfOk result (λ r. data_of_fields name.now (names_in names.now) (R.spelled r)
        ≡ normal_of_fields (names_in names.now) R.normals (data_view from.entry)) }
    ensures accepted { MatchResult result (λ _. IsOfFields name.now (names_in names.now) R.accepts from.entry)
        (λ e. IsOfFields name.now (names_in names.now) R.accepts from.entry → e ≡ OutOfMemory) }
    ensures refused { IfErr result (OwnOr R.refuses) }
{
    match from {
        Data::Struct(found, fields) => {
            if !is_same(found.as_str(), name) {
                return Err(another_name(alloc, name, found.as_str()));
            }
            R::from_fields(alloc, names, VecDeque::from(fields))
        }
        other => Err(another_kind(alloc, "a struct", other)),
    }
}
