//! Unit structs: a name, and nothing else.
ghost use Rattle.std.specs.Prelude.{◌≡◌, IfOk, IfErr, OnOk, MatchResult};
ghost use Rattle.ron_base.specs.declared.error.Error.TheVariants.{OutOfMemory};
ghost use Rattle.ron_data_schema.specs.Table.{table_of};
ghost use Rattle.ron_data.specs.Datum.{data_view};
ghost use Rattle.ron_types.specs.Faults.{IsRefusal};
ghost use Rattle.ron_types.specs.OfTables.{IsOfOrdered};
ghost use Rattle.ron_types_fields.specs.NamedStructs.{table_of_unit_struct, data_of_unit_struct, IsUnitStructOf};

use ron_base::error::Result;
use ron_data::data::Data;
use ron_data_schema::schema::{Schema, Shape};
use ron_lex_text::text::is_same;
use ron_types::refuse::{another_kind, another_name};
use ron_types::tables::leaf;
use std::alloc::Global;

/// The schema of a unit struct of this name. Refused by `OutOfMemory` alone.
pub fn unit_struct_schema(alloc: Global, name: &str) -> Result<Schema>
    ensures { MatchResult result (λ s. table_of s ≡ table_of_unit_struct name.now) (λ e. e ≡ OutOfMemory) }
{
    leaf(alloc, Shape::UnitStruct(String::from_str(alloc, name)?))
}

/// The unit struct of this name. Refused by `OutOfMemory` alone.
pub fn unit_struct_data<'a>(alloc: Global, name: &str) -> Result<Data<'a>>
    ensures value { MatchResult result (λ d. data_view d ≡ data_of_unit_struct name.now) (λ e. e ≡ OutOfMemory) }
    ensures accepted { IfOk result (IsUnitStructOf name.now) }
    ensures of_schema { OnOk result (IsOfOrdered (table_of_unit_struct name.now) (data_of_unit_struct name.now)) }
{
    Ok(Data::UnitStruct(String::from_str(alloc, name)?))
}

/// Whether data is the unit struct of this name; other data is refused.
pub fn from_unit_struct(alloc: Global, name: &str, from: Data) -> Result<()>
    ensures value { OnOk result (data_of_unit_struct name.now ≡ data_view from.entry) }
    ensures accepted { MatchResult result (λ _. IsUnitStructOf name.now from.entry)
        (λ e. IsUnitStructOf name.now from.entry → e ≡ OutOfMemory) }
    ensures refused { IfErr result IsRefusal }
{
    match from {
        Data::UnitStruct(found) => {
            if is_same(found.as_str(), name) {
                Ok(())
            } else {
                Err(another_name(alloc, name, found.as_str()))
            }
        }
        other => Err(another_kind(alloc, "a unit struct", other)),
    }
}
