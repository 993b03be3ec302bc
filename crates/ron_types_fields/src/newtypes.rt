//! Newtypes: structs that hold one value, without a name for it.
ghost use Rattle.std.specs.Prelude.{◌≡◌, IfOk, IfErr, OnOk, MatchResult};
ghost use Rattle.ron_base.specs.declared.error.Error.TheVariants.{OutOfMemory};
ghost use Rattle.ron_data_schema.specs.Table.{table_of};
ghost use Rattle.ron_data.specs.Datum.{data_view};
ghost use Rattle.ron_types.specs.Faults.{OwnOr, PartOr, NoPart};
ghost use Rattle.ron_types.specs.OfTables.{IsOfOrdered};
ghost use Rattle.ron_types_fields.specs.NamedStructs.{table_of_newtype, data_of_newtype, normal_of_newtype, IsNewtypeOf};

use ron_base::error::Result;
use ron_data::data::Data;
use ron_data_schema::schema::{Schema, Shape};
use ron_lex_text::text::is_same;
use ron_types::refuse::{another_kind, another_name};
use ron_types::tables::Parts;
use ron_types::traits::{Deserialize, Schematic, Serialize};
use std::alloc::Global;

/// The schema of a newtype of this name. Refused by `OutOfMemory` alone.
pub fn newtype_schema<T: Schematic>(alloc: Global, name: &str) -> Result<Schema>
    ensures { MatchResult result (λ s. table_of s ≡ table_of_newtype name.now T.schema_is) (λ e. e ≡ OutOfMemory) }
{
    let mut parts = Parts::new(alloc);
    let held = parts.add::<T>(alloc)?;
    parts.top(Shape::Newtype(String::from_str(alloc, name)?, held))
}

/// The newtype of this name that holds this value. Refused by `OutOfMemory` alone.
pub fn newtype_data<'a, T: Serialize>(alloc: Global, name: &str, value: &'a T) -> Result<Data<'a>>
    ensures value { MatchResult result (λ d. data_view d ≡ data_of_newtype name.now (T.data value.now)) (λ e. e ≡ OutOfMemory) }
    ensures accepted { IfOk result (IsNewtypeOf name.now T.accepts) }
    ensures kept { OnOk result (normal_of_newtype T.normal (data_of_newtype name.now (T.data value.now))
        ≡ data_of_newtype name.now (T.data value.now)) }
    ensures of_schema { OnOk result (IsOfOrdered (table_of_newtype name.now T.schema_is)
        (data_of_newtype name.now (T.data value.now))) }
{
    let name = String::from_str(alloc, name)?;
    let held = Box::new(alloc, value.to_data(alloc)?)?;
    Ok(Data::Newtype(name, held))
}

/// The value that a newtype of this name holds. Data that is none, or whose value the type refuses, is refused.
pub fn from_newtype<'de, T: Deserialize<'de>>(
    alloc: Global,
    name: &str,
    from: Data<'de>,
) -> Result<T>
    ensures value { IfOk result (λ x. data_of_newtype name.now (T.data x) ≡ normal_of_newtype T.normal (data_view from.entry)) }
    ensures accepted { MatchResult result (λ _. IsNewtypeOf name.now T.accepts from.entry)
        (λ e. IsNewtypeOf name.now T.accepts from.entry → e ≡ OutOfMemory) }
    ensures refused { IfErr result (OwnOr (PartOr T.refuses NoPart)) }
{
    match from {
        Data::Newtype(found, held) => {
            if !is_same(found.as_str(), name) {
                return Err(another_name(alloc, name, found.as_str()));
            }
            T::from_data(alloc, Box::into_inner(held))
        }
        other => Err(another_kind(alloc, "a newtype struct", other)),
    }
}
