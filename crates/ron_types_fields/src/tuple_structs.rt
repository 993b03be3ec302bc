//! Tuple structs: their items as a row of types.
ghost use Rattle.std.specs.Prelude.{◌≡◌, IfOk, IfErr, OnOk, MatchResult};
ghost use Rattle.ron_base.specs.declared.error.Error.TheVariants.{OutOfMemory};
ghost use Rattle.ron_spec_grammar.specs.Data.{datas};
ghost use Rattle.ron_data_schema.specs.Table.{table_of};
ghost use Rattle.ron_data.specs.Datum.{data_view, items_view};
ghost use Rattle.ron_types.specs.Faults.{OwnOr};
ghost use Rattle.ron_types.specs.Normal.{each_normal};
ghost use Rattle.ron_types.specs.OfTables.{IsOfOrdered};
ghost use Rattle.ron_types_fields.specs.NamedStructs.{table_of_tuple_struct, data_of_tuple_struct, normal_of_tuple_struct, IsTupleStructOf};

use ron_base::error::Result;
use ron_data::data::Data;
use ron_data_schema::schema::{Schema, Shape};
use ron_lex_text::text::is_same;
use ron_types::refuse::{Lengths, another_kind, another_name};
use ron_types::rows::{BorrowedRow, FromRow, Row};
use ron_types::tables::Parts;
use std::alloc::Global;

/// The schema of a tuple struct of this name and these types. Refused by `OutOfMemory` alone.
pub fn tuple_struct_schema<R: Row>(alloc: Global, name: &str) -> Result<Schema>
    ensures { MatchResult result (λ s. table_of s ≡ table_of_tuple_struct name.now R.tables) (λ e. e ≡ OutOfMemory) }
{
    let mut parts = Parts::new(alloc);
    let mut roots = Vec::new(alloc);
    R::add_items(alloc, &mut parts, &mut roots)?;
    parts.top(Shape::TupleStruct(String::from_str(alloc, name)?, roots))
}

/// The tuple struct of this name and these values. Refused by `OutOfMemory` alone.
pub fn tuple_struct_data<'a, R: BorrowedRow<'a>>(
    alloc: Global,
    name: &str,
    row: R,
) -> Result<Data<'a>>
    ensures value { MatchResult result (λ d. data_view d ≡ data_of_tuple_struct name.now (R.datas row)) (λ e. e ≡ OutOfMemory) }
    ensures accepted { IfOk result (IsTupleStructOf name.now R.accepts) }
    ensures kept { OnOk result (normal_of_tuple_struct R.normals (data_of_tuple_struct name.now (R.datas row))
        ≡ data_of_tuple_struct name.now (R.datas row)) }
    ensures of_schema { OnOk result (IsOfOrdered (table_of_tuple_struct name.now R.tables)
        (data_of_tuple_struct name.now (R.datas row))) }
{
    let name = String::from_str(alloc, name)?;
    let items = row.push_items(alloc, Vec::with_capacity(alloc, R::size())?)?;
    Ok(Data::TupleStruct(name, items))
}

/// The values of the items of a tuple struct of this name. Data that is none, or whose items the types refuse, is refused.
pub fn from_tuple_struct<'de, R: FromRow<'de>>(
    alloc: Global,
    name: &str,
    from: Data<'de>,
) -> Result<R>
    ensures value { IfOk result (λ r. data_of_tuple_struct name.now (R.datas r)
        ≡ normal_of_tuple_struct R.normals (data_view from.entry)) }
    ensures accepted { MatchResult result (λ _. IsTupleStructOf name.now R.accepts from.entry)
        (λ e. IsTupleStructOf name.now R.accepts from.entry → e ≡ OutOfMemory) }
    ensures refused { IfErr result (OwnOr R.refuses) }
{
    match from {
        Data::TupleStruct(found, items) => {
            if !is_same(found.as_str(), name) {
                return Err(another_name(alloc, name, found.as_str()));
            }
            row_of(alloc, items)
        }
        other => Err(another_kind(alloc, "a tuple struct", other)),
    }
}

/// The values of these items, one of each; other items are refused.
fn row_of<'de, R: FromRow<'de>>(alloc: Global, items: Vec<Data<'de>>) -> Result<R>
    ensures value { IfOk result (λ r. datas (R.datas r) ≡ each_normal R.normals (items_view items.entry.items)) }
    ensures accepted { MatchResult result (λ _. R.accepts items.entry.items)
        (λ e. R.accepts items.entry.items → e ≡ OutOfMemory) }
    ensures refused { IfErr result (OwnOr R.refuses) }
{
    let lengths = Lengths {
        wanted: R::size(),
        found: items.len(),
    };
    R::from_items(alloc, lengths, items.into_iter())
}
