//! Tuples: their items as a row of types.
ghost use Rattle.std.specs.Prelude.{◌≡◌, IfOk, IfErr, OnOk, MatchResult};
ghost use Rattle.ron_base.specs.declared.error.Error.TheVariants.{OutOfMemory};
ghost use Rattle.ron_spec_grammar.specs.Data.{tuple_of, datas};
ghost use Rattle.ron_data_schema.specs.Table.{table_of};
ghost use Rattle.ron_data.specs.Datum.{data_view, items_view};
ghost use Rattle.ron_types.specs.Accepts.{IsTuple};
ghost use Rattle.ron_types.specs.Faults.{OwnOr};
ghost use Rattle.ron_types.specs.Normal.{each_normal, tuple_normal};
ghost use Rattle.ron_types.specs.OfTables.{IsOfOrdered};
ghost use Rattle.ron_types.specs.Tables.{tuple_table};

use crate::refuse::{Lengths, another_kind};
use crate::rows::{BorrowedRow, FromRow, Row};
use crate::tables::Parts;
use ron_base::error::Result;
use ron_data::data::Data;
use ron_data_schema::schema::{Schema, Shape};
use std::alloc::Global;

/// The schema of a tuple of these types. Refused by `OutOfMemory` alone.
pub fn tuple_schema<R: Row>(alloc: Global) -> Result<Schema>
    ensures { MatchResult result (λ s. table_of s ≡ tuple_table R.tables) (λ e. e ≡ OutOfMemory) }
{
    let mut parts = Parts::new(alloc);
    let mut roots = Vec::new(alloc);
    R::add_items(alloc, &mut parts, &mut roots)?;
    parts.top(Shape::Tuple(roots))
}

/// The tuple of these values. Refused by `OutOfMemory` alone.
pub fn tuple_data<'a, R: BorrowedRow<'a>>(alloc: Global, row: R) -> Result<Data<'a>>
    ensures value { MatchResult result (λ d. data_view d ≡ tuple_of (datas (R.datas row))) (λ e. e ≡ OutOfMemory) }
    ensures accepted { IfOk result (IsTuple R.accepts) }
    ensures kept { OnOk result (tuple_normal R.normals (tuple_of (datas (R.datas row))) ≡ tuple_of (datas (R.datas row))) }
    ensures of_schema { OnOk result (IsOfOrdered (tuple_table R.tables) (tuple_of (datas (R.datas row)))) }
{
    let items = row.push_items(alloc, Vec::with_capacity(alloc, R::size())?)?;
    Ok(Data::Tuple(items))
}

/// The values of a tuple's items. Data that is no tuple, or whose items the types refuse, is refused.
pub fn from_tuple<'de, R: FromRow<'de>>(alloc: Global, from: Data<'de>) -> Result<R>
    ensures value { IfOk result (λ r. tuple_of (datas (R.datas r)) ≡ tuple_normal R.normals (data_view from.entry)) }
    ensures accepted { MatchResult result (λ _. IsTuple R.accepts from.entry)
        (λ e. IsTuple R.accepts from.entry → e ≡ OutOfMemory) }
    ensures refused { IfErr result (OwnOr R.refuses) }
{
    match from {
        Data::Tuple(items) => row_of(alloc, items),
        other => Err(another_kind(alloc, "a tuple", other)),
    }
}

/// The values of these items, one of each; other items are refused.
pub(crate) fn row_of<'de, R: FromRow<'de>>(alloc: Global, items: Vec<Data<'de>>) -> Result<R>
    ensures value { IfOk result (λ r. datas (R.datas r) ≡ each_normal R.normals (items_view items.entry.items)) }
    ensures accepted { MatchResult result (λ _. R.accepts items.entry.items)
        (λ e. R.accepts items.entry.items → e ≡ OutOfMemory) }
    ensures refused { IfErr result (OwnOr R.refuses) }
{
    let lengths = Lengths {
        wanted: R::size(),
        found: items.len(),
    };
    R::from_items(alloc, lengths, items.into_iter())
}
