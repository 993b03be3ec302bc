//! Types in a row, as nested pairs that end in `()`: `(u32, (String, ()))`. A struct's fields are such a row, and so are the
//! items of a variant.
ghost use Rattle.std.specs.Prelude.{◌≡◌, ◌<◌, ◌^◌, [], ◌∷◌, List, ℕ, length, map, IfOk, IfErr, OnOk, MatchResult};
ghost use Rattle.std.specs.Vec.Iter.{into_iter_items};
ghost use Rattle.ron_base.specs.declared.error.Error.{Error};
ghost use Rattle.ron_base.specs.declared.error.Error.TheVariants.{OutOfMemory};
ghost use Rattle.ron_spec_grammar.specs.Data as plain;
ghost use Rattle.ron_data_schema.specs.Shapes.{field_view};
ghost use Rattle.ron_data_schema.specs.Table.{Table};
ghost use Rattle.ron_data.specs.declared.data.Data.{Data};
ghost use Rattle.ron_data.specs.Datum.{items_view, fields_view};
ghost use Rattle.ron_types.specs.Faults.{OwnOr, PartOr, NoPart};
ghost use Rattle.ron_types.specs.FieldNames.{Field, texts_of};
ghost use Rattle.ron_types.specs.Lists.{Then, NoMore};
ghost use Rattle.ron_types.specs.Normal.{each_normal};
ghost use Rattle.ron_types.specs.OfTables.{EachIsOf};
ghost use Rattle.ron_types.specs.Parts.{shapes_in};
ghost use Rattle.ron_types.specs.Rows.{named_fields, NamedThen, NoneNamed, fields_normal};
ghost use Rattle.ron_types.specs.Rows.{AddsItems, AddsFields, PushesItems, PushesFields};

use crate::fields::{field, field_shape};
use crate::refuse::{Lengths, another_length, missing_field, unexpected_field};
use crate::tables::Parts;
use crate::traits::{Deserialize, Schematic, Serialize};
use ron_base::error::Result;
use ron_data::data::Data;
use ron_data_schema::schema::FieldShape;
use ron_lex_text::text::is_same;
use std::alloc::Global;
use std::vec;

/// Types in a row.
pub trait Row {
    /// The types' schemas.
    ghost tables: { List Table };

    /// What values of the types stand for.
    ghost datas: { Self → List plain.Data };

    /// What is kept of the data that each value is made of.
    ghost normals: { List (plain.Data → plain.Data) };

    /// Of which data the values are made.
    ghost accepts: { List Data → Type 0 };

    /// Of which fields of these names.
    ghost accepts_named: { List (List ℕ) → List Field → Type 0 };

    /// How many types there are.
    fn size() -> usize
        ensures { length tables < 2 ^ 64 → result ≡ length tables };

    /// Puts the schemas behind the parts, and the indices of their roots behind the others. Refused by `OutOfMemory`
    /// alone.
    fn add_items(alloc: Global, parts: &mut Parts, roots: &mut Vec<usize>) -> Result<()>
        ensures { MatchResult result
            (λ _. AddsItems tables (shapes_in parts.old) roots.old.items (shapes_in parts.new) roots.new.items)
            (λ e. e ≡ OutOfMemory) };

    /// Puts the schemas behind the parts, and fields of these names behind the others, as long as there are names.
    /// Refused by `OutOfMemory` alone.
    fn add_fields(
        alloc: Global,
        parts: &mut Parts,
        names: &[&str],
        fields: &mut Vec<FieldShape>,
    ) -> Result<()>
        ensures { MatchResult result
            (λ _. AddsFields (texts_of names.now) tables (shapes_in parts.old) (map field_view fields.old.items)
            (shapes_in parts.new) (map field_view fields.new.items))
            (λ e. e ≡ OutOfMemory) };
}

/// Borrowed values of types in a row: `(&u32, (&String, ()))`.
pub trait BorrowedRow<'a>: Drop {
    /// The types' schemas.
    ghost tables: { List Table };

    /// What the values stand for.
    ghost datas: { Self → List plain.Data };

    /// What is kept of the data that each is made of.
    ghost normals: { List (plain.Data → plain.Data) };

    /// Of which data they are made.
    ghost accepts: { List Data → Type 0 };

    /// Of which fields of these names.
    ghost accepts_named: { List (List ℕ) → List Field → Type 0 };

    /// How many types there are.
    fn size() -> usize
        ensures { length tables < 2 ^ 64 → result ≡ length tables };

    /// The items, and behind them the values as data. Refused by `OutOfMemory` alone.
    fn push_items(self, alloc: Global, items: Vec<Data<'a>>) -> Result<Vec<Data<'a>>>
        ensures value { MatchResult result (λ new. PushesItems (datas self) accepts items.entry.items new.items)
            (λ e. e ≡ OutOfMemory) }
        ensures kept { OnOk result (each_normal normals (plain.datas (datas self)) ≡ plain.datas (datas self)) }
        ensures of_schema { OnOk result (EachIsOf tables (datas self)) };

    /// The fields, and behind them the values as data of these names, as long as there are names. Refused by
    /// `OutOfMemory` alone.
    fn push_fields(
        self,
        alloc: Global,
        names: &[&str],
        fields: Vec<(String, Data<'a>)>,
    ) -> Result<Vec<(String, Data<'a>)>>
        ensures value { MatchResult result
            (λ new. PushesFields (texts_of names.now) (datas self) accepts_named fields.entry.items new.items)
            (λ e. e ≡ OutOfMemory) }
        ensures kept { OnOk result (fields_normal normals (named_fields (texts_of names.now) (datas self))
            ≡ named_fields (texts_of names.now) (datas self)) }
        ensures of_schema { OnOk result (EachIsOf tables (datas self)) };
}

/// Types in a row whose values are made of data that lives for `'de`.
pub trait FromRow<'de>: Row + Sized + Drop {
    /// By which errors the types may refuse some data.
    ghost refuses: { Error → Type 0 };

    /// The values of these items, one of each. Items that the types accept are refused by `OutOfMemory` alone, and no
    /// others are accepted; where there are more or fewer, the error tells these lengths.
    fn from_items(alloc: Global, lengths: Lengths, items: vec::IntoIter<Data<'de>>) -> Result<Self>
        ensures value { IfOk result (λ r. plain.datas (Self.datas r)
            ≡ each_normal Self.normals (items_view (into_iter_items items.entry))) }
        ensures accepted { MatchResult result (λ _. Self.accepts (into_iter_items items.entry))
            (λ e. Self.accepts (into_iter_items items.entry) → e ≡ OutOfMemory) }
        ensures refused { IfErr result (OwnOr refuses) };

    /// The values of these fields, which have these names in their order. Likewise.
    fn from_fields(
        alloc: Global,
        names: &[&str],
        fields: vec::IntoIter<(String, Data<'de>)>,
    ) -> Result<Self>
        ensures value { IfOk result (λ r. named_fields (texts_of names.now) (Self.datas r)
            ≡ fields_normal Self.normals (fields_view (into_iter_items fields.entry))) }
        ensures accepted { MatchResult result (λ _. Self.accepts_named (texts_of names.now) (into_iter_items fields.entry))
            (λ e. Self.accepts_named (texts_of names.now) (into_iter_items fields.entry) → e ≡ OutOfMemory) }
        ensures refused { IfErr result (OwnOr refuses) };
}

impl Row for () {
    ghost tables = { [] };

    ghost datas = { λ _. [] };

    ghost normals = { [] };

    ghost accepts = { NoMore };

    ghost accepts_named = { NoneNamed };

    fn size() -> usize {
        0
    }

    fn add_items(alloc: Global, parts: &mut Parts, roots: &mut Vec<usize>) -> Result<()> {
        Ok(())
    }

    fn add_fields(
        alloc: Global,
        parts: &mut Parts,
        names: &[&str],
        fields: &mut Vec<FieldShape>,
    ) -> Result<()> {
        Ok(())
    }
}

impl<A: Schematic, R: Row> Row for (A, R) {
    ghost tables = { A.schema_is ∷ R.tables };

    ghost datas = { λ r. A.data r.0 ∷ R.datas r.1 };

    ghost normals = { A.normal ∷ R.normals };

    ghost accepts = { Then A.accepts R.accepts };

    ghost accepts_named = { NamedThen A.accepts R.accepts_named };

    fn size() -> usize {
        R::size().saturating_add(1)
    }

    fn add_items(alloc: Global, parts: &mut Parts, roots: &mut Vec<usize>) -> Result<()> {
        let root = parts.add::<A>(alloc)?;
        roots.push(root)?;
        R::add_items(alloc, parts, roots)
    }

    fn add_fields(
        alloc: Global,
        parts: &mut Parts,
        names: &[&str],
        fields: &mut Vec<FieldShape>,
    ) -> Result<()> {
        let root = parts.add::<A>(alloc)?;
        match names.split_first() {
            Some((name, names)) => {
                fields.push(field_shape(alloc, name, root)?)?;
                R::add_fields(alloc, parts, names, fields)
            }
            None => R::add_fields(alloc, parts, names, fields),
        }
    }
}

impl<'a> BorrowedRow<'a> for () {
    ghost tables = { [] };

    ghost datas = { λ _. [] };

    ghost normals = { [] };

    ghost accepts = { NoMore };

    ghost accepts_named = { NoneNamed };

    fn size() -> usize {
        0
    }

    fn push_items(self, alloc: Global, items: Vec<Data<'a>>) -> Result<Vec<Data<'a>>> {
        Ok(items)
    }

    fn push_fields(
        self,
        alloc: Global,
        names: &[&str],
        fields: Vec<(String, Data<'a>)>,
    ) -> Result<Vec<(String, Data<'a>)>> {
        Ok(fields)
    }
}

impl<'a, A: Serialize, R: BorrowedRow<'a>> BorrowedRow<'a> for (&'a A, R) {
    ghost tables = { A.schema_is ∷ R.tables };

    ghost datas = { λ r. A.data r.0.now ∷ R.datas r.1 };

    ghost normals = { A.normal ∷ R.normals };

    ghost accepts = { Then A.accepts R.accepts };

    ghost accepts_named = { NamedThen A.accepts R.accepts_named };

    fn size() -> usize {
        R::size().saturating_add(1)
    }

    fn push_items(self, alloc: Global, items: Vec<Data<'a>>) -> Result<Vec<Data<'a>>> {
        let (first, others) = self;
        let mut items = items;
        items.push(first.to_data(alloc)?)?;
        others.push_items(alloc, items)
    }

    fn push_fields(
        self,
        alloc: Global,
        names: &[&str],
        fields: Vec<(String, Data<'a>)>,
    ) -> Result<Vec<(String, Data<'a>)>> {
        let (first, others) = self;
        let mut fields = fields;
        match names.split_first() {
            Some((name, names)) => {
                fields.push(field(alloc, name, first)?)?;
                others.push_fields(alloc, names, fields)
            }
            None => {
                let _ = first.to_data(alloc)?;
                others.push_fields(alloc, names, fields)
            }
        }
    }
}

impl<'de> FromRow<'de> for () {
    ghost refuses = { NoPart };

    fn from_items(
        alloc: Global,
        lengths: Lengths,
        items: vec::IntoIter<Data<'de>>,
    ) -> Result<Self> {
        let mut items = items;
        match items.next() {
            Some(_) => Err(another_length(alloc, lengths)),
            None => Ok(()),
        }
    }

    fn from_fields(
        alloc: Global,
        names: &[&str],
        fields: vec::IntoIter<(String, Data<'de>)>,
    ) -> Result<Self> {
        let mut fields = fields;
        if let Some(name) = names.first() {
            return Err(missing_field(alloc, name));
        }
        match fields.next() {
            Some(_) => Err(unexpected_field(alloc)),
            None => Ok(()),
        }
    }
}

impl<'de, A: Deserialize<'de>, R: FromRow<'de>> FromRow<'de> for (A, R) {
    ghost refuses = { PartOr A.refuses R.refuses };

    fn from_items(
        alloc: Global,
        lengths: Lengths,
        items: vec::IntoIter<Data<'de>>,
    ) -> Result<Self> {
        let mut items = items;
        let Some(item) = items.next() else {
            return Err(another_length(alloc, lengths));
        };
        let first = A::from_data(alloc, item)?;
        Ok((first, R::from_items(alloc, lengths, items)?))
    }

    fn from_fields(
        alloc: Global,
        names: &[&str],
        fields: vec::IntoIter<(String, Data<'de>)>,
    ) -> Result<Self> {
        let mut fields = fields;
        let Some((name, names)) = names.split_first() else {
            return Err(unexpected_field(alloc));
        };
        let Some((found, held)) = fields.next() else {
            return Err(missing_field(alloc, name));
        };
        if !is_same(found.as_str(), name) {
            return Err(missing_field(alloc, name));
        }
        let first = A::from_data(alloc, held)?;
        Ok((first, R::from_fields(alloc, names, fields)?))
    }
}
