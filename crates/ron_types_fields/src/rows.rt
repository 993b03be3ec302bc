//! Fields in a row, as nested pairs: `(Must<u32>, (May<String>, ()))`. A row that ends in `Others` in place of `()` skips
//! unknown fields.
ghost use Rattle.std.specs.Prelude.{◌≡◌, Bool, true, false, [], ◌∷◌, List, Option, map, IfOk, IfErr, OnOk, MatchResult};
ghost use Rattle.ron_base.specs.declared.error.Error.{Error};
ghost use Rattle.ron_base.specs.declared.error.Error.TheVariants.{OutOfMemory};
ghost use Rattle.ron_spec_grammar.specs.Data as plain;
ghost use Rattle.ron_data_schema.specs.Shapes.{field_view};
ghost use Rattle.ron_data.specs.Datum.{fields_view};
ghost use Rattle.ron_types.specs.Faults.{OwnOr, NoPart};
ghost use Rattle.ron_types.specs.FieldNames.{Field};
ghost use Rattle.ron_types.specs.Parts.{shapes_in};
ghost use Rattle.ron_types_fields.specs.Names.{Name, names_in};
ghost use Rattle.ron_types_fields.specs.Rows.{Part, AddsFields, PushesFields, EachMayStand, EitherPart, own_differ};
ghost use Rattle.ron_types_fields.specs.Spelled.{spelled_fields, spelled_normal, SpelledThen, NoneSpelled};

use crate::field_types::{FieldFromData, FieldToData, FieldType};
use crate::shapes::shape_of;
use crate::taken::{no_further, take_called};
use ron_base::error::Result;
use ron_data::data::Data;
use ron_data_schema::schema::FieldShape;
use ron_types::refuse::unexpected_field;
use ron_types::tables::Parts;
use std::alloc::Global;
use std::collections::VecDeque;

/// The end of a row of fields among which others may stand, which are skipped.
#[derive(Drop)]
pub struct Others;

/// The names of a struct's fields, told once for what its `impl`s tell proofs.
pub trait FieldNames {
    /// Each field's name with its aliases, in the order of the row.
    ghost names: { List Name };
}

/// Fields in a row.
pub trait FieldRow {
    /// What a struct holds of them: nested pairs that end in `()`.
    type Values: Drop;

    /// Their schemas, and whether each may be left out.
    ghost members: { List Part };

    /// Whether others may stand among them.
    ghost skips: { Bool };

    /// What values stand for: none of each that is left out.
    ghost spelled: { Self.Values → List (Option plain.Data) };

    /// What is kept of the data that each value is made of, or of none.
    ghost normals: { List (Option plain.Data → Option plain.Data) };

    /// Of which fields of these names the values are made.
    ghost accepts: { List Name → List Field → Type 0 };

    /// Whether others may stand among them.
    fn skips_unknown() -> bool
        ensures { result ≡ skips };

    /// Puts the schemas behind the parts, and fields of these names behind the others, as long as there are names.
    /// Refused by `OutOfMemory` alone.
    fn add_fields(
        alloc: Global,
        parts: &mut Parts,
        names: &[(&str, &[&str])],
        fields: &mut Vec<FieldShape>,
    ) -> Result<()>
        ensures { MatchResult result
            (λ _. AddsFields (names_in names.now) Self.members (shapes_in parts.old) (map field_view fields.old.items)
            (shapes_in parts.new) (map field_view fields.new.items))
            (λ e. e ≡ OutOfMemory) };
}

/// Fields in a row whose values are lent for `'a` and become data.
pub trait FieldsToData<'a>: FieldRow {
    /// The values, each lent: `(&u32, (&Option<String>, ()))`.
    type Lent: Drop;

    /// What they stand for.
    ghost lent: { Self.Lent → List (Option plain.Data) };

    /// The fields, and behind them the values as data of these names, but for those that are left out. Refused by
    /// `OutOfMemory` alone.
    fn push_fields(
        alloc: Global,
        names: &[(&str, &[&str])],
        values: Self::Lent,
        fields: Vec<(String, Data<'a>)>,
    ) -> Result<Vec<(String, Data<'a>)>>
        ensures value { MatchResult result
            (λ new. PushesFields (names_in names.now) (lent values) Self.accepts fields.entry.items new.items)
            (λ e. e ≡ OutOfMemory) }
        ensures kept { OnOk result (own_differ (names_in names.now) ≡ true →
            spelled_normal (names_in names.now) Self.normals (spelled_fields (names_in names.now) (lent values))
            ≡ spelled_fields (names_in names.now) (lent values)) }
        ensures of_schema { OnOk result (EachMayStand Self.members (lent values)) };
}

/// Fields in a row whose values are made of data that lives for `'de`.
pub trait FieldsFromData<'de>: FieldRow {
    /// By which errors the types may refuse some data.
    ghost refuses: { Error → Type 0 };

    /// The values of these fields, which have these names in their order, but for those that are left out. Fields that
    /// the row accepts are refused by `OutOfMemory` alone, and no others are accepted.
    fn from_fields(
        alloc: Global,
        names: &[(&str, &[&str])],
        fields: VecDeque<(String, Data<'de>)>,
    ) -> Result<Self::Values>
        ensures value { IfOk result (λ r. spelled_fields (names_in names.now) (Self.spelled r)
            ≡ spelled_normal (names_in names.now) Self.normals (fields_view fields.entry.items)) }
        ensures accepted { MatchResult result (λ _. Self.accepts (names_in names.now) fields.entry.items)
            (λ e. Self.accepts (names_in names.now) fields.entry.items → e ≡ OutOfMemory) }
        ensures refused { IfErr result (OwnOr refuses) };
}

impl FieldRow for () {
    type Values = ();

    ghost members = { [] };

    ghost skips = { false };

    ghost spelled = { λ _. [] };

    ghost normals = { [] };

    ghost accepts = { NoneSpelled };

    fn skips_unknown() -> bool {
        false
    }

    fn add_fields(
        alloc: Global,
        parts: &mut Parts,
        names: &[(&str, &[&str])],
        fields: &mut Vec<FieldShape>,
    ) -> Result<()> {
        Ok(())
    }
}

impl FieldRow for Others {
    type Values = ();

    ghost members = { [] };

    ghost skips = { true };

    ghost spelled = { λ _. [] };

    ghost normals = { [] };

    ghost accepts = { NoneSpelled };

    fn skips_unknown() -> bool {
        true
    }

    fn add_fields(
        alloc: Global,
        parts: &mut Parts,
        names: &[(&str, &[&str])],
        fields: &mut Vec<FieldShape>,
    ) -> Result<()> {
        Ok(())
    }
}

impl<F: FieldType, R: FieldRow> FieldRow for (F, R) {
    type Values = (F::Value, R::Values);

    ghost members = { (F.Of.schema_is, F.may_be_missing) ∷ R.members };

    ghost skips = { R.skips };

    ghost spelled = { λ r. F.spelled r.0 ∷ R.spelled r.1 };

    ghost normals = { F.normal ∷ R.normals };

    ghost accepts = { SpelledThen F.accepts R.accepts };

    fn skips_unknown() -> bool {
        R::skips_unknown()
    }

    fn add_fields(
        alloc: Global,
        parts: &mut Parts,
        names: &[(&str, &[&str])],
        fields: &mut Vec<FieldShape>,
    ) -> Result<()> {
        let root = parts.add::<F::Of>(alloc)?;
        match names.split_first() {
            Some((name, names)) => {
                fields.push(shape_of(alloc, name, root, F::may_be_missing())?)?;
                R::add_fields(alloc, parts, names, fields)
            }
            None => R::add_fields(alloc, parts, names, fields),
        }
    }
}

impl<'a> FieldsToData<'a> for () {
    type Lent = ();

    ghost lent = { λ _. [] };

    fn push_fields(
        alloc: Global,
        names: &[(&str, &[&str])],
        values: (),
        fields: Vec<(String, Data<'a>)>,
    ) -> Result<Vec<(String, Data<'a>)>> {
        Ok(fields)
    }
}

impl<'a> FieldsToData<'a> for Others {
    type Lent = ();

    ghost lent = { λ _. [] };

    fn push_fields(
        alloc: Global,
        names: &[(&str, &[&str])],
        values: (),
        fields: Vec<(String, Data<'a>)>,
    ) -> Result<Vec<(String, Data<'a>)>> {
        Ok(fields)
    }
}

impl<'a, F: FieldToData, R: FieldsToData<'a>> FieldsToData<'a> for (F, R)
where
    F::Value: 'a,
{
    type Lent = (&'a F::Value, R::Lent);

    ghost lent = { λ r. F.spelled r.0.now ∷ R.lent r.1 };

    fn push_fields(
        alloc: Global,
        names: &[(&str, &[&str])],
        values: (&'a F::Value, R::Lent),
        fields: Vec<(String, Data<'a>)>,
    ) -> Result<Vec<(String, Data<'a>)>> {
        let (first, others) = values;
        let mut fields = fields;
        let held = F::to_data(alloc, first)?;
        let Some((name, names)) = names.split_first() else {
            return R::push_fields(alloc, names, others, fields);
        };
        match held {
            Some(held) => {
                fields.push((String::from_str(alloc, name.0)?, held))?;
                R::push_fields(alloc, names, others, fields)
            }
            None => R::push_fields(alloc, names, others, fields),
        }
    }
}

impl<'de> FieldsFromData<'de> for () {
    ghost refuses = { NoPart };

    fn from_fields(
        alloc: Global,
        names: &[(&str, &[&str])],
        fields: VecDeque<(String, Data<'de>)>,
    ) -> Result<()> {
        no_further(alloc, names, fields)
    }
}

impl<'de> FieldsFromData<'de> for Others {
    ghost refuses = { NoPart };

    fn from_fields(
        alloc: Global,
        names: &[(&str, &[&str])],
        fields: VecDeque<(String, Data<'de>)>,
    ) -> Result<()> {
        no_further(alloc, names, fields)
    }
}

impl<'de, F: FieldFromData<'de>, R: FieldsFromData<'de>> FieldsFromData<'de> for (F, R) {
    ghost refuses = { EitherPart F.refuses R.refuses };

    fn from_fields(
        alloc: Global,
        names: &[(&str, &[&str])],
        fields: VecDeque<(String, Data<'de>)>,
    ) -> Result<(F::Value, R::Values)> {
        let mut fields = fields;
        let Some((name, names)) = names.split_first() else {
            return Err(unexpected_field(alloc));
        };
        let held = take_called(name.0, &mut fields);
        let first = F::from_data(alloc, name.0, held)?;
        Ok((first, R::from_fields(alloc, names, fields)?))
    }
}
