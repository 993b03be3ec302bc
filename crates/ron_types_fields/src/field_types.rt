//! The types of fields: one that must be there, one that may be left out, and one with a default.
ghost use Rattle.std.specs.Prelude.{◌≡◌, Bool, true, false, Option, Some, None, option_map, IfOk, IfErr, OnOk, MatchResult};
ghost use Rattle.ron_base.specs.declared.error.Error.{Error};
ghost use Rattle.ron_base.specs.declared.error.Error.TheVariants.{OutOfMemory};
ghost use Rattle.ron_spec_grammar.specs.Data as plain;
ghost use Rattle.ron_data.specs.declared.data.Data.{Data};
ghost use Rattle.ron_data.specs.Datum.{data_view};
ghost use Rattle.ron_types.specs.Faults.{OwnOr, PartOr, NoPart};
ghost use Rattle.ron_types_fields.specs.Rows.{MayStand};
ghost use Rattle.ron_types_fields.specs.Spelled.{IsThere, IsThereOrLeft, or_default};

use ron_base::error::Result;
use ron_data::data::Data;
use ron_types::refuse::missing_field;
use ron_types::traits::{Deserialize, Schematic, Serialize};
use std::alloc::Global;
use std::marker::PhantomData;

/// A field: its type, and what its value is where a text leaves it out.
pub trait FieldType {
    /// The type of its data.
    type Of: Schematic;

    /// What a struct holds of it.
    type Value: Drop;

    /// Whether a text may leave it out.
    ghost may_be_missing: { Bool };

    /// What a value stands for: none where the field is left out.
    ghost spelled: { Self.Value → Option plain.Data };

    /// What is kept of the data that a value is made of, or of none.
    ghost normal: { Option plain.Data → Option plain.Data };

    /// Of which data a value is made, and whether of none.
    ghost accepts: { Option Data → Type 0 };

    /// Whether a text may leave it out.
    fn may_be_missing() -> bool
        ensures { result ≡ may_be_missing };
}

/// A field whose values become data.
pub trait FieldToData: FieldType {
    /// The value as data, or none where the field is left out. Refused by `OutOfMemory` alone.
    fn to_data(alloc: Global, value: &Self::Value) -> Result<Option<Data<'_>>>
        ensures value { MatchResult result (λ d. option_map data_view d ≡ Self.spelled value.now) (λ e. e ≡ OutOfMemory) }
        ensures accepted { IfOk result (λ d. Self.accepts d) }
        ensures kept { OnOk result (Self.normal (Self.spelled value.now) ≡ Self.spelled value.now) }
        ensures of_schema { OnOk result (MayStand (Self.Of.schema_is, Self.may_be_missing) (Self.spelled value.now)) };
}

/// A field whose values are made of data that lives for `'de`.
pub trait FieldFromData<'de>: FieldType {
    /// By which errors its type may refuse some data.
    ghost refuses: { Error → Type 0 };

    /// The value of this data, or where there is none, of the field of this name that was left out. What the field
    /// accepts is refused by `OutOfMemory` alone, and nothing else is accepted.
    fn from_data(alloc: Global, name: &str, from: Option<Data<'de>>) -> Result<Self::Value>
        ensures value { IfOk result (λ x. Self.spelled x ≡ Self.normal (option_map data_view from.entry)) }
        ensures accepted { MatchResult result (λ _. Self.accepts from.entry) (λ e. Self.accepts from.entry → e ≡ OutOfMemory) }
        ensures refused { IfErr result (OwnOr refuses) };
}

/// What a field of type `A` is where a text leaves it out.
pub trait DefaultOf<A: Schematic> {
    /// The data that it stands for.
    ghost default_is: { plain.Data };

    /// Refused by `OutOfMemory` alone.
    fn make(alloc: Global) -> Result<A>
        ensures { MatchResult result (λ x. A.data x ≡ default_is) (λ e. e ≡ OutOfMemory) };
}

/// A field that must be there.
#[derive(Drop)]
pub struct Must<A>(PhantomData<A>);

/// A field that is left out where the value is `None`. Of a type that is an option itself a field that is left out and
/// a `None` that is spelled are two values, `None` and `Some(None)`.
#[derive(Drop)]
pub struct May<A>(PhantomData<A>);

/// A field that a text may leave out, and then is what `D` makes. It is written always.
#[derive(Drop)]
pub struct Or<A, D>(PhantomData<(A, D)>);

/// An optional value that a text may leave out, and then is `None`. It is written always.
pub type OrNone<A> = Or<Option<A>, TheNone>;

/// That an optional value is `None`.
#[derive(Drop)]
pub struct TheNone;

impl<A: Schematic> DefaultOf<Option<A>> for TheNone {
    ghost default_is = { plain.the_none };

    fn make(alloc: Global) -> Result<Option<A>> {
        Ok(None)
    }
}

impl<A: Schematic + Drop> FieldType for Must<A> {
    type Of = A;

    type Value = A;

    ghost may_be_missing = { false };

    ghost spelled = { λ x. Some (A.data x) };

    ghost normal = { option_map A.normal };

    ghost accepts = { IsThere A.accepts };

    fn may_be_missing() -> bool {
        false
    }
}

impl<A: Serialize + Drop> FieldToData for Must<A> {
    fn to_data(alloc: Global, value: &A) -> Result<Option<Data<'_>>> {
        Ok(Some(value.to_data(alloc)?))
    }
}

impl<'de, A: Deserialize<'de>> FieldFromData<'de> for Must<A> {
    ghost refuses = { PartOr A.refuses NoPart };

    fn from_data(alloc: Global, name: &str, from: Option<Data<'de>>) -> Result<A> {
        match from {
            Some(held) => A::from_data(alloc, held),
            None => Err(missing_field(alloc, name)),
        }
    }
}

impl<A: Schematic + Drop> FieldType for May<A> {
    type Of = A;

    type Value = Option<A>;

    ghost may_be_missing = { true };

    ghost spelled = { option_map A.data };

    ghost normal = { option_map A.normal };

    ghost accepts = { IsThereOrLeft A.accepts };

    fn may_be_missing() -> bool {
        true
    }
}

impl<A: Serialize + Drop> FieldToData for May<A> {
    fn to_data(alloc: Global, value: &Option<A>) -> Result<Option<Data<'_>>> {
        match value {
            Some(held) => Ok(Some(held.to_data(alloc)?)),
            None => Ok(None),
        }
    }
}

impl<'de, A: Deserialize<'de>> FieldFromData<'de> for May<A> {
    ghost refuses = { PartOr A.refuses NoPart };

    fn from_data(alloc: Global, name: &str, from: Option<Data<'de>>) -> Result<Option<A>> {
        match from {
            Some(held) => Ok(Some(A::from_data(alloc, held)?)),
            None => Ok(None),
        }
    }
}

impl<A: Schematic + Drop, D: DefaultOf<A>> FieldType for Or<A, D> {
    type Of = A;

    type Value = A;

    ghost may_be_missing = { true };

    ghost spelled = { λ x. Some (A.data x) };

    ghost normal = { or_default A.normal D.default_is };

    ghost accepts = { IsThereOrLeft A.accepts };

    fn may_be_missing() -> bool {
        true
    }
}

impl<A: Serialize + Drop, D: DefaultOf<A>> FieldToData for Or<A, D> {
    fn to_data(alloc: Global, value: &A) -> Result<Option<Data<'_>>> {
        Ok(Some(value.to_data(alloc)?))
    }
}

impl<'de, A: Deserialize<'de>, D: DefaultOf<A>> FieldFromData<'de> for Or<A, D> {
    ghost refuses = { PartOr A.refuses NoPart };

    fn from_data(alloc: Global, name: &str, from: Option<Data<'de>>) -> Result<A> {
        match from {
            Some(found) => A::from_data(alloc, found),
            None => D::make(alloc),
        }
    }
}
