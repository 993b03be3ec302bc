//! Fields, rows of them, and structs.
ghost use Rattle.std.specs.Prelude.{◌≡◌, ℕ, true, List, Option};
ghost use Rattle.ron_spec_grammar.specs.Data as plain;
ghost use Rattle.ron_types.specs.Laws.{AcceptsAll, AreRefusals, AreRowRefusals};
ghost use Rattle.ron_types.specs.Faults.{OwnOr};
ghost use Rattle.ron_types.specs.Recovery.{AreEqual};
ghost use Rattle.ron_types_fields.specs.Names.{Name};
ghost use Rattle.ron_types_fields.specs.NamedStructs.{data_of_newtype, data_of_tuple_struct};
ghost use Rattle.ron_types_fields.specs.Rows.{own_differ};
ghost use Rattle.ron_types_fields.specs.Structs.{MayBeFields, table_of_fields, data_of_fields, IsOfFields};
ghost use Rattle.ron_types_fields.specs.FieldLaws.{AcceptsField, AcceptsSpelled};
ghost use Rattle.ron_types_fields.specs.PieceLaws.{AreEqualSpelled};

use crate::field_types::{DefaultOf, FieldFromData, FieldType, May, Must, Or};
use crate::rows::{FieldRow, FieldsFromData, Others};
use ron_types::traits::{Deserialize, Schematic};

/// A field that must be there, one that may be left out, and one with a default.
pub fn fields_accept_their_data<A: Schematic + Drop, D: DefaultOf<A>>()
    ensures must { AcceptsAll A.schema_is A.accepts →
        AcceptsField (A.schema_is, ⟦<Must<A> as FieldType>⟧.may_be_missing) ⟦<Must<A> as FieldType>⟧.accepts }
    ensures may { AcceptsAll A.schema_is A.accepts →
        AcceptsField (A.schema_is, ⟦<May<A> as FieldType>⟧.may_be_missing) ⟦<May<A> as FieldType>⟧.accepts }
    ensures or { AcceptsAll A.schema_is A.accepts →
        AcceptsField (A.schema_is, ⟦<Or<A, D> as FieldType>⟧.may_be_missing) ⟦<Or<A, D> as FieldType>⟧.accepts }
{}

/// No fields, whether or not others may stand among them.
pub fn empty_rows_accept_their_data()
    ensures only { AcceptsSpelled ⟦<() as FieldRow>⟧.members ⟦<() as FieldRow>⟧.accepts }
    ensures others { AcceptsSpelled ⟦<Others as FieldRow>⟧.members ⟦<Others as FieldRow>⟧.accepts }
{}

/// One field before others.
pub fn rows_accept_their_data<F: FieldType, R: FieldRow>()
    ensures { AcceptsField (F.Of.schema_is, F.may_be_missing) F.accepts → AcceptsSpelled R.members R.accepts →
        AcceptsSpelled ⟦<(F, R) as FieldRow>⟧.members ⟦<(F, R) as FieldRow>⟧.accepts }
{}

/// Structs of any name, whose fields' names and aliases differ.
pub fn structs_accept_their_data<R: FieldRow>()
    ensures { (names : List Name) → (name : List ℕ) → MayBeFields name names R.members → AcceptsSpelled R.members R.accepts →
        AcceptsAll (table_of_fields name names R.members R.skips) (IsOfFields name names R.accepts) }
{}

/// Fields refuse data as their types do.
pub fn fields_refuse_as_data<'a, A: Deserialize<'a>, D: DefaultOf<A>>()
    ensures must { AreRefusals A.refuses → AreRowRefusals ⟦<Must<A> as FieldFromData<'a>>⟧.refuses }
    ensures may { AreRefusals A.refuses → AreRowRefusals ⟦<May<A> as FieldFromData<'a>>⟧.refuses }
    ensures or { AreRefusals A.refuses → AreRowRefusals ⟦<Or<A, D> as FieldFromData<'a>>⟧.refuses }
{}

/// Rows of fields: none, and one before others; and structs of them.
pub fn rows_refuse_as_data<'a, F: FieldFromData<'a>, R: FieldsFromData<'a>>()
    ensures none { AreRowRefusals ⟦<() as FieldsFromData<'a>>⟧.refuses }
    ensures more { AreRowRefusals F.refuses → AreRowRefusals R.refuses →
        AreRowRefusals ⟦<(F, R) as FieldsFromData<'a>>⟧.refuses }
    ensures structs { AreRowRefusals R.refuses → AreRowRefusals (OwnOr R.refuses) }
{}

/// Newtypes, tuple structs, and structs of fields whose names differ: their data tells that of what they hold, and which
/// fields are left out.
pub fn structs_are_told()
    ensures newtypes { (name : List ℕ) → (d e : plain.Data) → data_of_newtype name d ≡ data_of_newtype name e → d ≡ e }
    ensures tuple_structs { (name : List ℕ) → (ds es : List plain.Data) →
        data_of_tuple_struct name ds ≡ data_of_tuple_struct name es → AreEqual ds es }
    ensures fields { (name : List ℕ) → (names : List Name) → own_differ names ≡ true → (ds es : List (Option plain.Data)) →
        data_of_fields name names ds ≡ data_of_fields name names es → AreEqualSpelled names ds es }
{}
