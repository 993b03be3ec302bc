//! Tuples of up to four items.
ghost use Rattle.std.specs.Prelude.{[], ◌∷◌};
ghost use Rattle.ron_spec_grammar.specs.Data.{tuple_of, datas};
ghost use Rattle.ron_types.specs.Accepts.{IsTuple};
ghost use Rattle.ron_types.specs.Faults.{OwnOr, PartOr, NoPart};
ghost use Rattle.ron_types.specs.Lists.{Then, NoMore};
ghost use Rattle.ron_types.specs.Normal.{tuple_normal};
ghost use Rattle.ron_types.specs.Tables.{tuple_table};

use crate::items::{from_tuple, tuple_data, tuple_schema};
use crate::traits::{Deserialize, Schematic, Serialize};
use ron_base::error::Result;
use ron_data::data::Data;
use ron_data_schema::schema::Schema;
use std::alloc::Global;

impl<A: Schematic> Schematic for (A,) {
    ghost schema_is = { tuple_table (A.schema_is ∷ []) };

    ghost data = { λ p. tuple_of (datas (A.data p.0 ∷ [])) };

    ghost normal = { tuple_normal (A.normal ∷ []) };

    ghost accepts = { IsTuple (Then A.accepts NoMore) };

    fn schema(alloc: Global) -> Result<Schema> {
        tuple_schema::<(A, ())>(alloc)
    }
}

impl<A: Serialize> Serialize for (A,) {
    fn to_data(&self, alloc: Global) -> Result<Data<'_>> {
        tuple_data(alloc, (&self.0, ()))
    }
}

impl<'de, A: Deserialize<'de>> Deserialize<'de> for (A,) {
    ghost refuses = { λ _. OwnOr (PartOr A.refuses NoPart) };

    fn from_data(alloc: Global, from: Data<'de>) -> Result<Self> {
        let (a, ()) = from_tuple(alloc, from)?;
        Ok((a,))
    }
}

impl<A: Schematic, B: Schematic> Schematic for (A, B) {
    ghost schema_is = { tuple_table (A.schema_is ∷ B.schema_is ∷ []) };

    ghost data = { λ p. tuple_of (datas (A.data p.0 ∷ B.data p.1 ∷ [])) };

    ghost normal = { tuple_normal (A.normal ∷ B.normal ∷ []) };

    ghost accepts = { IsTuple (Then A.accepts (Then B.accepts NoMore)) };

    fn schema(alloc: Global) -> Result<Schema> {
        tuple_schema::<(A, (B, ()))>(alloc)
    }
}

impl<A: Serialize, B: Serialize> Serialize for (A, B) {
    fn to_data(&self, alloc: Global) -> Result<Data<'_>> {
        tuple_data(alloc, (&self.0, (&self.1, ())))
    }
}

impl<'de, A: Deserialize<'de>, B: Deserialize<'de>> Deserialize<'de> for (A, B) {
    ghost refuses = { λ _. OwnOr (PartOr A.refuses (PartOr B.refuses NoPart)) };

    fn from_data(alloc: Global, from: Data<'de>) -> Result<Self> {
        let (a, (b, ())) = from_tuple(alloc, from)?;
        Ok((a, b))
    }
}

impl<A: Schematic, B: Schematic, C: Schematic> Schematic for (A, B, C) {
    ghost schema_is = { tuple_table (A.schema_is ∷ B.schema_is ∷ C.schema_is ∷ []) };

    ghost data = { λ p. tuple_of (datas (A.data p.0 ∷ B.data p.1 ∷ C.data p.2 ∷ [])) };

    ghost normal = { tuple_normal (A.normal ∷ B.normal ∷ C.normal ∷ []) };

    ghost accepts = { IsTuple (Then A.accepts (Then B.accepts (Then C.accepts NoMore))) };

    fn schema(alloc: Global) -> Result<Schema> {
        tuple_schema::<(A, (B, (C, ())))>(alloc)
    }
}

impl<A: Serialize, B: Serialize, C: Serialize> Serialize for (A, B, C) {
    fn to_data(&self, alloc: Global) -> Result<Data<'_>> {
        tuple_data(alloc, (&self.0, (&self.1, (&self.2, ()))))
    }
}

impl<'de, A: Deserialize<'de>, B: Deserialize<'de>, C: Deserialize<'de>> Deserialize<'de>
    for (A, B, C) {
    ghost refuses = { λ _. OwnOr (PartOr A.refuses (PartOr B.refuses (PartOr C.refuses NoPart))) };

    fn from_data(alloc: Global, from: Data<'de>) -> Result<Self> {
        let (a, (b, (c, ()))) = from_tuple(alloc, from)?;
        Ok((a, b, c))
    }
}

impl<A: Schematic, B: Schematic, C: Schematic, D: Schematic> Schematic for (A, B, C, D) {
    ghost schema_is = { tuple_table (A.schema_is ∷ B.schema_is ∷ C.schema_is ∷ D.schema_is ∷ []) };

    ghost data = { λ p. tuple_of (datas (A.data p.0 ∷ B.data p.1 ∷ C.data p.2 ∷ D.data p.3 ∷ [])) };

    ghost normal = { tuple_normal (A.normal ∷ B.normal ∷ C.normal ∷ D.normal ∷ []) };

    ghost accepts = { IsTuple (Then A.accepts (Then B.accepts (Then C.accepts (Then D.accepts NoMore)))) };

    fn schema(alloc: Global) -> Result<Schema> {
        tuple_schema::<(A, (B, (C, (D, ()))))>(alloc)
    }
}

impl<A: Serialize, B: Serialize, C: Serialize, D: Serialize> Serialize for (A, B, C, D) {
    fn to_data(&self, alloc: Global) -> Result<Data<'_>> {
        tuple_data(alloc, (&self.0, (&self.1, (&self.2, (&self.3, ())))))
    }
}

impl<
    'de,
    A: Deserialize<'de>,
    B: Deserialize<'de>,
    C: Deserialize<'de>,
    D: Deserialize<'de>,
> Deserialize<'de> for (A, B, C, D) {
    ghost refuses = { λ _. OwnOr (PartOr A.refuses (PartOr B.refuses (PartOr C.refuses (PartOr D.refuses NoPart)))) };

    fn from_data(alloc: Global, from: Data<'de>) -> Result<Self> {
        let (a, (b, (c, (d, ())))) = from_tuple(alloc, from)?;
        Ok((a, b, c, d))
    }
}
