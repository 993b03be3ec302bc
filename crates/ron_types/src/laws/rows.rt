//! Types in a row, and what is made of them: tuples and structs.
ghost use Rattle.std.specs.Prelude.{ℕ, List};
ghost use Rattle.ron_types.specs.Rows.{AreNames, table_of_struct, IsStructOf};
ghost use Rattle.ron_types.specs.Laws.{AcceptsAll, AcceptsItems, AcceptsFields};

use crate::rows::Row;
use crate::traits::Schematic;

/// No types.
pub fn empty_rows_accept_their_data()
    ensures items { AcceptsItems ⟦<() as Row>⟧.tables ⟦<() as Row>⟧.accepts }
    ensures fields { AcceptsFields ⟦<() as Row>⟧.tables ⟦<() as Row>⟧.accepts_named }
{}

/// One type before others.
pub fn rows_accept_their_data<A: Schematic, R: Row>()
    ensures items { AcceptsAll A.schema_is A.accepts → AcceptsItems R.tables R.accepts →
        AcceptsItems ⟦<(A, R) as Row>⟧.tables ⟦<(A, R) as Row>⟧.accepts }
    ensures fields { AcceptsAll A.schema_is A.accepts → AcceptsFields R.tables R.accepts_named →
        AcceptsFields ⟦<(A, R) as Row>⟧.tables ⟦<(A, R) as Row>⟧.accepts_named }
{}

/// Tuples of one to four items.
pub fn tuples_accept_their_data<A: Schematic, B: Schematic, C: Schematic, D: Schematic>()
    ensures one { AcceptsAll A.schema_is A.accepts →
        AcceptsAll ⟦<(A,) as Schematic>⟧.schema_is ⟦<(A,) as Schematic>⟧.accepts }
    ensures two { AcceptsAll A.schema_is A.accepts → AcceptsAll B.schema_is B.accepts →
        AcceptsAll ⟦<(A, B) as Schematic>⟧.schema_is ⟦<(A, B) as Schematic>⟧.accepts }
    ensures three { AcceptsAll A.schema_is A.accepts → AcceptsAll B.schema_is B.accepts →
        AcceptsAll C.schema_is C.accepts →
        AcceptsAll ⟦<(A, B, C) as Schematic>⟧.schema_is ⟦<(A, B, C) as Schematic>⟧.accepts }
    ensures four { AcceptsAll A.schema_is A.accepts → AcceptsAll B.schema_is B.accepts →
        AcceptsAll C.schema_is C.accepts → AcceptsAll D.schema_is D.accepts →
        AcceptsAll ⟦<(A, B, C, D) as Schematic>⟧.schema_is ⟦<(A, B, C, D) as Schematic>⟧.accepts }
{}

/// Structs of any name, whose fields' names differ.
pub fn structs_accept_their_data<R: Row>()
    ensures { (names : List (List ℕ)) → AreNames names R.tables → AcceptsFields R.tables R.accepts_named →
        (name : List ℕ) → AcceptsAll (table_of_struct name names R.tables) (IsStructOf name names R.accepts_named) }
{}
