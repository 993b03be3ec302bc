//! What a type owes to be written and read.
ghost use Rattle.std.specs.Prelude.{◌≡◌, ⊤, IfOk, IfErr, OnOk, MatchResult};
ghost use Rattle.std.specs.declared.cmp.Ordering.{Ordering};
ghost use Rattle.ron_base.specs.declared.error.Error.{Error};
ghost use Rattle.ron_base.specs.declared.error.Error.TheVariants.{OutOfMemory};
ghost use Rattle.ron_spec_grammar.specs.Data as plain;
ghost use Rattle.ron_data_schema.specs.Table.{Table, table_of};
ghost use Rattle.ron_data.specs.declared.data.Data.{Data};
ghost use Rattle.ron_data.specs.Datum.{data_view};
ghost use Rattle.ron_types.specs.OfTables.{IsOfOrdered};

use ron_base::error::Result;
use ron_data::data::Data;
use ron_data_schema::schema::Schema;
use std::alloc::Global;

/// A type with a schema.
pub trait Schematic {
    /// The type's one schema.
    ghost schema_is: { Table };

    /// What a value stands for.
    ghost data: { Self → plain.Data };

    /// What is kept of data that a value is made of.
    ghost normal: { plain.Data → plain.Data };

    /// Of which data a value is made.
    ghost accepts: { Data → Type 0 };

    /// The type's schema. Refused by `OutOfMemory` alone.
    fn schema(alloc: Global) -> Result<Schema>
        ensures { MatchResult result (λ s. table_of s ≡ schema_is) (λ e. e ≡ OutOfMemory) };
}

/// A type whose values become data of its schema.
pub trait Serialize: Schematic {
    /// The value as data, which borrows from it where it can. Refused by `OutOfMemory` alone.
    fn to_data(&self, alloc: Global) -> Result<Data<'_>>
        ensures value { MatchResult result (λ d. data_view d ≡ Self.data self.now) (λ e. e ≡ OutOfMemory) }
        ensures accepted { IfOk result (λ d. Self.accepts d) }
        ensures kept { OnOk result (Self.normal (Self.data self.now) ≡ Self.data self.now) }
        ensures of_schema { OnOk result (IsOfOrdered Self.schema_is (Self.data self.now)) };
}

/// A type whose values are made of data that lives for `'de`.
pub trait Deserialize<'de>: Schematic + Sized + Drop {
    /// By which errors the type may refuse data: by any, where an `impl` doesn't say.
    ghost refuses: { Data → Error → Type 0 } = { λ _ _. ⊤ };

    /// The value of this data. Data that the type accepts is refused by `OutOfMemory` alone, and no other data is
    /// accepted.
    fn from_data(alloc: Global, from: Data<'de>) -> Result<Self>
        ensures value { IfOk result (λ x. Self.data x ≡ Self.normal (data_view from.entry)) }
        ensures accepted { MatchResult result (λ _. Self.accepts from.entry) (λ e. Self.accepts from.entry → e ≡ OutOfMemory) }
        ensures refused { IfErr result (refuses from.entry) };
}

/// A type whose order follows from its data, as that of the keys of a map has to.
pub trait MapKey: Schematic + Ord {
    /// The order by data.
    ghost key_cmp: { plain.Data → plain.Data → Ordering };

    /// Values compare as what they stand for.
    ghost alike: { (x y : Self) → Self.cmp x y ≡ key_cmp (Self.data x) (Self.data y) };
}
