//! Integers of ten widths.
ghost use Rattle.std.specs.Prelude.{◌≡◌, true, IfErr, MatchResult};
ghost use Rattle.ron_value_number.specs.declared.number.Number.{Number};
ghost use Rattle.ron_value_number.specs.Number.{number_width, number_value};
ghost use Rattle.ron_value_number.specs.Width.{fits};
ghost use Rattle.ron_data.specs.declared.data.Data.TheVariants as held;
ghost use Rattle.ron_types.specs.Faults.{IsRefusal};

use crate::refuse::another_kind;
use ron_base::error::Result;
use ron_data::data::Data;
use ron_value_number::Number;
use std::alloc::Global;

mod faithful;
mod signed;
mod unsigned;

/// A number as data: its value lies in its width.
fn of_number<'a>(number: Number) -> Data<'a>
    ensures value { result ≡ held.Int number }
    ensures in_width { fits (number_width number) (number_value number) ≡ true }
{
    Data::Int(number)
}

/// The number that data is. Only other data is refused, by `InvalidValueForType` or `OutOfMemory`.
fn number_in(alloc: Global, from: Data) -> Result<Number>
    ensures value { MatchResult result (λ n. from.entry ≡ held.Int n) (λ _. (n : Number) → from.entry ≡ held.Int n → ⊥) }
    ensures refused { IfErr result IsRefusal }
{
    match from {
        Data::Int(number) => Ok(number),
        other => Err(another_kind(alloc, "an integer", other)),
    }
}
