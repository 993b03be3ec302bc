//! How conversion refuses.
ghost use Rattle.ron_data_convert.specs.Becomes.{Refuses};
ghost use Rattle.ron_data_convert.specs.Misfits.{kind_differs, length_differs};

use ron_base::error::{Error, Result};
use ron_data::kinds::{kind_of, number_found};
use ron_data_schema::schema::{Shape, Width};
use ron_value::value::Value;
use ron_value_number::Number;
use std::alloc::Global;

/// A value of another kind than the shape's.
pub(crate) fn another_kind<T>(alloc: Global, shape: Option<&Shape>, found: &str) -> Result<T>
    ensures { Refuses kind_differs result }
{
    Err(Error::InvalidValueForType {
        expected: String::from_str(alloc, kind_of(shape))?,
        found: String::from_str(alloc, found)?,
    })
}

/// A value where something else is wanted.
pub(crate) fn another_value<T>(alloc: Global, expected: &str, found: &Value) -> Result<T>
    ensures { Refuses kind_differs result }
{
    Err(Error::InvalidValueForType {
        expected: String::from_str(alloc, expected)?,
        found: String::from_str(alloc, kind_of_value(found))?,
    })
}

/// A number that the width does not hold.
pub(crate) fn out_of_range<T>(alloc: Global, width: Width, held: Number) -> Result<T>
    ensures { Refuses kind_differs result }
{
    Err(Error::InvalidValueForType {
        expected: String::from_str(alloc, width.name())?,
        found: number_found(alloc, held)?,
    })
}

/// Another number of items than the shape has.
pub(crate) fn another_length<T>(alloc: Global, expected: usize, found: usize) -> Result<T>
    ensures { Refuses length_differs result }
{
    Err(Error::ExpectedDifferentLength {
        expected: format!(in alloc; "a tuple of size {expected}")?,
        found,
    })
}

/// What messages call a value.
fn kind_of_value(value: &Value) -> &'static str {
    match value {
        Value::Bool(_) => "a boolean",
        Value::Char(_) => "a character",
        Value::Map(_) => "a map",
        Value::Number(_) => "an integer",
        Value::Option(_) => "an optional value",
        Value::String(_) => "a string",
        Value::Bytes(_) => "bytes",
        Value::Seq(_) => "a sequence",
        Value::Unit => "a unit value",
    }
}
