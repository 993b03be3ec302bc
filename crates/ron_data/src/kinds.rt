//! What messages call the values of a shape.
ghost use Rattle.std.specs.Prelude.{◌≡◌, IfErr};
ghost use Rattle.ron_base.specs.declared.error.Error.TheVariants.{OutOfMemory};

use ron_base::error::Result;
use ron_data_schema::schema::Shape;
use ron_value_number::Number;
use std::alloc::Global;

/// What messages call the values of a shape.
pub fn kind_of(shape: Option<&Shape>) -> &'static str {
    match shape {
        Some(Shape::Bool) => "a boolean",
        Some(Shape::Int(_)) => "an integer",
        Some(Shape::Char) => "a character",
        Some(Shape::Str) => "a string",
        Some(Shape::Bytes) => "bytes",
        Some(Shape::Unit) => "a unit value",
        Some(Shape::Option(_)) => "an optional value",
        Some(Shape::UnitStruct(_)) => "a unit struct",
        Some(Shape::Seq(_)) => "a sequence",
        Some(Shape::Tuple(_)) => "a tuple",
        Some(Shape::Map(_, _)) => "a map",
        Some(Shape::TupleStruct(_, _)) => "a tuple struct",
        Some(Shape::Newtype(_, _)) => "a newtype struct",
        Some(Shape::Struct(_, _)) => "a struct",
        Some(Shape::Enum(_, _)) => "an enum",
        Some(Shape::Value) => "any value",
        Some(Shape::Raw) => "a raw value",
        None => "nothing",
    }
}

/// What messages call a number. Refused by `OutOfMemory` alone.
pub fn number_found(alloc: Global, found: Number) -> Result<String>
    ensures { IfErr result (λ e. e ≡ OutOfMemory) }
{
    let (is_negative, magnitude) = found.sign_and_magnitude();
    let sign = if found.width().is_signed() {
        "signed"
    } else {
        "unsigned"
    };
    let minus = if is_negative { "-" } else { "" };
    Ok(format!(in alloc; "the {sign} integer `{minus}{magnitude}`")?)
}
