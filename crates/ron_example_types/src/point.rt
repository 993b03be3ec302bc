//! A point, from a text and back.
ghost use Rattle.std.specs.Prelude.{◌≡◌, chars, string_bytes, MatchResult};
ghost use Rattle.ron.specs.Config.{no_config};
ghost use Rattle.ron.specs.Datum.{data_view};
ghost use Rattle.ron.specs.Table.{table_of};
ghost use Rattle.ron.specs.WritingRefusals.{RefusesText};
ghost use Rattle.ron_example_types.specs.Point.{point_table, coordinates_in, integer_in, TellsData, TellsPoint, RefusesPoint};

use ron::error::{Error, Result};
use ron::options::Options;
use ron::schema::{Data, FieldList, Schema, Shape, Width};
use ron::types::field_shape;
use ron::value::Number;
use std::alloc::Global;

/// What the text says of a point: how far right and up it lies, and its compact text; or why it is refused, and where.
pub fn tell_point(alloc: Global, text: &str) -> Result<String>
    ensures { MatchResult result (λ t. TellsPoint (chars text.now) (string_bytes t)) (RefusesPoint (chars text.now)) }
{
    let schema = point_schema(alloc)?;
    let options = Options::default();
    let data = match options.from_str_seed(alloc, text, &schema) {
        Ok(data) => data,
        Err(refused) => return Ok(format!(in alloc; "refused at {refused}")?),
    };
    let told = tell_data(alloc, &options, &data);
    drop(data);
    told
}

/// How far right and up the data lies, and its compact text.
fn tell_data(alloc: Global, options: &Options, data: &Data) -> Result<String>
    ensures { MatchResult result
        (λ t. TellsData options.now.default_extensions (data_view «data».now) (string_bytes t))
        (RefusesText no_config options.now.recursion_limit (data_view «data».now)) }
{
    let written = options.to_string_data(alloc, data, None)?;
    match coordinates(data) {
        Some((x, y)) => Ok(format!(in alloc; "{x} right and {y} up: {written}")?),
        None => Ok(written),
    }
}

/// Point(x: i32, y: i32).
pub(crate) fn point_schema(alloc: Global) -> Result<Schema>
    ensures { MatchResult result (λ s. table_of s ≡ point_table) (λ e. e ≡ Error.OutOfMemory) }
{
    let fields = vec![in alloc; field_shape(alloc, "x", 1)?, field_shape(alloc, "y", 1)?]?;
    let list = FieldList {
        fields,
        skip_unknown: false,
    };
    let point = Shape::Struct(String::from_str(alloc, "Point")?, list);
    let shapes = vec![in alloc; point, Shape::Int(Width::I32)]?;
    Schema::new(shapes, 0)
}

/// The two integers of a struct of two.
fn coordinates(data: &Data<'_>) -> Option<(i32, i32)>
    ensures { result ≡ coordinates_in (data_view «data».now) }
{
    let Data::Struct(_, fields) = data else {
        return None;
    };
    let [x, y] = fields.as_slice() else {
        return None;
    };
    integer(&x.1).zip(integer(&y.1))
}

/// The integer of 32 bits that data is.
fn integer(data: &Data<'_>) -> Option<i32>
    ensures { result ≡ integer_in (data_view «data».now) }
{
    let Data::Int(number) = data else {
        return None;
    };
    match number {
        Number::I32(number) => Some(*number),
        _ => None,
    }
}
