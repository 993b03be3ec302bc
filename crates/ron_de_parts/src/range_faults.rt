//! What is reported of a range that its struct does not take: the first fault, at its place.
ghost use Rattle.std.specs.Prelude.{◌≡◌, IfErr};
ghost use Rattle.ron_lex.specs.Turns.{Moves, Scans};
ghost use Rattle.ron_de_parts.specs.Errors.{IsMemoryOrText};

use crate::context::Context;
use crate::leaves::take_unit_name;
use crate::names::read_name;
use crate::ranges::{is_end, is_start, reaches, spans, starts};
use ron_base::error::{Error, Result};
use ron_data::kinds::{kind_of, number_found};
use ron_data_schema::schema::{FieldList, FieldShape, Shape};
use ron_de_steps::faults::number_error;
use ron_lex::cursor::Cursor;
use ron_lex_text::text::is_same;
use ron_value_number::written::written_number;
use ron_value_number::{Number, number_in};
use std::alloc::Global;

/// Which range a struct is: the shapes of the fields that it has, and whether its operator is `..=`.
#[derive(Drop)]
struct RangeForm {
    start: Option<usize>,
    is_closed: bool,
    end: Option<usize>,
}

/// Refuses what begins as a number or a range where a struct of this name with these fields is wanted, and no such range
/// stands. Ok where a number stands behind a range that has no end.
pub(crate) fn refuse_range(
    context: &Context<'_, '_>,
    cursor: &mut Cursor<'_>,
    name: &str,
    list: &FieldList,
) -> Result<()>
    ensures text { cursor.new.text ≡ cursor.old.text }
    ensures fault { IfErr result IsMemoryOrText }
    ensures turns { Scans 2 cursor.old cursor.new }
{
    let Some(form) = form_of(name, list.fields.as_slice()) else {
        return read_name(context, cursor, name);
    };
    if form.start.is_none() && !cursor.opens_points() {
        return read_name(context, cursor, name);
    }
    let start = read_bound(cursor, form.start.is_some())?;
    pass_operator(context.alloc(), cursor, name, form.is_closed)?;
    let end = read_bound(cursor, form.end.is_some())?;
    check_fit(context, form.start, start)?;
    check_fit(context, form.end, end)
}

/// Likewise where a unit struct is wanted.
pub(crate) fn refuse_full_range(
    context: &Context<'_, '_>,
    cursor: &mut Cursor<'_>,
    name: &str,
) -> Result<()>
    ensures text { cursor.new.text ≡ cursor.old.text }
    ensures fault { IfErr result IsMemoryOrText }
    ensures turns { Scans 1 cursor.old cursor.new }
{
    if is_same(name, "RangeFull") && cursor.take_text("..") {
        return Ok(());
    }
    take_unit_name(context, cursor, name)
}

/// The range that a struct of this name with these fields is, if it is one.
fn form_of(name: &str, fields: &[FieldShape]) -> Option<RangeForm> {
    let is_closed = spans(true, name) || reaches(true, name);
    match fields {
        [first, last] => {
            let is_range = spans(is_closed, name) && is_start(first) && is_end(is_closed, last);
            is_range.then_some(RangeForm {
                start: Some(first.shape),
                is_closed,
                end: Some(last.shape),
            })
        }
        [field] => {
            let has_start = starts(is_closed, name) && is_start(field);
            let has_end = reaches(is_closed, name) && is_end(is_closed, field);
            (has_start || has_end).then_some(RangeForm {
                start: has_start.then_some(field.shape),
                is_closed,
                end: has_end.then_some(field.shape),
            })
        }
        _ => None,
    }
}

/// Reads a number, where one is wanted.
fn read_bound(cursor: &mut Cursor<'_>, is_wanted: bool) -> Result<Option<Number>>
    ensures text { cursor.new.text ≡ cursor.old.text }
    ensures fault { IfErr result IsMemoryOrText }
    ensures turns { Moves 2 cursor.old result cursor.new }
{
    if !is_wanted {
        return Ok(None);
    }
    let numeral = match cursor.untyped_integer() {
        Ok(numeral) => numeral,
        Err(fault) => return Err(number_error(fault)),
    };
    match written_number(numeral.suffix, numeral.is_negative, numeral.magnitude) {
        Some(number) => Ok(Some(number)),
        None => Err(Error::IntegerOutOfBounds),
    }
}

/// Goes past the operator of a range, which is to be the one of this struct.
fn pass_operator(alloc: Global, cursor: &mut Cursor<'_>, name: &str, is_closed: bool) -> Result<()>
    ensures text { cursor.new.text ≡ cursor.old.text }
    ensures fault { IfErr result IsMemoryOrText }
    ensures turns { Moves 2 cursor.old result cursor.new }
{
    let found_closed = cursor.take_text("..=");
    if !found_closed && !cursor.take_text("..") {
        return Err(Error::ExpectedRangeSyntax);
    }
    if found_closed == is_closed {
        return Ok(());
    }
    let (expected, found) = if is_closed {
        ("..=", "..")
    } else {
        ("..", "..=")
    };
    Err(Error::Message(format!(in alloc; "expected `{expected}` for `{name}`, found `{found}`")?))
}

/// Refuses a number that does not fit the shape at an index.
fn check_fit(context: &Context<'_, '_>, index: Option<usize>, number: Option<Number>) -> Result<()>
    ensures { IfErr result IsMemoryOrText }
{
    let (Some(index), Some(number)) = (index, number) else {
        return Ok(());
    };
    let (is_negative, magnitude) = number.sign_and_magnitude();
    let shape = context.shape(index);
    let expected = match shape {
        Some(Shape::Value) => return Ok(()),
        Some(Shape::Int(width)) => {
            if number_in(*width, is_negative, magnitude).is_some() {
                return Ok(());
            }
            width.name()
        }
        _ => kind_of(shape),
    };
    let alloc = context.alloc();
    Err(Error::InvalidValueForType {
        expected: String::from_str(alloc, expected)?,
        found: number_found(alloc, number)?,
    })
}
