//! Reading ranges, as structs.
ghost use Rattle.std.specs.Prelude.{◌≡◌, ◌∷◌, [], if◌then◌else◌, Some, None, map, length, slice_get, option_map};
ghost use Rattle.std.specs.Prelude.{chars, IfOk, IfSome, MatchOption, MatchResult};
ghost use Rattle.ron_spec_words.specs.Characters.{Text};
ghost use Rattle.ron_spec_words.specs.Range.{range, number_or_range};
ghost use Rattle.ron_spec_words.specs.Reader.{meant};
ghost use Rattle.ron_spec_grammar.specs.Data.{unit_struct_of};
ghost use Rattle.ron_spec_grammar.specs.Shapes.Range.{fill, fill_field, filled_one, spans, starts, reaches, is_start, is_end, range_fields, range_data, full_data};
ghost use Rattle.ron_base.specs.declared.error.Error.TheVariants.{OutOfMemory};
ghost use Rattle.ron_lex.specs.Numeral.{numeral_view};
ghost use Rattle.ron_lex.specs.Range.{interval_view};
ghost use Rattle.ron_data_schema.specs.Shapes.{field_view, list_view};
ghost use Rattle.ron_data.specs.Datum.{data_view, fields_view};
ghost use Rattle.ron_de_steps.specs.Advance.{Advances};
ghost use Rattle.ron_de_steps.specs.Reads.{Reads};
ghost use Rattle.ron_de_parts.specs.Slices.{IsSliced, StringsAreSliced, FieldsAreSliced};
ghost use Rattle.ron_de_parts.specs.Turns.{SettlesLeaf};
ghost use Rattle.ron_de_parts.specs.Values.{filling};

use crate::context::Context;
use crate::range_faults::{refuse_full_range, refuse_range};
use ron_base::error::{Error, Result};
use ron_data::any_value::AnyValue;
use ron_data::data::Data;
use ron_data_schema::schema::{FieldList, FieldShape, Shape};
use ron_lex::cursor::Cursor;
use ron_lex::interval::Interval;
use ron_lex::numeral::Numeral;
use ron_lex_text::text::is_same;
use ron_value::value::Value;
use ron_value_number::written::written_number;
use ron_value_number::{Number, number_in};

/// Reads a range as a struct of this name with these fields. A range takes no level.
pub fn read_range<'o>(
    context: &Context<'_, 'o>,
    cursor: &mut Cursor<'_>,
    name: &str,
    list: &FieldList,
) -> Result<Data<'o>>
    ensures value { Reads data_view result
        (meant (number_or_range cursor.old.rest)
        (range_data context.now.schema (chars name.now) (list_view list.now).fields))
        cursor.new.rest }
    ensures slice { IfOk result (IsSliced cursor.old.rest cursor.new.rest) }
    ensures advance { Advances (StringsAreSliced cursor.old.rest cursor.old.text) cursor.old result cursor.new }
    ensures turns { SettlesLeaf cursor.old result cursor.new }
{
    let start = cursor.mark();
    if let Ok(interval) = cursor.number_or_range() {
        let fields = list.fields.as_slice();
        if let Some(fields) = range_fields(context, name, fields, interval)? {
            return Ok(Data::Struct(String::from_str(context.alloc(), name)?, fields));
        }
    }
    cursor.return_to(&start);
    refuse_range(context, cursor, name, list)?;
    Err(Error::ExpectedRangeSyntax)
}

/// Reads `..` as a unit struct of this name.
pub fn read_full_range<'o>(
    context: &Context<'_, 'o>,
    cursor: &mut Cursor<'_>,
    name: &str,
) -> Result<Data<'o>>
    ensures value { Reads data_view result
        (meant (number_or_range cursor.old.rest) (full_data (chars name.now))) cursor.new.rest }
    ensures slice { IfOk result (IsSliced cursor.old.rest cursor.new.rest) }
    ensures advance { Advances (StringsAreSliced cursor.old.rest cursor.old.text) cursor.old result cursor.new }
    ensures turns { SettlesLeaf cursor.old result cursor.new }
{
    let start = cursor.mark();
    if let Ok(interval) = cursor.number_or_range() {
        if is_full(name, interval) {
            return Ok(Data::UnitStruct(String::from_str(context.alloc(), name)?));
        }
    }
    cursor.return_to(&start);
    refuse_full_range(context, cursor, name)?;
    Err(Error::ExpectedRangeSyntax)
}

/// The fields of a range struct of this name with the numbers of a range. None where it is no such struct, or where a
/// number does not fit.
fn range_fields<'o>(
    context: &Context<'_, 'o>,
    name: &str,
    fields: &[FieldShape],
    interval: Interval<'_>,
) -> Result<Option<Vec<(String, Data<'o>)>>>
    ensures value { MatchResult result
        (λ found. option_map (λ all. fields_view all.items) found
        ≡ range_fields context.now.schema (chars name.now) (map field_view fields.now) (interval_view interval.entry))
        (λ e. e ≡ OutOfMemory) }
    ensures slices { (from text : Text) → IfOk result (λ found. IfSome found (FieldsAreSliced from text)) }
{
    match interval {
        Interval::One(_) => Ok(None),
        Interval::Range {
            start,
            is_closed,
            end,
        } => match (start, end) {
            (None, None) => Ok(None),
            (Some(start), None) => from_start(context, name, fields, is_closed, start),
            (None, Some(end)) => to_end(context, name, fields, is_closed, end),
            (Some(start), Some(end)) => from_to(context, name, fields, is_closed, (start, end)),
        },
    }
}

/// The field of a range that has a start alone.
fn from_start<'o>(
    context: &Context<'_, 'o>,
    name: &str,
    fields: &[FieldShape],
    is_closed: bool,
    start: Numeral<'_>,
) -> Result<Option<Vec<(String, Data<'o>)>>>
    ensures value { MatchResult result
        (λ found. option_map (λ all. fields_view all.items) found
        ≡ range_fields context.now.schema (chars name.now) (map field_view fields.now)
        (range (Some (numeral_view start.entry)) is_closed None))
        (λ e. e ≡ OutOfMemory) }
    ensures slices { (from text : Text) → IfOk result (λ found. IfSome found (FieldsAreSliced from text)) }
{
    let Some(field) = only(fields) else {
        return Ok(None);
    };
    if starts(is_closed, name) && is_start(field) {
        one_bound(context, field, start)
    } else {
        Ok(None)
    }
}

/// The field of a range that has an end alone.
fn to_end<'o>(
    context: &Context<'_, 'o>,
    name: &str,
    fields: &[FieldShape],
    is_closed: bool,
    end: Numeral<'_>,
) -> Result<Option<Vec<(String, Data<'o>)>>>
    ensures value { MatchResult result
        (λ found. option_map (λ all. fields_view all.items) found
        ≡ range_fields context.now.schema (chars name.now) (map field_view fields.now)
        (range None is_closed (Some (numeral_view end.entry))))
        (λ e. e ≡ OutOfMemory) }
    ensures slices { (from text : Text) → IfOk result (λ found. IfSome found (FieldsAreSliced from text)) }
{
    let Some(field) = only(fields) else {
        return Ok(None);
    };
    if reaches(is_closed, name) && is_end(is_closed, field) {
        one_bound(context, field, end)
    } else {
        Ok(None)
    }
}

/// The fields of a range that has both.
fn from_to<'o>(
    context: &Context<'_, 'o>,
    name: &str,
    fields: &[FieldShape],
    is_closed: bool,
    ends: (Numeral<'_>, Numeral<'_>),
) -> Result<Option<Vec<(String, Data<'o>)>>>
    ensures value { MatchResult result
        (λ found. option_map (λ all. fields_view all.items) found
        ≡ range_fields context.now.schema (chars name.now) (map field_view fields.now)
        (range (Some (numeral_view ends.entry.0)) is_closed (Some (numeral_view ends.entry.1))))
        (λ e. e ≡ OutOfMemory) }
    ensures slices { (from text : Text) → IfOk result (λ found. IfSome found (FieldsAreSliced from text)) }
{
    let Some((first, last)) = both(fields) else {
        return Ok(None);
    };
    if !(spans(is_closed, name) && (is_start(first) && is_end(is_closed, last))) {
        return Ok(None);
    }
    let Some(start) = fill(context, first.shape, ends.0) else {
        return Ok(None);
    };
    let Some(end) = fill(context, last.shape, ends.1) else {
        return Ok(None);
    };
    let alloc = context.alloc();
    let first_name = String::from_str(alloc, first.name.as_str())?;
    let last_name = String::from_str(alloc, last.name.as_str())?;
    Ok(Some(vec![in alloc;
        (first_name, number_data(context, first.shape, start)),
        (last_name, number_data(context, last.shape, end)),
    ]?))
}

/// A field with a number, where that fits.
fn one_bound<'o>(
    context: &Context<'_, 'o>,
    field: &FieldShape,
    number: Numeral<'_>,
) -> Result<Option<Vec<(String, Data<'o>)>>>
    ensures value { MatchResult result
        (λ found. option_map (λ all. fields_view all.items) found
        ≡ filled_one (field_view field.now)
        (fill_field context.now.schema (field_view field.now) (numeral_view number.entry)))
        (λ e. e ≡ OutOfMemory) }
    ensures slices { (from text : Text) → IfOk result (λ found. IfSome found (FieldsAreSliced from text)) }
{
    let Some(bound) = fill(context, field.shape, number) else {
        return Ok(None);
    };
    let alloc = context.alloc();
    let name = String::from_str(alloc, field.name.as_str())?;
    Ok(Some(vec![in alloc; (name, number_data(context, field.shape, bound))]?))
}

/// The number that fills the shape at an index, whatever its own width is.
fn fill(context: &Context<'_, '_>, index: usize, number: Numeral<'_>) -> Option<Number>
    ensures { option_map (filling (slice_get context.now.schema index)) result
        ≡ fill (slice_get context.now.schema index) (numeral_view number.entry) }
{
    let own = written_number(number.suffix, number.is_negative, number.magnitude)?;
    match context.shape(index) {
        Some(Shape::Int(width)) => number_in(*width, number.is_negative, number.magnitude),
        Some(Shape::Value) => Some(own),
        _ => None,
    }
}

/// The data of a number that fills the shape at an index.
fn number_data<'o>(context: &Context<'_, 'o>, index: usize, number: Number) -> Data<'o>
    ensures value { data_view result ≡ filling (slice_get context.now.schema index) number }
    ensures slices { (from text : Text) → StringsAreSliced from text result }
{
    match context.shape(index) {
        Some(Shape::Value) => Data::Value(AnyValue::Owned(Value::Number(number))),
        _ => Data::Int(number),
    }
}

// ---- which struct is which range

fn only(fields: &[FieldShape]) -> Option<&FieldShape>
    ensures { MatchOption result (length fields.now ≡ 1 → ⊥) (λ f. fields.now ≡ f.now ∷ []) }
{
    let Some((field, rest)) = fields.split_first() else {
        return None;
    };
    if rest.is_empty() { Some(field) } else { None }
}

fn both(fields: &[FieldShape]) -> Option<(&FieldShape, &FieldShape)>
    ensures { MatchOption result (length fields.now ≡ 2 → ⊥) (λ p. fields.now ≡ p.0.now ∷ p.1.now ∷ []) }
{
    let Some((first, rest)) = fields.split_first() else {
        return None;
    };
    match only(rest) {
        Some(last) => Some((first, last)),
        None => None,
    }
}

#[tactic(auto, unfolding(ron_lex_text::proofs::StretchLemmas::literals))]
pub(crate) fn spans(is_closed: bool, name: &str) -> bool
    ensures { result ≡ spans is_closed (chars name.now) }
{
    if is_closed {
        is_same(name, "RangeInclusive")
    } else {
        is_same(name, "Range")
    }
}

#[tactic(auto, unfolding(ron_lex_text::proofs::StretchLemmas::literals))]
pub(crate) fn reaches(is_closed: bool, name: &str) -> bool
    ensures { result ≡ reaches is_closed (chars name.now) }
{
    if is_closed {
        is_same(name, "RangeToInclusive")
    } else {
        is_same(name, "RangeTo")
    }
}

#[tactic(auto, unfolding(ron_lex_text::proofs::StretchLemmas::literals))]
pub(crate) fn starts(is_closed: bool, name: &str) -> bool
    ensures { result ≡ starts is_closed (chars name.now) }
{
    !is_closed && is_same(name, "RangeFrom")
}

#[tactic(auto, unfolding(ron_lex_text::proofs::StretchLemmas::literals))]
pub(crate) fn is_start(field: &FieldShape) -> bool
    ensures { result ≡ is_start (field_view field.now) }
{
    is_same(field.name.as_str(), "start")
}

#[tactic(auto, unfolding(ron_lex_text::proofs::StretchLemmas::literals))]
pub(crate) fn is_end(is_closed: bool, field: &FieldShape) -> bool
    ensures { result ≡ is_end is_closed (field_view field.now) }
{
    let name = field.name.as_str();
    is_same(name, "end") || (is_closed && is_same(name, "last"))
}

/// Whether a range is that of all, and its struct is of this name.
#[tactic(auto, unfolding(ron_lex_text::proofs::StretchLemmas::literals))]
fn is_full(name: &str, interval: Interval<'_>) -> bool
    ensures { full_data (chars name.now) (interval_view interval.entry)
        ≡ (if result then Some (unit_struct_of (chars name.now)) else None) }
{
    match interval {
        Interval::One(_) => false,
        Interval::Range { start, end, .. } => {
            start.is_none() && end.is_none() && is_same(name, "RangeFull")
        }
    }
}
