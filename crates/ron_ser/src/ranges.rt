//! Data that is written as a range.
ghost use Rattle.std.specs.Prelude.{◌≡◌, ◌∷◌, [], Bool, false, Some, length, option_map, chars, MatchOption};
ghost use Rattle.std.specs.Fmt.{WritesInCalls};
ghost use Rattle.ron_spec_grammar.specs.Data.{unit_struct_of, struct_of, value_of};
ghost use Rattle.ron_spec_grammar.specs.Shapes.Range.{spans, reaches};
ghost use Rattle.ron_spec_layout.specs.Ranges.{dots_text, bound_text, around_dots, range_text};
ghost use Rattle.ron_value.specs.View.{tree_of};
ghost use Rattle.ron_data.specs.Datum.{data_view, fields_view};
ghost use Rattle.ron_ser.specs.Range.{end_text, end_bytes, range_bytes, closed_by};

use crate::leaves::write_number;
use ron_base_device::output::Output;
use ron_data::data::Data;
use ron_lex_text::text::is_same;
use ron_value::value::Value;
use ron_value_number::Number;

/// A range as it is written: the numbers at its ends, of which one or both may be missing, and whether a `=` stands
/// behind its points.
#[derive(Clone, Copy)]
pub struct Range {
    pub start: Option<Number>,
    pub is_closed: bool,
    pub end: Option<Number>,
}

/// Writes a range, its numbers with their suffixes or without them.
pub fn write_range<O: Output>(out: &mut O, range: Range, suffixes: bool)
    ensures { WritesInCalls O.puts out.old (range_bytes suffixes range) out.new }
{
    write_end(out, range.start, suffixes);
    out.put(dots(range.is_closed));
    write_end(out, range.end, suffixes);
}

/// The points of a range, with a `=` behind them where it is closed.
fn dots(is_closed: bool) -> &'static str
    ensures { result.now ≡ dots_text is_closed }
{
    if is_closed { "..=" } else { ".." }
}

/// Writes an end of a range, where it has one.
fn write_end<O: Output>(out: &mut O, end: Option<Number>, suffixes: bool)
    ensures { WritesInCalls O.puts out.old (end_bytes suffixes end) out.new }
{
    if let Some(number) = end {
        write_number(out, number, suffixes);
    }
}

/// The range that a unit struct of this name is, if it is one.
#[tactic(auto, unfolding(ron_lex_text::proofs::StretchLemmas::literals))]
pub fn unit_struct_range(name: &str) -> Option<Range>
    ensures { (suffixes : Bool) → option_map (range_bytes suffixes) result
        ≡ range_text suffixes (unit_struct_of (chars name.now)) }
{
    if is_same(name, "RangeFull") {
        Some(Range {
            start: None,
            is_closed: false,
            end: None,
        })
    } else {
        None
    }
}

/// The range that a struct of this name with these fields is, if it is one: `start` and `end` in this order, or the one
/// that there is, which are numbers, with a name that goes with them.
pub fn struct_range(name: &str, fields: &[(String, Data)]) -> Option<Range>
    ensures { (suffixes : Bool) → option_map (range_bytes suffixes) result
        ≡ range_text suffixes (struct_of (chars name.now) (fields_view fields.now)) }
{
    let Some((first, rest)) = fields.split_first() else {
        return None;
    };
    if rest.is_empty() {
        return half_range(name, first);
    }
    match only(rest) {
        Some(last) => whole_range(name, first, last),
        None => None,
    }
}

/// The one field that there is.
fn only<'a, 'b>(fields: &'a [(String, Data<'b>)]) -> Option<&'a (String, Data<'b>)>
    ensures { MatchOption result (length fields.now ≡ 1 → ⊥) (λ f. fields.now ≡ f.now ∷ []) }
{
    let Some((field, rest)) = fields.split_first() else {
        return None;
    };
    if rest.is_empty() { Some(field) } else { None }
}

/// The range of a struct of one field.
#[tactic(auto, unfolding(ron_lex_text::proofs::StretchLemmas::literals))]
fn half_range(name: &str, field: &(String, Data)) -> Option<Range>
    ensures { (suffixes : Bool) → option_map (range_bytes suffixes) result
        ≡ range_text suffixes (struct_of (chars name.now) (fields_view (field.now ∷ []))) }
{
    let called = field.0.as_str();
    if is_same(called, "start") {
        return if is_same(name, "RangeFrom") {
            range_from(&field.1)
        } else {
            None
        };
    }
    if !is_same(called, "end") {
        return None;
    }
    match reaches(name) {
        Some(is_closed) => range_to(is_closed, &field.1),
        None => None,
    }
}

/// The range of a struct of two fields.
#[tactic(auto, unfolding(ron_lex_text::proofs::StretchLemmas::literals))]
fn whole_range(name: &str, first: &(String, Data), last: &(String, Data)) -> Option<Range>
    ensures { (suffixes : Bool) → option_map (range_bytes suffixes) result
        ≡ range_text suffixes (struct_of (chars name.now) (fields_view (first.now ∷ last.now ∷ []))) }
{
    if !(is_same(first.0.as_str(), "start") && is_same(last.0.as_str(), "end")) {
        return None;
    }
    match spans(name) {
        Some(is_closed) => range_between(&first.1, is_closed, &last.1),
        None => None,
    }
}

/// Whether a range struct of this name, with both ends, is closed, if it is the name of one.
#[tactic(auto, unfolding(ron_lex_text::proofs::StretchLemmas::literals))]
fn spans(name: &str) -> Option<bool>
    ensures { result ≡ closed_by spans (chars name.now) }
{
    if is_same(name, "Range") {
        Some(false)
    } else if is_same(name, "RangeInclusive") {
        Some(true)
    } else {
        None
    }
}

/// The same of one with an end alone.
#[tactic(auto, unfolding(ron_lex_text::proofs::StretchLemmas::literals))]
fn reaches(name: &str) -> Option<bool>
    ensures { result ≡ closed_by reaches (chars name.now) }
{
    if is_same(name, "RangeTo") {
        Some(false)
    } else if is_same(name, "RangeToInclusive") {
        Some(true)
    } else {
        None
    }
}

/// The range between two data, if both are numbers.
fn range_between(start: &Data, is_closed: bool, end: &Data) -> Option<Range>
    ensures { (suffixes : Bool) → option_map (range_bytes suffixes) result
        ≡ around_dots is_closed (bound_text suffixes (data_view start.now)) (bound_text suffixes (data_view end.now)) }
{
    let Some(start) = number_of(start) else {
        return None;
    };
    let Some(end) = number_of(end) else {
        return None;
    };
    Some(Range {
        start: Some(start),
        is_closed,
        end: Some(end),
    })
}

/// The range from data on, if it is a number.
fn range_from(start: &Data) -> Option<Range>
    ensures { (suffixes : Bool) → option_map (range_bytes suffixes) result
        ≡ around_dots false (bound_text suffixes (data_view start.now)) (Some []) }
{
    let Some(start) = number_of(start) else {
        return None;
    };
    Some(Range {
        start: Some(start),
        is_closed: false,
        end: None,
    })
}

/// The range up to data, if it is a number.
fn range_to(is_closed: bool, end: &Data) -> Option<Range>
    ensures { (suffixes : Bool) → option_map (range_bytes suffixes) result
        ≡ around_dots is_closed (Some []) (bound_text suffixes (data_view end.now)) }
{
    let Some(end) = number_of(end) else {
        return None;
    };
    Some(Range {
        start: None,
        is_closed,
        end: Some(end),
    })
}

/// The number that data is, if it is one.
fn number_of(value: &Data) -> Option<Number>
    ensures { (suffixes : Bool) → option_map (end_text suffixes) result ≡ bound_text suffixes (data_view value.now) }
{
    match value {
        Data::Int(number) => Some(*number),
        Data::Value(held) => number_held(held.as_value()),
        _ => None,
    }
}

/// The number that a value without a schema is, if it is one.
fn number_held(value: &Value) -> Option<Number>
    ensures { (suffixes : Bool) → option_map (end_text suffixes) result
        ≡ bound_text suffixes (value_of (tree_of value.now)) }
{
    match value {
        Value::Number(number) => Some(*number),
        _ => None,
    }
}
