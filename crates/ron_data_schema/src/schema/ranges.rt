//! Range structs in a table.
ghost use Rattle.std.specs.Prelude.{◌≡◌, not, chars};
ghost use Rattle.std.specs.List.{list_all, list_any};
ghost use Rattle.ron_spec_words.specs.Runs.{same_text};
ghost use Rattle.ron_spec_grammar.specs.Schema.{has_whole_range, range_names};
ghost use Rattle.ron_data_schema.specs.Shapes.{shape_view};

use super::{FieldShape, Shape};
use ron_lex_text::text::is_same;

/// Whether no field of a range struct may be missing.
pub(super) fn are_whole(shapes: &[Shape]) -> bool
    ensures { result ≡ list_all (λ s. has_whole_range (shape_view s)) shapes.now }
{
    shapes.iter().all(|shape| is_whole(shape))
}

fn is_whole(shape: &Shape) -> bool
    ensures { result ≡ has_whole_range (shape_view shape.now) }
{
    match shape {
        Shape::Struct(name, list) => {
            !names_range(name.as_str()) | are_needed(list.fields.as_slice())
        }
        _ => true,
    }
}

/// Whether none of the fields may be missing.
fn are_needed(fields: &[FieldShape]) -> bool
    ensures { result ≡ list_all (λ f. not f.may_be_missing) fields.now }
{
    fields.iter().all(|field| !field.may_be_missing)
}

/// Whether a struct of this name with fields is a range.
#[tactic(auto, unfolding(ron_lex_text::proofs::StretchLemmas::literals))]
fn names_range(name: &str) -> bool
    ensures { result ≡ list_any (same_text (chars name.now)) range_names }
{
    is_same(name, "Range")
        || (is_same(name, "RangeInclusive")
            || (is_same(name, "RangeFrom")
                || (is_same(name, "RangeTo") || is_same(name, "RangeToInclusive"))))
}
