//! Whether the indices of a table lie in it.
ghost use Rattle.std.specs.Prelude.{◌≡◌, nat_lt};
ghost use Rattle.std.specs.List.{list_all};
ghost use Rattle.ron_spec_grammar.specs.Schema.{is_in_range, holds_below, variant_below};
ghost use Rattle.ron_data_schema.specs.Shapes.{table_view, shape_view, content_view};

use super::{FieldShape, Shape, VariantShape};

/// Whether the root and each index that the shapes hold lie in the table.
pub(super) fn is_in_range(shapes: &[Shape], root: usize) -> bool
    ensures { result ≡ is_in_range (table_view shapes.now) root }
{
    (root < shapes.len()) & all_hold_below(shapes, shapes.len())
}

fn all_hold_below(shapes: &[Shape], len: usize) -> bool
    ensures { result ≡ list_all (λ s. holds_below len (shape_view s)) shapes.now }
{
    shapes.iter().all(|shape| holds_below(shape, len))
}

/// Whether each index that the shape holds is below `len`.
fn holds_below(shape: &Shape, len: usize) -> bool
    ensures { result ≡ holds_below len (shape_view shape.now) }
{
    match shape {
        Shape::Option(index) | Shape::Seq(index) | Shape::Newtype(_, index) => *index < len,
        Shape::Map(key, value) => (*key < len) & (*value < len),
        Shape::Tuple(indices) | Shape::TupleStruct(_, indices) => all_below(
            indices.as_slice(),
            len,
        ),
        Shape::Struct(_, list) => are_below(list.fields.as_slice(), len),
        Shape::Enum(_, variants) => variants_below(variants.as_slice(), len),
        _ => true,
    }
}

fn variants_below(variants: &[(String, VariantShape)], len: usize) -> bool
    ensures { result ≡ list_all (λ v. variant_below len (content_view v.1)) variants.now }
{
    variants
        .iter()
        .all(|variant| variant_below(&variant.1, len))
}

/// Whether each index that the variant holds is below `len`.
fn variant_below(content: &VariantShape, len: usize) -> bool
    ensures { result ≡ variant_below len (content_view content.now) }
{
    match content {
        VariantShape::Unit => true,
        VariantShape::Newtype(index) => *index < len,
        VariantShape::Tuple(indices) => all_below(indices.as_slice(), len),
        VariantShape::Struct(list) => are_below(list.fields.as_slice(), len),
    }
}

/// Whether each of the indices is below `len`.
fn all_below(indices: &[usize], len: usize) -> bool
    ensures { result ≡ list_all (λ j. nat_lt j len) indices.now }
{
    indices.iter().all(|index| *index < len)
}

fn are_below(fields: &[FieldShape], len: usize) -> bool
    ensures { result ≡ list_all (λ f. nat_lt f.shape len) fields.now }
{
    fields.iter().all(|field| field.shape < len)
}
