//! Copies of shapes that stand elsewhere.
ghost use Rattle.std.specs.Prelude.{◌≡◌, ◌+◌, ◌++◌, ◌<◌, ◌≤◌, true, nat_lt, map, length, IsOk, MatchResult};
ghost use Rattle.std.specs.Prelude.{vec_len, vec_capacity};
ghost use Rattle.std.specs.List.{list_all};
ghost use Rattle.ron_spec_grammar.specs.Schema.{holds_below, variant_below};
ghost use Rattle.ron_data_schema.specs.Shapes.{table_view, shape_view, field_view, list_view, text_view, variant_view, content_view};
ghost use Rattle.ron_data_schema.specs.Shapes.{moved, moved_field, moved_list, moved_variant, moved_content, indices_from};
ghost use Rattle.ron_data_schema.specs.Shapes.{takes_no_memory};
ghost use Rattle.ron_base.specs.declared.error.Error.TheVariants.{OutOfMemory};

use super::{FieldList, FieldShape, Shape, VariantShape};
use ron_base::error::Result;

/// Puts copies of shapes behind those of a list, their indices moved by as many as stood there. Where memory is
/// refused the list is as it was.
pub(super) fn append_moved(shapes: &mut Vec<Shape>, others: &[Shape]) -> Result<()>
    requires { list_all (holds_below (indices_from (length shapes.old.items))) (table_view others.now) ≡ true }
    ensures value { MatchResult result
        (λ _. table_view shapes.new.items ≡ table_view shapes.old.items ++ map (moved (length shapes.old.items)) (table_view others.now))
        (λ e. (e ≡ OutOfMemory) × (shapes.new.items ≡ shapes.old.items)) }
    ensures in_place { vec_len shapes.old + length others.now ≤ vec_capacity shapes.old →
        list_all takes_no_memory (table_view others.now) ≡ true → IsOk result }
{
    let by = shapes.len();
    shapes.reserve(others.len())?;
    for shape in others {
        let copy = match moved_shape(shape, by) {
            Ok(copy) => copy,
            Err(error) => {
                shapes.truncate(by);
                return Err(error);
            }
        };
        shapes.push(copy)?;
    }
    Ok(())
}

fn moved_shape(shape: &Shape, by: usize) -> Result<Shape>
    requires { holds_below (indices_from by) (shape_view shape.now) ≡ true }
    ensures value { MatchResult result (λ s. shape_view s ≡ moved by (shape_view shape.now)) (λ e. e ≡ OutOfMemory) }
    ensures in_place { takes_no_memory (shape_view shape.now) ≡ true → IsOk result }
{
    match shape {
        Shape::Bool => Ok(Shape::Bool),
        Shape::Int(width) => Ok(Shape::Int(*width)),
        Shape::Char => Ok(Shape::Char),
        Shape::Str => Ok(Shape::Str),
        Shape::Bytes => Ok(Shape::Bytes),
        Shape::Unit => Ok(Shape::Unit),
        Shape::Option(content) => Ok(Shape::Option(by + *content)),
        Shape::Map(key, value) => Ok(Shape::Map(by + *key, by + *value)),
        Shape::UnitStruct(name) => Ok(Shape::UnitStruct(name.clone()?)),
        Shape::Seq(item) => Ok(Shape::Seq(by + *item)),
        Shape::Tuple(items) => Ok(Shape::Tuple(moved_indices(items, by)?)),
        Shape::TupleStruct(name, items) => Ok(Shape::TupleStruct(
            name.clone()?,
            moved_indices(items, by)?,
        )),
        Shape::Newtype(name, content) => Ok(Shape::Newtype(name.clone()?, by + *content)),
        Shape::Struct(name, list) => Ok(Shape::Struct(name.clone()?, moved_list(list, by)?)),
        Shape::Enum(name, variants) => Ok(Shape::Enum(
            name.clone()?,
            moved_variants(variants, by)?,
        )),
        Shape::Value => Ok(Shape::Value),
        Shape::Raw => Ok(Shape::Raw),
    }
}

fn moved_variants(
    variants: &Vec<(String, VariantShape)>,
    by: usize,
) -> Result<Vec<(String, VariantShape)>>
    requires { list_all (λ v. variant_below (indices_from by) (content_view v.1)) variants.now.items ≡ true }
    ensures { MatchResult result
        (λ copies. map variant_view copies.items ≡ map (moved_variant by) (map variant_view variants.now.items)) (λ e. e ≡ OutOfMemory) }
{
    let mut copies = Vec::with_capacity(*variants.allocator(), variants.len())?;
    for (name, content) in variants {
        copies.push((name.clone()?, moved_content(content, by)?))?;
    }
    Ok(copies)
}

fn moved_content(content: &VariantShape, by: usize) -> Result<VariantShape>
    requires { variant_below (indices_from by) (content_view content.now) ≡ true }
    ensures { MatchResult result (λ c. content_view c ≡ moved_content by (content_view content.now)) (λ e. e ≡ OutOfMemory) }
{
    match content {
        VariantShape::Unit => Ok(VariantShape::Unit),
        VariantShape::Newtype(index) => Ok(VariantShape::Newtype(by + *index)),
        VariantShape::Tuple(items) => Ok(VariantShape::Tuple(moved_indices(items, by)?)),
        VariantShape::Struct(list) => Ok(VariantShape::Struct(moved_list(list, by)?)),
    }
}

fn moved_indices(indices: &Vec<usize>, by: usize) -> Result<Vec<usize>>
    requires { list_all (λ j. nat_lt j (indices_from by)) indices.now.items ≡ true }
    ensures { MatchResult result (λ copies. copies.items ≡ map (λ j. by + j) indices.now.items) (λ e. e ≡ OutOfMemory) }
{
    let mut copies = Vec::with_capacity(*indices.allocator(), indices.len())?;
    for index in indices {
        copies.push(by + *index)?;
    }
    Ok(copies)
}

fn moved_list(list: &FieldList, by: usize) -> Result<FieldList>
    requires { list_all (λ f. nat_lt f.shape (indices_from by)) list.now.fields.items ≡ true }
    ensures { MatchResult result (λ copy. list_view copy ≡ moved_list by (list_view list.now)) (λ e. e ≡ OutOfMemory) }
{
    let mut fields = Vec::with_capacity(*list.fields.allocator(), list.fields.len())?;
    for field in &list.fields {
        fields.push(moved_field(field, by)?)?;
    }
    Ok(FieldList {
        fields,
        skip_unknown: list.skip_unknown,
    })
}

fn moved_field(field: &FieldShape, by: usize) -> Result<FieldShape>
    requires { field.now.shape < indices_from by }
    ensures { MatchResult result (λ f. field_view f ≡ moved_field by (field_view field.now)) (λ e. e ≡ OutOfMemory) }
{
    Ok(FieldShape {
        name: field.name.clone()?,
        aliases: copied(&field.aliases)?,
        shape: by + field.shape,
        may_be_missing: field.may_be_missing,
    })
}

fn copied(texts: &Vec<String>) -> Result<Vec<String>>
    ensures { MatchResult result (λ copies. map text_view copies.items ≡ map text_view texts.now.items) (λ e. e ≡ OutOfMemory) }
{
    let mut copies = Vec::with_capacity(*texts.allocator(), texts.len())?;
    for text in texts {
        copies.push(text.clone()?)?;
    }
    Ok(copies)
}
