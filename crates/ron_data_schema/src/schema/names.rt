//! Whether the names in a table are distinct. Those of a list are put into a set, one after another.
ghost use Rattle.std.specs.Prelude.{◌≡◌, map, MatchResult};
ghost use Rattle.std.specs.List.{list_all};
ghost use Rattle.ron_spec_grammar.specs.Schema.{has_distinct_names, variant_has_distinct_names};
ghost use Rattle.ron_spec_grammar.specs.Schema.{names_differ, variants_differ};
ghost use Rattle.ron_base.specs.declared.error.Error.TheVariants.{OutOfMemory};
ghost use Rattle.ron_data_schema.specs.Shapes.{shape_view, field_view, variant_view, content_view};
ghost use Rattle.ron_data_schema.specs.Names.{AddsNames};

use super::{FieldShape, Shape, VariantShape};
use ron_base::error::Result;
use std::alloc::Global;
use std::collections::BTreeSet;

/// Whether the names among each list of fields and of variants are distinct. Refused by `OutOfMemory` alone.
pub(super) fn are_distinct(alloc: Global, shapes: &[Shape]) -> Result<bool>
    ensures { MatchResult result (λ b. b ≡ list_all (λ s. has_distinct_names (shape_view s)) shapes.now)
        (λ e. e ≡ OutOfMemory) }
{
    let mut rest = shapes;
    while let Some((shape, others)) = rest.split_first() {
        if !has_distinct_names(alloc, shape)? {
            return Ok(false);
        }
        rest = others;
    }
    Ok(true)
}

fn has_distinct_names(alloc: Global, shape: &Shape) -> Result<bool>
    ensures { MatchResult result (λ b. b ≡ has_distinct_names (shape_view shape.now)) (λ e. e ≡ OutOfMemory) }
{
    match shape {
        Shape::Struct(_, list) => is_distinct(alloc, list.fields.as_slice()),
        Shape::Enum(_, variants) => {
            let variants = variants.as_slice();
            if !are_variants_distinct(alloc, variants)? {
                return Ok(false);
            }
            have_distinct_fields(alloc, variants)
        }
        _ => Ok(true),
    }
}

/// Whether no name and no alias stands twice.
fn is_distinct(alloc: Global, fields: &[FieldShape]) -> Result<bool>
    ensures { MatchResult result (λ b. b ≡ names_differ (map field_view fields.now)) (λ e. e ≡ OutOfMemory) }
{
    let mut seen = BTreeSet::new(alloc);
    let mut rest = fields;
    while let Some((field, others)) = rest.split_first() {
        if !adds_field(&mut seen, field)? {
            return Ok(false);
        }
        rest = others;
    }
    Ok(true)
}

/// Adds a field's names to those that were seen. Answers whether each is new there.
fn adds_field<'a>(seen: &mut BTreeSet<&'a str>, field: &'a FieldShape) -> Result<bool>
    ensures { MatchResult result (λ b. AddsNames seen.old seen.new field.now b) (λ e. e ≡ OutOfMemory) }
{
    if !seen.insert(field.name.as_str())? {
        return Ok(false);
    }
    let mut aliases = field.aliases.as_slice();
    while let Some((alias, others)) = aliases.split_first() {
        if !seen.insert(alias.as_str())? {
            return Ok(false);
        }
        aliases = others;
    }
    Ok(true)
}

/// Whether no two variants have one name.
fn are_variants_distinct(alloc: Global, variants: &[(String, VariantShape)]) -> Result<bool>
    ensures { MatchResult result (λ b. b ≡ variants_differ (map variant_view variants.now)) (λ e. e ≡ OutOfMemory) }
{
    let mut seen = BTreeSet::new(alloc);
    let mut rest = variants;
    while let Some((variant, others)) = rest.split_first() {
        if !seen.insert(variant.0.as_str())? {
            return Ok(false);
        }
        rest = others;
    }
    Ok(true)
}

/// Whether the names among each variant's fields are distinct.
fn have_distinct_fields(alloc: Global, variants: &[(String, VariantShape)]) -> Result<bool>
    ensures { MatchResult result (λ b. b ≡ list_all (λ v. variant_has_distinct_names (content_view v.1)) variants.now)
        (λ e. e ≡ OutOfMemory) }
{
    let mut rest = variants;
    while let Some((variant, others)) = rest.split_first() {
        if !has_distinct_fields(alloc, &variant.1)? {
            return Ok(false);
        }
        rest = others;
    }
    Ok(true)
}

fn has_distinct_fields(alloc: Global, content: &VariantShape) -> Result<bool>
    ensures { MatchResult result (λ b. b ≡ variant_has_distinct_names (content_view content.now))
        (λ e. e ≡ OutOfMemory) }
{
    match content {
        VariantShape::Struct(list) => is_distinct(alloc, list.fields.as_slice()),
        _ => Ok(true),
    }
}
