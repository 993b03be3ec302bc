//! The schema of a binary tree of structs.
ghost use Rattle.std.specs.Prelude.{◌≡◌, ◌+◌, chars, IfOk, map};
ghost use Rattle.ron.specs.Shapes.{shape_view, field_view, variant_view, content_view, table_view};
ghost use Rattle.ron.specs.Table.{shapes_of, root_of};
ghost use Rattle.ron.specs.Schema.{only, struct, enum};
ghost use Rattle.ron_bench.specs.declared.tree.Leaf.TheVariants.{Records, Entities};
ghost use Rattle.ron_bench.specs.Tree.{twofold, kind_shape, field_shapes, leaf_shape, tree_shapes};

use ron::error::Result;
use ron::schema::{FieldList, FieldShape, Schema, Shape, VariantShape, Width};
use ron::types::field_shape;
use std::alloc::Global;

/// What stands at the leaves of a tree.
#[derive(Clone, Copy)]
pub enum Leaf {
    /// Point(x: i32, y: i32).
    Points,
    /// Record(name: string, data: bytes, id: u64, size: u32).
    Records,
    /// Entity(name: string, tags: list of strings, level: option of u32, kind: Kind, stats: map from strings to i32).
    Entities,
}

/// 2^levels leaves below so many levels of Pair(a: .., b: ..).
pub fn tree_schema(alloc: Global, leaf: Leaf, levels: u8) -> Result<Schema>
    ensures shapes { IfOk result (λ s. shapes_of s ≡ tree_shapes leaf levels) }
    ensures root { IfOk result (λ s. root_of s ≡ levels + 10) }
{
    let mut shapes = field_shapes(alloc)?;
    shapes.push(leaf_shape(alloc, leaf)?)?;
    for level in 0..levels {
        let below = usize::from(level) + 10;
        shapes.push(twofold(alloc, "Pair", "a", "b", below)?)?;
    }
    Schema::new(shapes, usize::from(levels) + 10)
}

/// What the fields of leaves are, in the order that the indices below go by.
fn field_shapes(alloc: Global) -> Result<Vec<Shape>>
    ensures { IfOk result (λ v. table_view v.items ≡ field_shapes) }
{
    let mut shapes = Vec::new(alloc);
    shapes.push(Shape::Int(Width::I32))?;
    shapes.push(Shape::Str)?;
    shapes.push(Shape::Bytes)?;
    shapes.push(Shape::Int(Width::U64))?;
    shapes.push(Shape::Int(Width::U32))?;
    shapes.push(Shape::Bool)?;
    shapes.push(Shape::Seq(1))?;
    shapes.push(Shape::Option(4))?;
    shapes.push(Shape::Map(1, 0))?;
    shapes.push(kind_shape(alloc)?)?;
    Ok(shapes)
}

/// The shape of a leaf.
fn leaf_shape(alloc: Global, leaf: Leaf) -> Result<Shape>
    ensures { IfOk result (λ s. shape_view s ≡ leaf_shape leaf) }
{
    match leaf {
        Leaf::Points => twofold(alloc, "Point", "x", "y", 0),
        Leaf::Records => record_shape(alloc),
        Leaf::Entities => entity_shape(alloc),
    }
}

fn record_shape(alloc: Global) -> Result<Shape>
    ensures { IfOk result (λ s. shape_view s ≡ leaf_shape Records) }
{
    let mut fields = Vec::with_capacity(alloc, 4)?;
    fields.push(field_shape(alloc, "name", 1)?)?;
    fields.push(field_shape(alloc, "data", 2)?)?;
    fields.push(field_shape(alloc, "id", 3)?)?;
    fields.push(field_shape(alloc, "size", 4)?)?;
    structure(alloc, "Record", fields)
}

fn entity_shape(alloc: Global) -> Result<Shape>
    ensures { IfOk result (λ s. shape_view s ≡ leaf_shape Entities) }
{
    let mut fields = Vec::with_capacity(alloc, 5)?;
    fields.push(field_shape(alloc, "name", 1)?)?;
    fields.push(field_shape(alloc, "tags", 6)?)?;
    fields.push(field_shape(alloc, "level", 7)?)?;
    fields.push(field_shape(alloc, "kind", 9)?)?;
    fields.push(field_shape(alloc, "stats", 8)?)?;
    structure(alloc, "Entity", fields)
}

/// Kind: Player, Npc(u32) or Item(weight: u32, fragile: bool).
fn kind_shape(alloc: Global) -> Result<Shape>
    ensures { IfOk result (λ s. shape_view s ≡ kind_shape) }
{
    let mut fields = Vec::with_capacity(alloc, 2)?;
    fields.push(field_shape(alloc, "weight", 4)?)?;
    fields.push(field_shape(alloc, "fragile", 5)?)?;
    let mut variants = Vec::with_capacity(alloc, 3)?;
    variants.push(variant(alloc, "Player", VariantShape::Unit)?)?;
    variants.push(variant(alloc, "Npc", VariantShape::Newtype(4))?)?;
    let list = FieldList {
        fields,
        skip_unknown: false,
    };
    variants.push(variant(alloc, "Item", VariantShape::Struct(list))?)?;
    enumeration(alloc, "Kind", variants)
}

/// A struct of two fields of the same shape.
fn twofold(alloc: Global, name: &str, first: &str, second: &str, shape: usize) -> Result<Shape>
    ensures { IfOk result (λ s. shape_view s ≡ twofold (chars name.now) (chars first.now) (chars second.now) shape) }
{
    let mut fields = Vec::with_capacity(alloc, 2)?;
    fields.push(field_shape(alloc, first, shape)?)?;
    fields.push(field_shape(alloc, second, shape)?)?;
    structure(alloc, name, fields)
}

fn structure(alloc: Global, name: &str, fields: Vec<FieldShape>) -> Result<Shape>
    ensures { IfOk result (λ s. shape_view s ≡ struct (chars name.now) (only (map field_view fields.items))) }
{
    let name = String::from_str(alloc, name)?;
    Ok(Shape::Struct(
        name,
        FieldList {
            fields,
            skip_unknown: false,
        },
    ))
}

fn enumeration(alloc: Global, name: &str, variants: Vec<(String, VariantShape)>) -> Result<Shape>
    ensures { IfOk result (λ s. shape_view s ≡ enum (chars name.now) (map variant_view variants.items)) }
{
    let name = String::from_str(alloc, name)?;
    Ok(Shape::Enum(name, variants))
}

fn variant(alloc: Global, name: &str, content: VariantShape) -> Result<(String, VariantShape)>
    ensures { IfOk result (λ v. variant_view v ≡ record { name = chars name.now; content = content_view content }) }
{
    Ok((String::from_str(alloc, name)?, content))
}
