//! Schemas of requests.
ghost use Rattle.std.specs.Prelude.{◌≡◌, IfOk};
ghost use Rattle.ron_data_schema.specs.Table.{root_of};

use crate::json::{count_of, items_of, member, string_of};
use anyhow::{Result, bail};
use ron_data_schema::schema::{FieldList, FieldShape, Schema, Shape, VariantShape, Width};
use serde_json::Value;
use std::alloc::Global;

/// The request's `schema`, with this root.
pub fn schema_of(alloc: Global, request: &Value, root: usize) -> Result<Schema>
    ensures { IfOk result (λ s. root_of s ≡ root) }
{
    let shapes = shapes_of(alloc, items_of(member(request, "schema")?)?)?;
    match Schema::new(shapes, root) {
        Ok(schema) => Ok(schema),
        Err(refused) => bail!("{refused}"),
    }
}

fn shapes_of(alloc: Global, list: &[Value]) -> Result<Vec<Shape>> {
    let mut shapes = Vec::new(alloc);
    for shape in list {
        shapes.push(shape_of(alloc, shape)?)?;
    }
    Ok(shapes)
}

fn shape_of(alloc: Global, shape: &Value) -> Result<Shape> {
    let (kind, parts) = kind_of(shape)?;
    match kind {
        "bool" => Ok(Shape::Bool),
        "char" => Ok(Shape::Char),
        "str" => Ok(Shape::Str),
        "bytes" => Ok(Shape::Bytes),
        "unit" => Ok(Shape::Unit),
        "value" => Ok(Shape::Value),
        "raw" => Ok(Shape::Raw),
        "option" => Ok(Shape::Option(count_of(parts)?)),
        "seq" => Ok(Shape::Seq(count_of(parts)?)),
        "map" => map_of(parts),
        "tuple" => Ok(Shape::Tuple(indices_of(alloc, items_of(parts)?)?)),
        "unit_struct" => Ok(Shape::UnitStruct(string_of(alloc, parts)?)),
        "newtype" | "tuple_struct" | "struct" | "enum" => named_of(alloc, kind, parts),
        _ => match width_of(kind) {
            Some(width) => Ok(Shape::Int(width)),
            None => bail!("no shape {kind}"),
        },
    }
}

/// `[key, value]` of a map, by their indices.
fn map_of(parts: &Value) -> Result<Shape> {
    match items_of(parts)? {
        [key, value] => Ok(Shape::Map(count_of(key)?, count_of(value)?)),
        _ => bail!("no map: {parts}"),
    }
}

/// The indices of a list.
fn indices_of(alloc: Global, list: &[Value]) -> Result<Vec<usize>> {
    let mut indices = Vec::new(alloc);
    for index in list {
        indices.push(count_of(index)?)?;
    }
    Ok(indices)
}

/// A shape's kind, and its parts: a text alone, or the one member of an object.
fn kind_of(shape: &Value) -> Result<(&str, &Value)> {
    match shape {
        Value::String(kind) => Ok((kind.as_str(), shape)),
        Value::Object(members) if members.len() == 1 => match members.first_key_value() {
            Some((kind, parts)) => Ok((kind.as_str(), parts)),
            None => bail!("no shape: {shape}"),
        },
        _ => bail!("no shape: {shape}"),
    }
}

/// The width of this name.
pub fn width_of(name: &str) -> Option<Width> {
    Some(match name {
        "i8" => Width::I8,
        "i16" => Width::I16,
        "i32" => Width::I32,
        "i64" => Width::I64,
        "i128" => Width::I128,
        "u8" => Width::U8,
        "u16" => Width::U16,
        "u32" => Width::U32,
        "u64" => Width::U64,
        "u128" => Width::U128,
        _ => return None,
    })
}

/// `[name, index]` of a newtype, `[name, indices]` of a tuple struct, `[name, fields]` of a struct, and `true` behind
/// these where unknown ones are skipped, `[name, variants]` of an enum.
fn named_of(alloc: Global, kind: &str, parts: &Value) -> Result<Shape> {
    let (name, held, skip_unknown) = match items_of(parts)? {
        [name, held] => (name, held, false),
        [name, held, Value::Bool(skip_unknown)] if kind == "struct" => (name, held, *skip_unknown),
        _ => bail!("no {kind}: {parts}"),
    };
    let name = string_of(alloc, name)?;
    match kind {
        "newtype" => Ok(Shape::Newtype(name, count_of(held)?)),
        "tuple_struct" => Ok(Shape::TupleStruct(name, indices_of(alloc, items_of(held)?)?)),
        "enum" => Ok(Shape::Enum(name, variants_of(alloc, items_of(held)?)?)),
        _ => Ok(Shape::Struct(name, fields_of(alloc, items_of(held)?, skip_unknown)?)),
    }
}

fn fields_of(alloc: Global, list: &[Value], skip_unknown: bool) -> Result<FieldList> {
    let mut fields = Vec::new(alloc);
    for field in list {
        fields.push(field_of(alloc, field)?)?;
    }
    Ok(FieldList {
        fields,
        skip_unknown,
    })
}

/// `[name, index]`, `true` behind these where the field may be missing, and last the list of its aliases, where it has
/// some.
fn field_of(alloc: Global, field: &Value) -> Result<FieldShape> {
    let (name, shape, may_be_missing, aliases) = match items_of(field)? {
        [name, shape] => (name, shape, false, None),
        [name, shape, Value::Bool(may_be_missing)] => (name, shape, *may_be_missing, None),
        [name, shape, aliases] => (name, shape, false, Some(aliases)),
        [name, shape, Value::Bool(may_be_missing), aliases] => {
            (name, shape, *may_be_missing, Some(aliases))
        }
        _ => bail!("no field: {field}"),
    };
    Ok(FieldShape {
        name: string_of(alloc, name)?,
        aliases: names_of(alloc, aliases)?,
        shape: count_of(shape)?,
        may_be_missing,
    })
}

fn names_of(alloc: Global, list: Option<&Value>) -> Result<Vec<String>> {
    let mut names = Vec::new(alloc);
    if let Some(list) = list {
        for name in items_of(list)? {
            names.push(string_of(alloc, name)?)?;
        }
    }
    Ok(names)
}

fn variants_of(alloc: Global, list: &[Value]) -> Result<Vec<(String, VariantShape)>> {
    let mut variants = Vec::new(alloc);
    for variant in list {
        variants.push(variant_of(alloc, variant)?)?;
    }
    Ok(variants)
}

/// `[name]` of a variant that holds nothing, and behind the name what it holds.
fn variant_of(alloc: Global, variant: &Value) -> Result<(String, VariantShape)> {
    match items_of(variant)? {
        [name] => Ok((string_of(alloc, name)?, VariantShape::Unit)),
        [name, content] => Ok((string_of(alloc, name)?, content_of(alloc, content)?)),
        _ => bail!("no variant: {variant}"),
    }
}

/// `{"newtype": index}`, `{"tuple": indices}` or `{"struct": [fields]}`, with `true` behind the fields where unknown ones
/// are skipped.
fn content_of(alloc: Global, content: &Value) -> Result<VariantShape> {
    let (kind, parts) = kind_of(content)?;
    match kind {
        "newtype" => Ok(VariantShape::Newtype(count_of(parts)?)),
        "tuple" => Ok(VariantShape::Tuple(indices_of(alloc, items_of(parts)?)?)),
        "struct" => match items_of(parts)? {
            [fields] => struct_of(alloc, fields, false),
            [fields, Value::Bool(skip_unknown)] => struct_of(alloc, fields, *skip_unknown),
            _ => bail!("no fields: {parts}"),
        },
        _ => bail!("no variant of {kind}"),
    }
}

fn struct_of(alloc: Global, fields: &Value, skip_unknown: bool) -> Result<VariantShape> {
    Ok(VariantShape::Struct(fields_of(alloc, items_of(fields)?, skip_unknown)?))
}
