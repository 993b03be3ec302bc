//! The conversion of a value by the shapes of a schema.
ghost use Rattle.std.specs.Prelude.{◌≡◌, true, [], map, slice_get, IfSome, IfOk};
ghost use Rattle.ron_spec_grammar.specs.Values.Conversion.{into, all_into, each_into, only_into, pairs_into, fields_into};
ghost use Rattle.ron_spec_grammar.specs.Values.Conversion.{some_as, sequence_as, mapping_as, bytes_among};
ghost use Rattle.ron_spec_grammar.specs.Schema.{has_distinct_names, names_differ};
ghost use Rattle.ron_value.specs.View.{tree_of, entries};
ghost use Rattle.ron_data.specs.Datum.{data_view, pair_view, items_view};
ghost use Rattle.ron_data_schema.specs.Shapes.{shape_view, list_view};
ghost use Rattle.ron_data.specs.Slots.{slots_in, AreSlotsFor};
ghost use Rattle.ron_data_schema.specs.Table.{shapes_of, root_of};
ghost use Rattle.ron_data_convert.specs.Becomes.{Becomes, IsMovedInto, IsOwn, shape_seen, is_any_value, items_tree, pairs_tree};
ghost use Rattle.ron_data_convert.specs.Misfits.{misfit, all_misfit, each_misfit, only_misfit, pairs_misfit, fields_misfit};
ghost use Rattle.ron_data_convert.specs.Misfits.{some_misfit, sequence_misfit, mapping_misfit};
ghost use Rattle.ron_data_convert.specs.Slots.{field_views, FillsSlots, BecomesFields};

use crate::bytes::bytes_among;
use crate::fields::{named_field, named_place};
use crate::leaves::{boolean, bytes, character, none, number, text, unit};
use crate::places::{FEW, fields_of, put};
use crate::refuse::{another_kind, another_length};
use ron_base::error::Result;
use ron_data::any_value::AnyValue;
use ron_data::data::Data;
use ron_data::pairs::fold_pairs;
use ron_data::slots::Slots;
use ron_data_schema::schema::{FieldList, Schema, Shape};
use ron_value::Map;
use ron_value::value::Value;
use std::alloc::Global;

/// The data of the schema's shape that a value becomes. A number need only fit the width; a list becomes bytes, a tuple
/// of its length, or a newtype where it has one item; a map whose keys are names or aliases of fields, one of each field
/// at most, becomes a struct; by the shape of values a value stays as it is. Nothing becomes an enum. Depth has no
/// limit. Texts, bytes and values move into the data, and are not copied; so do the keys of a struct of at most 32 fields,
/// as their names.
///
/// Another value is refused by `InvalidValueForType` for its case or range, by `ExpectedDifferentLength`, by
/// `NoSuchStructField`, `DuplicateStructField` and `MissingStructField`, or, where a raw text is wanted, by
/// `ExpectedRawValue`. May be refused by `OutOfMemory` too, but not where the whole value moves.
pub fn into_data<'o>(alloc: Global, value: Value, schema: &Schema) -> Result<Data<'o>>
    ensures value { Becomes data_view (into (shapes_of schema.now) (root_of schema.now) (tree_of value))
        (misfit (shapes_of schema.now) (root_of schema.now) (tree_of value)) result }
    ensures moved { IsMovedInto (tree_of value)
        (into (shapes_of schema.now) (root_of schema.now) (tree_of value)) result }
    ensures own { IfOk result IsOwn }
{
    convert(alloc, schema, schema.root(), value)
}

/// The data of the shape at an index of the table.
#[cycle(convert)]
fn convert<'o>(alloc: Global, schema: &Schema, index: usize, value: Value) -> Result<Data<'o>>
    ensures value { Becomes data_view (into (shapes_of schema.now) index (tree_of value))
        (misfit (shapes_of schema.now) index (tree_of value)) result }
    ensures moved { IsMovedInto (tree_of value) (into (shapes_of schema.now) index (tree_of value)) result }
    ensures own { IfOk result IsOwn }
{
    let shape = shape_at(schema, index);
    if is_any(shape) {
        return Ok(Data::Value(AnyValue::Owned(value)));
    }
    match value {
        Value::Bool(held) => boolean(alloc, held, shape),
        Value::Char(held) => character(alloc, held, shape),
        Value::Map(held) => mapping(alloc, schema, held, shape),
        Value::Number(held) => number(alloc, held, shape),
        Value::Option(None) => none(alloc, shape),
        Value::Option(Some(held)) => some(alloc, schema, Box::into_inner(held), shape),
        Value::String(held) => text(alloc, held, shape),
        Value::Bytes(held) => bytes(alloc, held, shape),
        Value::Seq(held) => sequence(alloc, schema, held, shape),
        Value::Unit => unit(alloc, shape),
    }
}

/// The shape at an index of the table.
fn shape_at(schema: &Schema, index: usize) -> Option<&Shape>
    ensures value { slice_get (shapes_of schema.now) index ≡ shape_seen result }
    ensures distinct { IfSome result (λ s. has_distinct_names (shape_view s.now) ≡ true) }
{
    schema.shape(index)
}

/// Whether a value is to stay as it is.
fn is_any(shape: Option<&Shape>) -> bool
    ensures { result ≡ is_any_value (shape_seen shape.entry) }
{
    matches!(shape, Some(Shape::Value))
}

/// A value that is there.
#[cycle(convert)]
fn some<'o>(alloc: Global, schema: &Schema, held: Value, shape: Option<&Shape>) -> Result<Data<'o>>
    ensures value { Becomes data_view (some_as (λ j. into (shapes_of schema.now) j (tree_of held)) (shape_seen shape.entry))
        (some_misfit (λ j. misfit (shapes_of schema.now) j (tree_of held)) (shape_seen shape.entry)) result }
    ensures own { IfOk result IsOwn }
{
    match shape {
        Some(Shape::Option(content)) => {
            let data = convert(alloc, schema, *content, held)?;
            Ok(Data::Option(Some(Box::new(alloc, data)?)))
        }
        _ => another_kind(alloc, shape, "an optional value"),
    }
}

/// A list, by its shape.
#[cycle(convert)]
fn sequence<'o>(
    alloc: Global,
    schema: &Schema,
    items: Vec<Value>,
    shape: Option<&Shape>,
) -> Result<Data<'o>>
    ensures value { Becomes data_view (sequence_as (λ j. all_into (shapes_of schema.now) j (items_tree items.items))
        (λ js. each_into (shapes_of schema.now) js (items_tree items.items))
        (λ j. only_into (shapes_of schema.now) j (items_tree items.items))
        (bytes_among (items_tree items.items)) (shape_seen shape.entry))
        (sequence_misfit (λ j. all_misfit (shapes_of schema.now) j (items_tree items.items))
        (λ js. each_misfit (shapes_of schema.now) js (items_tree items.items))
        (λ j. only_misfit (shapes_of schema.now) j (items_tree items.items)) (shape_seen shape.entry)) result }
    ensures own { IfOk result IsOwn }
{
    match shape {
        Some(Shape::Seq(item)) => Ok(Data::Seq(all_items(alloc, schema, *item, items)?)),
        Some(Shape::Tuple(shapes)) => {
            Ok(Data::Tuple(each_item(alloc, schema, shapes.as_slice(), items)?))
        }
        Some(Shape::TupleStruct(name, shapes)) => {
            let data = each_item(alloc, schema, shapes.as_slice(), items)?;
            let name = String::from_str(alloc, name.as_str())?;
            Ok(Data::TupleStruct(name, data))
        }
        Some(Shape::Newtype(name, content)) => {
            let data = only_item(alloc, schema, *content, items)?;
            let name = String::from_str(alloc, name.as_str())?;
            Ok(Data::Newtype(name, Box::new(alloc, data)?))
        }
        Some(Shape::Bytes) => Ok(Data::Bytes(bytes_among(alloc, items.as_slice())?)),
        _ => another_kind(alloc, shape, "a sequence"),
    }
}

/// Each item, by one shape.
#[cycle(convert)]
fn all_items<'o>(
    alloc: Global,
    schema: &Schema,
    index: usize,
    items: Vec<Value>,
) -> Result<Vec<Data<'o>>>
    ensures { Becomes (λ all. items_view all.items) (all_into (shapes_of schema.now) index (items_tree items.items))
        (all_misfit (shapes_of schema.now) index (items_tree items.items)) result }
{
    let mut all = Vec::with_capacity(alloc, items.len())?;
    for item in items {
        let data = convert(alloc, schema, index, item)?;
        all.push(data)?;
    }
    Ok(all)
}

/// As many items as shapes, each by its own.
#[cycle(convert)]
fn each_item<'o>(
    alloc: Global,
    schema: &Schema,
    shapes: &[usize],
    items: Vec<Value>,
) -> Result<Vec<Data<'o>>>
    ensures { Becomes (λ all. items_view all.items) (each_into (shapes_of schema.now) shapes.now
        (items_tree items.items)) (each_misfit (shapes_of schema.now) shapes.now (items_tree items.items)) result }
{
    if items.len() != shapes.len() {
        return another_length(alloc, shapes.len(), items.len());
    }
    let mut all = Vec::with_capacity(alloc, items.len())?;
    let mut left = shapes;
    for item in items {
        let Some((shape, others)) = left.split_first() else {
            unreachable!()
        };
        let data = convert(alloc, schema, *shape, item)?;
        all.push(data)?;
        left = others;
    }
    Ok(all)
}

/// The one item.
#[cycle(convert)]
fn only_item<'o>(
    alloc: Global,
    schema: &Schema,
    index: usize,
    mut items: Vec<Value>,
) -> Result<Data<'o>>
    ensures { Becomes data_view (only_into (shapes_of schema.now) index (items_tree items.items))
        (only_misfit (shapes_of schema.now) index (items_tree items.items)) result }
{
    if items.len() != 1 {
        return another_length(alloc, 1, items.len());
    }
    convert(alloc, schema, index, items.swap_remove(0))
}

/// A map, by its shape.
#[cycle(convert)]
fn mapping<'o>(alloc: Global, schema: &Schema, held: Map, shape: Option<&Shape>) -> Result<Data<'o>>
    requires { IfSome shape (λ s. has_distinct_names (shape_view s.now) ≡ true) }
    ensures value { Becomes data_view (mapping_as (λ k v. pairs_into (shapes_of schema.now) k v (pairs_tree (entries held)))
        (λ list. fields_into (shapes_of schema.now) list [] (pairs_tree (entries held))) (shape_seen shape.entry))
        (mapping_misfit (λ k v. pairs_misfit (shapes_of schema.now) k v (pairs_tree (entries held)))
        (λ list. fields_misfit (shapes_of schema.now) list [] (pairs_tree (entries held))) (shape_seen shape.entry))
        result }
    ensures own { IfOk result IsOwn }
{
    match shape {
        Some(Shape::Map(key, value)) => {
            let pairs = pairs(alloc, schema, *key, *value, held)?;
            Ok(Data::Map(fold_pairs(pairs)?))
        }
        Some(Shape::Struct(name, list)) => {
            let outer = name.as_str();
            let fields = fields(alloc, schema, outer, list, held)?;
            let name = String::from_str(alloc, outer)?;
            Ok(Data::Struct(name, fields))
        }
        _ => another_kind(alloc, shape, "a map"),
    }
}

/// Each key and each value, by a shape.
#[cycle(convert)]
fn pairs<'o>(
    alloc: Global,
    schema: &Schema,
    key_index: usize,
    value_index: usize,
    held: Map,
) -> Result<Vec<(Data<'o>, Data<'o>)>>
    ensures { Becomes (λ all. map pair_view all.items) (pairs_into (shapes_of schema.now) key_index value_index
        (pairs_tree (entries held))) (pairs_misfit (shapes_of schema.now) key_index value_index
        (pairs_tree (entries held))) result }
{
    let mut all: Vec<(Data<'o>, Data<'o>)> = Vec::with_capacity(alloc, held.len())?;
    for (key, value) in held {
        let key = convert(alloc, schema, key_index, key)?;
        let value = convert(alloc, schema, value_index, value)?;
        all.push((key, value))?;
    }
    Ok(all)
}

/// The fields of a struct. Where they are few, keys move into the data as their names.
#[cycle(convert)]
fn fields<'o>(
    alloc: Global,
    schema: &Schema,
    outer: &str,
    list: &FieldList,
    held: Map,
) -> Result<Vec<(String, Data<'o>)>>
    requires { names_differ (field_views list.now.fields.items) ≡ true }
    ensures { BecomesFields (shapes_of schema.now) (list_view list.now) (pairs_tree (entries held)) result }
{
    if list.fields.len() > FEW {
        return wide_fields(alloc, schema, outer, list, held);
    }
    let fields = list.fields.as_slice();
    let mut all = Vec::with_capacity(alloc, fields.len())?;
    let mut is_filled = [false; FEW];
    let mut next = 0;
    for (key, value) in held {
        let Some((index, name)) = named_place(alloc, outer, list, &is_filled, next, key)? else {
            continue;
        };
        let data = convert(alloc, schema, fields[index].shape, value)?;
        put(alloc, &mut all, &mut is_filled, index, name, data)?;
        next = index + 1;
    }
    fields_of(alloc, outer, list, all, &is_filled)
}

/// The same of any number of fields.
#[inline(never)]
#[cycle(convert)]
fn wide_fields<'o>(
    alloc: Global,
    schema: &Schema,
    outer: &str,
    list: &FieldList,
    held: Map,
) -> Result<Vec<(String, Data<'o>)>>
    requires { names_differ (field_views list.now.fields.items) ≡ true }
    ensures { BecomesFields (shapes_of schema.now) (list_view list.now) (pairs_tree (entries held)) result }
{
    let slots = slots(alloc, schema, outer, list, held)?;
    slots.into_fields(alloc, outer, list)
}

/// For each field the data of the key that names it.
#[cycle(convert)]
fn slots<'o>(
    alloc: Global,
    schema: &Schema,
    outer: &str,
    list: &FieldList,
    held: Map,
) -> Result<Slots<'o>>
    requires { names_differ (field_views list.now.fields.items) ≡ true }
    ensures named { IfOk result (AreSlotsFor list.now.fields.items) }
    ensures value { FillsSlots (list_view list.now) (slots_in list.now.fields.items)
        (fields_into (shapes_of schema.now) (list_view list.now) [] (pairs_tree (entries held)))
        (fields_misfit (shapes_of schema.now) (list_view list.now) [] (pairs_tree (entries held))) result }
{
    let fields = list.fields.as_slice();
    let mut slots = Slots::new(alloc, list)?;
    for (key, value) in held {
        let Some(index) = named_field(alloc, outer, list, &slots, key)? else {
            continue;
        };
        let data = convert(alloc, schema, fields[index].shape, value)?;
        slots.put(alloc, list, index, data)?;
    }
    Ok(slots)
}
