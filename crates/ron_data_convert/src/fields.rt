//! The fields of a struct: which one a key names, and a slot for the value of each.
ghost use Rattle.std.specs.Prelude.{◌≡◌, ◌≤◌, true, false, length, vec_len, string_bytes, MatchResult, IfOk, IfSome};
ghost use Rattle.ron_spec_grammar.specs.Schema.{names_differ};
ghost use Rattle.ron_value.specs.Tree as tree;
ghost use Rattle.ron_value.specs.View.{tree_of};
ghost use Rattle.ron_data_schema.specs.Shapes.{list_view};
ghost use Rattle.ron_data.specs.Slots.{slots_in, slots_view, IsFree};
ghost use Rattle.ron_data_convert.specs.Becomes.{Refuses, is_text};
ghost use Rattle.ron_data_convert.specs.Misfits.{kind_differs};
ghost use Rattle.ron_data_convert.specs.Places.{IsNameOf};
ghost use Rattle.ron_data_convert.specs.Slots.{field_views, FindsField, FindsPlace};

use crate::places::{index_of_called, index_of_name};
use crate::refuse::another_value;
use ron_base::error::{Error, Result};
use ron_data::slots::{Slots, outer_name, unknown_field};
use ron_data_schema::schema::FieldList;
use ron_value::value::Value;
use std::alloc::Global;

/// The index of the field that a key names, whose slot is still empty; none where no field has its name and unknown ones
/// are skipped.
pub(crate) fn named_field(
    alloc: Global,
    outer: &str,
    list: &FieldList,
    found: &Slots<'_>,
    key: Value,
) -> Result<Option<usize>>
    requires { names_differ (field_views list.now.fields.items) ≡ true }
    ensures index { IfOk result (λ field. IfSome field (IsFree list.now.fields.items found.now)) }
    ensures value { FindsField (list_view list.now) (slots_view (slots_in list.now.fields.items found.now)) (tree_of key)
        result }
{
    let name = match text_of(key) {
        Ok(name) => name,
        Err(other) => return another_value(alloc, "field identifier", &other),
    };
    let Some(index) = found.index_of(list, name.as_str()) else {
        if list.skip_unknown {
            return Ok(None);
        }
        return Err(unknown_field(alloc, outer, list, name.as_str())?);
    };
    if found.is_filled(index) {
        return Err(Error::DuplicateStructField {
            field: String::from_str(alloc, list.fields[index].name.as_str())?,
            outer: outer_name(alloc, outer)?,
        });
    }
    Ok(Some(index))
}

/// The index of the field that a key names, which hasn't come yet, and the field's name, as which the key moves on unless it
/// is an alias; none where no field has its name and unknown ones are skipped. The field at an index is looked at first.
#[inline(always)]
pub(crate) fn named_place(
    alloc: Global,
    outer: &str,
    list: &FieldList,
    is_filled: &[bool],
    next: usize,
    key: Value,
) -> Result<Option<(usize, String)>>
    requires differ { names_differ (field_views list.now.fields.items) ≡ true }
    requires room { vec_len list.now.fields ≤ length is_filled.now }
    ensures name { IfOk result (λ found. IfSome found (λ f. IsNameOf list.now.fields.items f.0 f.1)) }
    ensures value { FindsPlace (list_view list.now) is_filled.now (tree_of key) result }
{
    match key {
        Value::String(name) => {
            if let Some(index) = index_of_name(list, next, name.as_str()) {
                if !is_filled[index] {
                    return Ok(Some((index, name)));
                }
            }
            called_place(alloc, outer, list, is_filled, name)
        }
        other => no_name(alloc, other),
    }
}

#[inline(never)]
fn no_name<T>(alloc: Global, key: Value) -> Result<T>
    ensures { Refuses kind_differs result }
{
    another_value(alloc, "field identifier", &key)
}

/// The same of the text of a key that is no field's name, unless an alias, or one that came.
#[inline(never)]
fn called_place(
    alloc: Global,
    outer: &str,
    list: &FieldList,
    is_filled: &[bool],
    name: String,
) -> Result<Option<(usize, String)>>
    requires differ { names_differ (field_views list.now.fields.items) ≡ true }
    requires room { vec_len list.now.fields ≤ length is_filled.now }
    ensures name { IfOk result (λ found. IfSome found (λ f. IsNameOf list.now.fields.items f.0 f.1)) }
    ensures value { FindsPlace (list_view list.now) is_filled.now (tree.text (string_bytes name)) result }
{
    let Some(index) = index_of_called(list, name.as_str()) else {
        if list.skip_unknown {
            return Ok(None);
        }
        return Err(unknown_field(alloc, outer, list, name.as_str())?);
    };
    let name = String::from_str(alloc, list.fields[index].name.as_str())?;
    if is_filled[index] {
        return Err(Error::DuplicateStructField {
            field: name,
            outer: outer_name(alloc, outer)?,
        });
    }
    Ok(Some((index, name)))
}

/// The text that a value is, or the value.
fn text_of(value: Value) -> std::result::Result<String, Value>
    ensures { MatchResult result (λ name. tree_of value ≡ tree.text (string_bytes name))
        (λ _. is_text (tree_of value) ≡ false) }
{
    match value {
        Value::String(name) => Ok(name),
        other => Err(other),
    }
}
