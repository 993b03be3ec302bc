//! Places for the fields of a struct of few.
ghost use Rattle.std.specs.Prelude.{◌≡◌, ◌<◌, ◌≤◌, Some, None, true, chars, map, take, set, length, vec_len, get_or};
ghost use Rattle.std.specs.Prelude.{IfOk, IfErr, IfSome, OnOk, MatchResult};
ghost use Rattle.std.specs.List.{list_all, position};
ghost use Rattle.ron_base.specs.declared.error.Error.TheVariants.{OutOfMemory};
ghost use Rattle.ron_spec_grammar.specs.Schema.{is_called, is_named, names_differ};
ghost use Rattle.ron_data_schema.specs.Shapes.{field_view, text_view};
ghost use Rattle.ron_data_schema.specs.declared.schema.FieldShape.{FieldShape as Field};
ghost use Rattle.ron_data.specs.Datum.{fields_view};
ghost use Rattle.ron_data.specs.Slots.{slots_in, AreSlotsFor, MissesField};
ghost use Rattle.ron_data_convert.specs.Places.{ArePlaces, IsPutAt, PutsAt, slots_at};
ghost use Rattle.ron_data_convert.specs.Slots.{fields_at};

use ron_base::error::Result;
use ron_data::data::Data;
use ron_data::slots::Slots;
use ron_data_schema::schema::FieldList;
use ron_lex_text::text::is_same;
use std::alloc::Global;

/// As many fields at most are few.
pub(crate) const FEW: usize = 32;

/// Puts a field with its name in its place, where none came yet. One that isn't the next finds a place that was left
/// empty, or leaves some.
#[inline(always)]
pub(crate) fn put<'o>(
    alloc: Global,
    places: &mut Vec<(String, Data<'o>)>,
    is_filled: &mut [bool],
    index: usize,
    name: String,
    value: Data<'o>,
) -> Result<()>
    requires room { index < length is_filled.old }
    ensures places { OnOk result (PutsAt index name value.entry is_filled.old places.old.items is_filled.new places.new.items) }
    ensures room { length is_filled.new ≡ length is_filled.old }
    ensures memory { IfErr result (λ e. e ≡ OutOfMemory) }
{
    if index == places.len() {
        places.push((name, value))?;
    } else {
        put_out_of_turn(alloc, places, index, name, value)?;
    }
    is_filled[index] = true;
    Ok(())
}

/// The same of one that isn't the next. Kept apart, so that one that is costs little.
#[inline(never)]
fn put_out_of_turn<'o>(
    alloc: Global,
    places: &mut Vec<(String, Data<'o>)>,
    index: usize,
    name: String,
    value: Data<'o>,
) -> Result<()>
    ensures places { OnOk result (IsPutAt index (name, value.entry) places.old.items places.new.items) }
    ensures memory { IfErr result (λ e. e ≡ OutOfMemory) }
{
    while places.len() <= index {
        places.push((String::new(alloc), Data::Unit))?;
    }
    set_at(places, index, (name, value));
    Ok(())
}

/// Puts another item in at an index.
fn set_at<T: Drop>(items: &mut Vec<T>, index: usize, item: T)
    requires { index < vec_len items.old }
    ensures { items.new.items ≡ set items.old.items index item }
{
    items[index] = item;
}

/// The fields in the list's order. One whose place isn't filled is refused, unless it may be missing; the name is that of
/// what holds the fields.
#[inline(always)]
pub(crate) fn fields_of<'o>(
    alloc: Global,
    outer: &str,
    list: &FieldList,
    places: Vec<(String, Data<'o>)>,
    is_filled: &[bool],
) -> Result<Vec<(String, Data<'o>)>>
    requires places { ArePlaces list.now.fields.items is_filled.now places.items }
    ensures value { MatchResult result
        (λ all. fields_at list.now.fields.items is_filled.now places.entry.items ≡ Some (fields_view all.items))
        (MissesField (fields_at list.now.fields.items is_filled.now places.entry.items ≡ None)) }
{
    if places.len() == list.fields.len() && are_filled(is_filled, places.len()) {
        return Ok(places);
    }
    slots_of(alloc, list, places, is_filled)?.into_fields(alloc, outer, list)
}

/// Whether so many flags from the first on say that a place is filled.
fn are_filled(is_filled: &[bool], count: usize) -> bool
    requires { count ≤ length is_filled.now }
    ensures { result ≡ list_all (λ b. b) (take count is_filled.now) }
{
    is_filled[..count].iter().all(|is_filled| *is_filled)
}

/// What came, in slots.
#[inline(never)]
fn slots_of<'o>(
    alloc: Global,
    list: &FieldList,
    places: Vec<(String, Data<'o>)>,
    is_filled: &[bool],
) -> Result<Slots<'o>>
    requires places { ArePlaces list.now.fields.items is_filled.now places.items }
    ensures slots { IfOk result (λ s. slots_in list.now.fields.items s
        ≡ slots_at list.now.fields.items is_filled.now places.entry.items) }
    ensures named { IfOk result (AreSlotsFor list.now.fields.items) }
    ensures memory { IfErr result (λ e. e ≡ OutOfMemory) }
{
    let mut slots = Slots::new(alloc, list)?;
    let mut index = 0;
    for (_, value) in places {
        if is_filled[index] {
            slots.put(alloc, list, index, value)?;
        } else {
            drop(value);
        }
        index += 1;
    }
    Ok(slots)
}

/// The index of the field of a name, where there is one; the one at an index is looked at first.
#[inline(always)]
pub(crate) fn index_of_name(list: &FieldList, next: usize, name: &str) -> Option<usize>
    requires { names_differ (map field_view list.now.fields.items) ≡ true }
    ensures index { IfSome result (λ i. Some i
        ≡ position (λ f. is_called (chars name.now) (field_view f)) list.now.fields.items) }
    ensures name { IfSome result (λ i. (f : Field)
        → chars name.now ≡ text_view (get_or list.now.fields.items i f).name) }
{
    if let Some(field) = list.fields.as_slice().get(next) {
        if is_same(field.name.as_str(), name) {
            return Some(next);
        }
    }
    first_named(list, name)
}

/// The same from the first field on.
fn first_named(list: &FieldList, name: &str) -> Option<usize>
    ensures { result ≡ position (λ f. is_named (chars name.now) (field_view f)) list.now.fields.items }
{
    let fields = list.fields.as_slice();
    fields
        .iter()
        .position(|field| is_same(field.name.as_str(), name))
}

/// The index of the field of this name or alias.
pub(crate) fn index_of_called(list: &FieldList, name: &str) -> Option<usize>
    ensures { result ≡ position (λ f. is_called (chars name.now) (field_view f)) list.now.fields.items }
{
    list.fields
        .as_slice()
        .iter()
        .position(|field| field.is_called(name))
}
