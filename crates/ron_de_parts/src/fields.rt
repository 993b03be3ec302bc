//! The fields of a struct: their names, and a slot for the value of each.
// The limit of a field is asked at its value, between the colon's gap and the value: its name stands at the same
// level, directly before it. Only the error that an unrelated text gets can differ from asking at the name.

// Where a field's errors stand. A duplicate or unknown field is reported at its name, a missing field at the closing
// parenthesis. A struct with an empty name is named by no error of its fields.

ghost use Rattle.std.specs.Prelude.{◌≡◌, ◌<◌, true, map, length, chars, IfSome, IfOk, OnOk, IfErr};
ghost use Rattle.ron_spec_grammar.specs.Schema.{names_differ};
ghost use Rattle.ron_base.specs.declared.error.Error.TheVariants.{OutOfMemory};
ghost use Rattle.ron_data_schema.specs.Shapes.{field_view, list_view};
ghost use Rattle.ron_data.specs.Slots.{slots_in, slots_view, AreSlotsFor, IsFree};
ghost use Rattle.ron_lex.specs.Turns.{Moves};
ghost use Rattle.ron_de_steps.specs.Spends.{Enters};
ghost use Rattle.ron_de_parts.specs.Turns.{LeadsOn, MovesAfterLook};
ghost use Rattle.ron_de_parts.specs.Errors.{IsOfReading};
ghost use Rattle.ron_de_parts.specs.Slots.{with_read, ReadsFieldName, TakesAwaited, FindsField};

use ron_base::error::{Error, Result};
use ron_data::data::Data;
use ron_data::slots::{Slots, outer_name, unknown_field};
use ron_data_schema::schema::FieldList;
use ron_de_steps::faults::identifier_error;
use ron_de_steps::gap::pass_gap;
use ron_lex::cursor::Cursor;
use std::alloc::Global;

/// Puts in what was read of a field. What was skipped is none.
#[inline(always)]
pub fn put<'a>(
    alloc: Global,
    slots: &mut Slots<'a>,
    list: &FieldList,
    item: Option<(usize, Data<'a>)>,
) -> Result<()>
    requires named { AreSlotsFor list.now.fields.items slots.old }
    requires free { IfSome item (λ i. IsFree list.now.fields.items slots.old i.0) }
    ensures slots { OnOk result (slots_in list.now.fields.items slots.new
        ≡ with_read (slots_in list.now.fields.items slots.old) item.entry) }
    ensures named { OnOk result (AreSlotsFor list.now.fields.items slots.new) }
    ensures memory { IfErr result (λ e. e ≡ OutOfMemory) }
{
    match item {
        Some((index, value)) => slots.put(alloc, list, index, value),
        None => Ok(()),
    }
}

/// Reads a field's name, the colon and the gaps around it: the field's index in the schema's list, or none where the
/// name is unknown and its value is skipped. The field's slot has to be empty still.
#[inline(always)]
pub fn read_field_name(
    alloc: Global,
    cursor: &mut Cursor<'_>,
    outer: &str,
    list: &FieldList,
    found: &Slots<'_>,
) -> Result<Option<usize>>
    requires { names_differ (map field_view list.now.fields.items) ≡ true }
    ensures text { cursor.new.text ≡ cursor.old.text }
    ensures shorter { OnOk result (length cursor.new.rest < length cursor.old.rest) }
    ensures index { IfOk result (λ field. IfSome field (IsFree list.now.fields.items found.now)) }
    ensures value { ReadsFieldName (list_view list.now) (slots_view (slots_in list.now.fields.items found.now)) cursor.old
        result cursor.new }
    ensures fault { IfErr result IsOfReading }
    ensures turns { MovesAfterLook 1 cursor.old result cursor.new }
    ensures enters { OnOk result (Enters cursor.old cursor.new) }
    ensures leads { LeadsOn cursor.old result cursor.new }
{
    if let Some(index) = take_awaited(cursor, list, found)? {
        return Ok(Some(index));
    }
    read_any_field_name(alloc, cursor, outer, list, found)
}

/// Goes past the name of the field whose turn it is, the colon and the gap behind it, where name and colon stand here
/// with no gap between them, as they mostly do: the field's index. Else the cursor stays.
#[inline(always)]
fn take_awaited(
    cursor: &mut Cursor<'_>,
    list: &FieldList,
    found: &Slots<'_>,
) -> Result<Option<usize>>
    requires { names_differ (map field_view list.now.fields.items) ≡ true }
    ensures text { cursor.new.text ≡ cursor.old.text }
    ensures index { IfOk result (λ field. IfSome field (IsFree list.now.fields.items found.now)) }
    ensures takes { TakesAwaited (list_view list.now) (slots_view (slots_in list.now.fields.items found.now)) cursor.old
        result cursor.new }
    ensures fault { IfErr result IsOfReading }
{
    let Some((index, name)) = found.awaited(list) else {
        return Ok(None);
    };
    if !cursor.take_called(name) {
        return Ok(None);
    }
    pass_gap(cursor)?;
    Ok(Some(index))
}

/// The same of a field whose turn it isn't, or whose name stands in another form.
#[inline(never)]
fn read_any_field_name(
    alloc: Global,
    cursor: &mut Cursor<'_>,
    outer: &str,
    list: &FieldList,
    found: &Slots<'_>,
) -> Result<Option<usize>>
    requires { names_differ (map field_view list.now.fields.items) ≡ true }
    ensures text { cursor.new.text ≡ cursor.old.text }
    ensures shorter { OnOk result (length cursor.new.rest < length cursor.old.rest) }
    ensures index { IfOk result (λ field. IfSome field (IsFree list.now.fields.items found.now)) }
    ensures value { ReadsFieldName (list_view list.now) (slots_view (slots_in list.now.fields.items found.now)) cursor.old
        result cursor.new }
    ensures fault { IfErr result IsOfReading }
    ensures turns { Moves 1 cursor.old result cursor.new }
    ensures enters { OnOk result (Enters cursor.old cursor.new) }
    ensures leads { LeadsOn cursor.old result cursor.new }
{
    let name = match cursor.identifier() {
        Ok(name) => name,
        Err(fault) => return Err(identifier_error(alloc, fault)?),
    };
    let field = find_field(alloc, outer, list, found, name)?;
    pass_gap(cursor)?;
    if !cursor.take(':') {
        return Err(Error::ExpectedMapColon);
    }
    pass_gap(cursor)?;
    Ok(field)
}

/// The index of the field of this name, whose slot is still empty; or none where no field has the name and unknown ones
/// are skipped.
#[inline(always)]
fn find_field(
    alloc: Global,
    outer: &str,
    list: &FieldList,
    found: &Slots<'_>,
    name: &str,
) -> Result<Option<usize>>
    requires { names_differ (map field_view list.now.fields.items) ≡ true }
    ensures index { IfOk result (λ field. IfSome field (IsFree list.now.fields.items found.now)) }
    ensures value { FindsField (list_view list.now) (slots_view (slots_in list.now.fields.items found.now)) (chars name.now)
        result }
    ensures fault { IfErr result IsOfReading }
{
    let Some(index) = found.index_of(list, name) else {
        if list.skip_unknown {
            return Ok(None);
        }
        return Err(unknown_field(alloc, outer, list, name)?);
    };
    if found.is_filled(index) {
        return Err(Error::DuplicateStructField {
            field: String::from_str(alloc, list.fields[index].name.as_str())?,
            outer: outer_name(alloc, outer)?,
        });
    }
    Ok(Some(index))
}
