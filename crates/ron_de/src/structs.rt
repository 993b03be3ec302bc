//! Reading structs.
ghost use Rattle.std.specs.Prelude.{◌≡◌, true, ◌<◌, ◌∷◌, map, length, IfSome, IfOk, OnOk};
ghost use Rattle.ron_spec_grammar.specs.Schema.{holds_below, names_differ};
ghost use Rattle.ron_spec_words.specs.Characters.{left_parenthesis, right_parenthesis};
ghost use Rattle.ron_spec_words.specs.Runs.{is_at};
ghost use Rattle.ron_data_schema.specs.Shapes.{field_view, list_view, struct_view};
ghost use Rattle.ron_data.specs.Slots.{slots_in, AreSlotsFor, IsFree};
ghost use Rattle.ron_de_steps.specs.Advance.{Advances};
ghost use Rattle.ron_de_parts.specs.Content.{ReadsFieldsInside, ReadsFieldGroup};
ghost use Rattle.ron_de_parts.specs.Kept.{Kept};
ghost use Rattle.ron_de_parts.specs.Slices.{IsSliced, StringsAreSliced, FieldsAreSliced, SlotsAreSliced, ItemIsSliced};
ghost use Rattle.ron_de_parts.specs.Slots.{ReadsFields, ReadsField};
ghost use Rattle.ron_de_parts.specs.Values.{ReadsShape};
ghost use Rattle.ron_de.specs.Turns.{SettlesShape, SpendsGroup, SpendsItems, LeadsPast};

use crate::value::read_value;
use ron_base::error::{Error, Result};
use ron_data::data::Data;
use ron_data::slots::Slots;
use ron_data_schema::schema::FieldList;
use ron_de_parts::context::Context;
use ron_de_parts::fields::{put, read_field_name};
use ron_de_parts::names::read_name;
use ron_de_parts::ranges::read_range;
use ron_de_parts::untyped::skip_untyped;
use ron_de_steps::gap::pass_gap;
use ron_de_steps::steps::read_comma;
use ron_lex::cursor::Cursor;

/// Reads a struct: perhaps its name, a gap, and its fields in parentheses; or a range, which has no name.
#[cycle(read)]
#[inline(never)]
pub(crate) fn read_struct<'o>(
    context: &Context<'_, 'o>,
    cursor: &mut Cursor<'_>,
    name: &str,
    list: &FieldList,
) -> Result<Data<'o>>
    requires in_range { holds_below (length context.now.schema) (struct_view name.now list.now) ≡ true }
    requires distinct { names_differ (map field_view list.now.fields.items) ≡ true }
    ensures value { ReadsShape context.now (struct_view name.now list.now) cursor.old result cursor.new.rest }
    ensures slice { IfOk result (IsSliced cursor.old.rest cursor.new.rest) }
    ensures advance { Advances (Kept context.now.source (StringsAreSliced cursor.old.rest) cursor.old.text) cursor.old result cursor.new }
    ensures turns { SettlesShape context.now.schema cursor.old result cursor.new }
{
    if cursor.opens_interval() {
        return read_range(context, cursor, name, list);
    }
    read_name(context, cursor, name)?;
    // Memory is taken in the order in which data is walked.
    let own = String::from_str(context.alloc(), name)?;
    if !cursor.take('(') {
        return Err(Error::ExpectedNamedStructLike(String::from_str(context.alloc(), name)?));
    }
    let fields = read_field_group(context, cursor, name, list)?;
    Ok(Data::Struct(own, fields))
}

/// Reads fields behind the opening parenthesis, and the closing one: their values by name, in the schema's order. The
/// name is that of what holds them.
#[cycle(read)]
pub(crate) fn read_field_group<'o>(
    context: &Context<'_, 'o>,
    cursor: &mut Cursor<'_>,
    name: &str,
    list: &FieldList,
) -> Result<Vec<(String, Data<'o>)>>
    requires in_range { holds_below (length context.now.schema) (struct_view name.now list.now) ≡ true }
    requires distinct { names_differ (map field_view list.now.fields.items) ≡ true }
    ensures value { ReadsFieldGroup context.now (list_view list.now) (left_parenthesis ∷ cursor.old.rest) result
        cursor.new.rest }
    ensures advance { Advances (Kept context.now.source (FieldsAreSliced cursor.old.rest) cursor.old.text) cursor.old result cursor.new }
    ensures turns { SpendsGroup context.now.schema cursor.old result cursor.new }
{
    pass_gap(cursor)?;
    read_fields_inside(context, cursor, name, list)
}

/// Reads fields and the closing parenthesis, where the opening one and its gap are behind. The name is that of what
/// holds them.
#[cycle(read)]
pub(crate) fn read_fields_inside<'o>(
    context: &Context<'_, 'o>,
    cursor: &mut Cursor<'_>,
    name: &str,
    list: &FieldList,
) -> Result<Vec<(String, Data<'o>)>>
    requires in_range { holds_below (length context.now.schema) (struct_view name.now list.now) ≡ true }
    requires distinct { names_differ (map field_view list.now.fields.items) ≡ true }
    ensures value { ReadsFieldsInside context.now (list_view list.now) cursor.old result cursor.new.rest }
    ensures advance { Advances (Kept context.now.source (FieldsAreSliced cursor.old.rest) cursor.old.text) cursor.old result cursor.new }
    ensures turns { SpendsItems context.now.schema cursor.old result cursor.new }
{
    let inner = context.deeper()?;
    let found = read_fields(&inner, cursor, name, list)?;
    let all = found.into_fields(context.alloc(), name, list)?;
    cursor.pass(')');
    Ok(all)
}

/// Reads the fields up to the closing parenthesis, in any order and each at most once: a value or none for each field
/// of the schema. The context is that of the fields' names, a level below the struct.
#[cycle(read)]
fn read_fields<'o>(
    context: &Context<'_, 'o>,
    cursor: &mut Cursor<'_>,
    name: &str,
    list: &FieldList,
) -> Result<Slots<'o>>
    requires in_range { holds_below (length context.now.schema) (struct_view name.now list.now) ≡ true }
    requires distinct { names_differ (map field_view list.now.fields.items) ≡ true }
    ensures named { IfOk result (λ found. AreSlotsFor list.now.fields.items found) }
    ensures closed { OnOk result (is_at right_parenthesis cursor.new.rest ≡ true) }
    ensures value { ReadsFields context.now (list_view list.now) (slots_in list.now.fields.items) cursor.old result
        cursor.new.rest }
    ensures advance { Advances
        (Kept context.now.source (SlotsAreSliced list.now.fields.items cursor.old.rest) cursor.old.text) cursor.old result cursor.new }
    ensures turns { SpendsItems context.now.schema cursor.old result cursor.new }
{
    let mut found = Slots::new(context.alloc(), list)?;
    'fields: while !cursor.is_at(')') {
        let item = read_field(context, cursor, name, list, &found)?;
        put(context.alloc(), &mut found, list, item)?;
        read_comma(cursor, ')')?;
    }
    Ok(found)
}

/// Reads a field's name, the colon and the field's value: the field's index in the schema's list, and the value. None
/// where the name is unknown; the value is then skipped, and stands as deep as a field's.
#[cycle(read)]
fn read_field<'o>(
    context: &Context<'_, 'o>,
    cursor: &mut Cursor<'_>,
    outer: &str,
    list: &FieldList,
    found: &Slots<'o>,
) -> Result<Option<(usize, Data<'o>)>>
    requires in_range { holds_below (length context.now.schema) (struct_view outer.now list.now) ≡ true }
    requires distinct { names_differ (map field_view list.now.fields.items) ≡ true }
    ensures shorter { OnOk result (length cursor.new.rest < length cursor.old.rest) }
    ensures index { IfOk result (λ item. IfSome item (λ i. IsFree list.now.fields.items found.now i.0)) }
    ensures value { ReadsField context.now (list_view list.now) (slots_in list.now.fields.items found.now) cursor.old
        result cursor.new.rest }
    ensures advance { Advances (Kept context.now.source (ItemIsSliced cursor.old.rest) cursor.old.text) cursor.old result cursor.new }
    ensures turns { SpendsItems context.now.schema cursor.old result cursor.new }
    ensures leads { LeadsPast cursor.old result cursor.new }
{
    let field = read_field_name(context.alloc(), cursor, outer, list, found)?;
    let inner = context.deeper()?;
    let Some(index) = field else {
        skip_untyped(&inner, cursor)?;
        return Ok(None);
    };
    let fields = list.fields.as_slice();
    let value = read_value(&inner, cursor, fields[index].shape)?;
    Ok(Some((index, value)))
}
