//! Reading enums.
ghost use Rattle.std.specs.Prelude.{◌≡◌, ◌<◌, true, length, IfOk};
ghost use Rattle.ron_spec_grammar.specs.Schema.{holds_below, has_distinct_names, variant_below, variant_has_distinct_names};
ghost use Rattle.ron_data_schema.specs.Shapes.{enum_view, content_view};
ghost use Rattle.ron_de_steps.specs.Advance.{Advances};
ghost use Rattle.ron_de_parts.specs.Kept.{Kept};
ghost use Rattle.ron_de_parts.specs.Slices.{IsSliced, StringsAreSliced, ContentIsSliced};
ghost use Rattle.ron_de_parts.specs.Values.{ReadsShape};
ghost use Rattle.ron_de_parts.specs.Variants.{ReadsVariant};
ghost use Rattle.ron_de.specs.Turns.{SettlesShape};

use crate::content::read_content;
use crate::structs::read_field_group;
use crate::tuples::read_tuple_items;
use ron_base::error::{Error, Result};
use ron_data::data::{Data, VariantData};
use ron_data_schema::schema::VariantShape;
use ron_de_parts::content::Holder;
use ron_de_parts::context::Context;
use ron_de_parts::tuples::Owner;
use ron_de_parts::variants::read_variant_name;
use ron_de_steps::gap::pass_gap;
use ron_lex::cursor::Cursor;

/// Reads an enum: a variant's name, and what the variant holds.
#[cycle(read)]
#[inline(never)]
pub(crate) fn read_enum<'o>(
    context: &Context<'_, 'o>,
    cursor: &mut Cursor<'_>,
    name: &str,
    variants: &[(String, VariantShape)],
) -> Result<Data<'o>>
    requires in_range { holds_below (length context.now.schema) (enum_view name.now variants.now) ≡ true }
    requires distinct { has_distinct_names (enum_view name.now variants.now) ≡ true }
    ensures value { ReadsShape context.now (enum_view name.now variants.now) cursor.old result cursor.new.rest }
    ensures slice { IfOk result (IsSliced cursor.old.rest cursor.new.rest) }
    ensures advance { Advances (Kept context.now.source (StringsAreSliced cursor.old.rest) cursor.old.text) cursor.old result cursor.new }
    ensures turns { SettlesShape context.now.schema cursor.old result cursor.new }
{
    // The variant's name stands a level below the enum, as its content does.
    let inner = context.deeper()?;
    inner.deeper()?;
    let found = read_variant_name(context.alloc(), cursor, name, variants)?;
    let variant = &variants[found];
    let content = read_variant_content(&inner, cursor, name, variant.0.as_str(), &variant.1)?;
    let name = String::from_str(context.alloc(), name)?;
    let variant = String::from_str(context.alloc(), variant.0.as_str())?;
    Ok(Data::Variant {
        name,
        variant,
        content,
    })
}

/// Reads what a variant holds: nothing, or a gap and what stands in parentheses.
#[cycle(read)]
fn read_variant_content<'o>(
    context: &Context<'_, 'o>,
    cursor: &mut Cursor<'_>,
    name: &str,
    variant: &str,
    shape: &VariantShape,
) -> Result<VariantData<'o>>
    requires in_range { variant_below (length context.now.schema) (content_view shape.now) ≡ true }
    requires distinct { variant_has_distinct_names (content_view shape.now) ≡ true }
    ensures value { ReadsVariant context.now (content_view shape.now) cursor.old result cursor.new.rest }
    ensures advance { Advances (Kept context.now.source (ContentIsSliced cursor.old.rest) cursor.old.text) cursor.old result cursor.new }
    ensures turns { SettlesShape context.now.schema cursor.old result cursor.new }
{
    match shape {
        VariantShape::Unit => Ok(VariantData::Unit),
        VariantShape::Newtype(index) => {
            pass_gap(cursor)?;
            if !cursor.take('(') {
                return Err(Error::ExpectedStructLike);
            }
            let is_unwrapped = context.unwraps_variants();
            let value = read_content(context, cursor, *index, is_unwrapped, Holder::Struct)?;
            Ok(VariantData::Newtype(Box::new(context.alloc(), value)?))
        }
        VariantShape::Tuple(shapes) => {
            pass_gap(cursor)?;
            if !cursor.take('(') {
                return Err(Error::ExpectedStructLike);
            }
            let owner = Owner::Variant(name, variant);
            let items = read_tuple_items(context, cursor, shapes.as_slice(), owner)?;
            Ok(VariantData::Tuple(items))
        }
        VariantShape::Struct(list) => {
            pass_gap(cursor)?;
            if !cursor.take('(') {
                return Err(Error::ExpectedStructLike);
            }
            let fields = read_field_group(context, cursor, variant, list)?;
            Ok(VariantData::Struct(fields))
        }
    }
}
