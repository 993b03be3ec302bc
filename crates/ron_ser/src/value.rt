//! Writing one value.
ghost use Rattle.std.specs.Prelude.{◌≡◌, true, false, chars, codes};
ghost use Rattle.ron_spec_grammar.specs.Data.{some_of, newtype_of, struct_of};
ghost use Rattle.ron_spec_layout.specs.Config.{blank};
ghost use Rattle.ron_data.specs.Datum.{data_view, content_view, items_view, pairs_view, fields_view};
ghost use Rattle.ron_ser.specs.Place.{left, right, inside, within};
ghost use Rattle.ron_ser.specs.Written.{keeps_at};
ghost use Rattle.ron_ser.specs.Piece.{Tries, IsKnown, opening, closing, deeper, enclosed};
ghost use Rattle.ron_ser.specs.Piece.{value_piece, content_piece, items_piece, pairs_piece, fields_piece};
ghost use Rattle.ron_ser.specs.declared.container.Container.TheVariants as container;
ghost use Rattle.ron_ser.specs.Stand.{place_of};

use crate::around::{write_before, write_behind, write_colon, write_doc_comment};
use crate::container::{Container, closing, opening};
use crate::leaves::{write_boolean, write_number, write_raw, write_unit, write_unit_struct};
use crate::names::{check_name, write_name, write_struct_name};
use crate::quoted::{write_byte_string, write_character, write_string};
use crate::ranges::write_range;
use crate::refusal::{Refusal, Written};
use crate::somes::{Manner, Somes, are_kept, somes_inside};
use crate::values::write_any;
use crate::writing::Writing;
use ron_base_device::output::Output;
use ron_data::data::{Data, VariantData};

/// Writes a value in this manner.
#[cycle(write)]
pub fn write_piece<'v, O: Output>(
    out: &mut O,
    value: &'v Data,
    writing: &Writing,
    manner: Manner,
) -> Written<'v>
    requires { blank (place_of writing.now).config ≡ true }
    ensures { IsKnown manner.somes (keeps_at (place_of writing.now) manner.bare (data_view value.now))
        → Tries O.puts writing.now.limit out.old
        (value_piece (place_of writing.now) manner.bare (data_view value.now)) out.new result }
{
    let bare = manner.bare;
    match value {
        Data::Bool(b) => Ok(write_boolean(out, *b)),
        Data::Int(number) => Ok(write_number(out, *number, writing.suffixes_numbers())),
        Data::Char(c) => Ok(write_character(out, *c)),
        Data::Str(text) => Ok(write_string(out, text.as_str(), writing.escapes_strings())),
        Data::Bytes(bytes) => {
            Ok(write_byte_string(out, bytes.as_slice(), writing.escapes_strings()))
        }
        Data::Unit => Ok(write_unit(out, bare)),
        Data::Option(option) => match option {
            None => Ok(out.put("None")),
            Some(content) => write_some(out, content, writing, manner),
        },
        Data::Seq(items) => write_items(out, items.as_slice(), Container::List, writing),
        Data::Tuple(items) => {
            write_items(out, items.as_slice(), Container::Tuple { bare }, writing)
        }
        Data::Map(pairs) => write_pairs(out, pairs.as_slice(), writing),
        Data::UnitStruct(name) => write_unit_struct(out, name.as_str(), bare, writing),
        Data::Newtype(name, content) => write_newtype(out, name.as_str(), content, writing, manner),
        Data::TupleStruct(name, items) => {
            write_struct_name(out, name.as_str(), bare, writing)?;
            write_items(out, items.as_slice(), Container::Tuple { bare }, writing)
        }
        Data::Struct(name, fields) => {
            write_struct(out, name.as_str(), fields.as_slice(), writing, bare)
        }
        Data::Variant {
            name,
            variant,
            content,
        } => {
            check_name(name.as_str())?;
            write_name(out, variant.as_str())?;
            write_variant(out, content, writing)
        }
        Data::Value(held) => write_any(out, held.as_value(), writing, manner),
        Data::Raw(raw) => write_raw(out, raw.get_ron(), writing),
    }
}

/// Writes what a `Some` holds, and the `Some` around it where that can't be left out.
#[cycle(write)]
fn write_some<'v, O: Output>(
    out: &mut O,
    content: &'v Data,
    writing: &Writing,
    manner: Manner,
) -> Written<'v>
    requires { blank (place_of writing.now).config ≡ true }
    ensures { IsKnown manner.somes (keeps_at (place_of writing.now) manner.bare (data_view content.now))
        → Tries O.puts writing.now.limit out.old
        (value_piece (place_of writing.now) manner.bare (some_of (data_view content.now))) out.new result }
{
    if !writing.leaves_somes_out() {
        let unwraps = writing.unwraps_variants();
        let explicit = Manner {
            bare: unwraps,
            somes: Somes::Unasked,
        };
        return write_content(out, ("Some(", ")"), content, writing, explicit);
    }
    if are_kept(manner.somes, content, manner.bare, writing) {
        let kept = Manner {
            somes: Somes::Kept,
            ..manner
        };
        write_content(out, ("Some(", ")"), content, writing, kept)
    } else {
        let left_out = Manner {
            somes: Somes::LeftOut,
            ..manner
        };
        write_inner(out, content, writing, left_out)
    }
}

/// Writes a value that stands in another, between these texts.
#[cycle(write)]
fn write_content<'v, O: Output>(
    out: &mut O,
    brackets: (&str, &str),
    value: &'v Data,
    writing: &Writing,
    manner: Manner,
) -> Written<'v>
    requires { blank (place_of writing.now).config ≡ true }
    ensures { IsKnown manner.somes (keeps_at (place_of writing.now) manner.bare (data_view value.now))
        → Tries O.puts writing.now.limit out.old
        (enclosed brackets.entry.0.now (deeper (value_piece (place_of writing.now) manner.bare (data_view value.now)))
        brackets.entry.1.now) out.new result }
{
    out.put(brackets.0);
    write_inner(out, value, writing, manner)?;
    out.put(brackets.1);
    Ok(())
}

/// Writes a value that stands in another: one level deeper.
#[cycle(write)]
#[inline(always)]
fn write_inner<'v, O: Output>(
    out: &mut O,
    value: &'v Data,
    writing: &Writing,
    manner: Manner,
) -> Written<'v>
    requires { blank (place_of writing.now).config ≡ true }
    ensures { IsKnown manner.somes (keeps_at (place_of writing.now) manner.bare (data_view value.now))
        → Tries O.puts writing.now.limit out.old
        (deeper (value_piece (place_of writing.now) manner.bare (data_view value.now))) out.new result }
{
    let Some(inner) = writing.deeper() else {
        return Err(Refusal::Depth);
    };
    write_piece(out, value, &inner, manner)
}

/// Writes an item of a container: one level deeper.
#[cycle(write)]
#[inline(always)]
fn write_item<'v, O: Output>(
    out: &mut O,
    value: &'v Data,
    container: Container,
    writing: &Writing,
) -> Written<'v>
    requires { blank (place_of writing.now).config ≡ true }
    ensures { Tries O.puts writing.now.limit out.old
        (deeper (value_piece (inside container (place_of writing.now)) false (data_view value.now))) out.new result }
{
    let Some(inner) = writing.deeper_inside(container) else {
        return Err(Refusal::Depth);
    };
    let manner = Manner {
        bare: false,
        somes: Somes::Unasked,
    };
    write_piece(out, value, &inner, manner)
}

/// Writes the value of a field of this name, likewise.
#[cycle(write)]
#[inline(always)]
fn write_field<'v, O: Output>(
    out: &mut O,
    name: &'v str,
    value: &'v Data,
    writing: &Writing,
) -> Written<'v>
    requires { blank (place_of writing.now).config ≡ true }
    ensures { Tries O.puts writing.now.limit out.old
        (deeper (value_piece (within (chars name.now) (inside (container.Struct false) (place_of writing.now))) false
        (data_view value.now))) out.new result }
{
    let Some(inner) = writing.deeper_inside(Container::Struct { bare: false }) else {
        return Err(Refusal::Depth);
    };
    let within = inner.within(name);
    let manner = Manner {
        bare: false,
        somes: Somes::Unasked,
    };
    write_piece(out, value, &within, manner)
}

/// Writes a newtype: what it holds, alone where the newtype is bare or unwrapped, and else in brackets behind its name.
#[cycle(write)]
fn write_newtype<'v, O: Output>(
    out: &mut O,
    name: &'v str,
    content: &'v Data,
    writing: &Writing,
    manner: Manner,
) -> Written<'v>
    requires { blank (place_of writing.now).config ≡ true }
    ensures { IsKnown manner.somes (keeps_at (place_of writing.now) manner.bare (newtype_of (chars name.now) (data_view content.now)))
        → Tries O.puts writing.now.limit out.old
        (value_piece (place_of writing.now) manner.bare (newtype_of (chars name.now) (data_view content.now))) out.new result }
{
    let alone = writing.unwraps_newtype(manner.bare);
    let inside = somes_inside(manner.somes, alone);
    let left = opening(alone);
    let right = closing(alone);
    write_struct_name(out, name, alone, writing)?;
    let held = Manner {
        bare: false,
        somes: inside,
    };
    write_content(out, (left, right), content, writing, held)
}

/// Writes what a variant holds, in brackets, and nothing where it holds nothing.
#[cycle(write)]
fn write_variant<'v, O: Output>(
    out: &mut O,
    content: &'v VariantData,
    writing: &Writing,
) -> Written<'v>
    requires { blank (place_of writing.now).config ≡ true }
    ensures { Tries O.puts writing.now.limit out.old
        (content_piece (place_of writing.now) (content_view content.now)) out.new result }
{
    match content {
        VariantData::Unit => Ok(()),
        VariantData::Newtype(value) => {
            let unwraps = writing.unwraps_variants();
            let manner = Manner {
                bare: unwraps,
                somes: Somes::Unasked,
            };
            write_content(out, ("(", ")"), value, writing, manner)
        }
        VariantData::Tuple(items) => {
            write_items(
                out,
                items.as_slice(),
                Container::Tuple { bare: false },
                writing,
            )
        }
        VariantData::Struct(fields) => write_fields(out, fields.as_slice(), false, writing),
    }
}

/// Writes a struct: as a range where that is asked for, and else its fields, behind its name where names are written.
#[cycle(write)]
fn write_struct<'v, O: Output>(
    out: &mut O,
    name: &'v str,
    fields: &'v [(String, Data)],
    writing: &Writing,
    bare: bool,
) -> Written<'v>
    requires { blank (place_of writing.now).config ≡ true }
    ensures { Tries O.puts writing.now.limit out.old
        (value_piece (place_of writing.now) bare (struct_of (chars name.now) (fields_view fields.now))) out.new result }
{
    if let Some(range) = writing.struct_range(name, fields) {
        write_range(out, range, writing.suffixes_numbers());
        return Ok(());
    }
    write_struct_name(out, name, bare, writing)?;
    write_fields(out, fields, bare, writing)
}

/// Writes the items of a list or a tuple, in brackets.
#[cycle(write)]
fn write_items<'v, O: Output>(
    out: &mut O,
    items: &'v [Data],
    container: Container,
    writing: &Writing,
) -> Written<'v>
    requires { blank (place_of writing.now).config ≡ true }
    ensures { Tries O.puts writing.now.limit out.old
        (enclosed (left container) (items_piece (place_of writing.now) container (items_view items.now)) (right container))
        out.new result }
{
    out.put(container.left());
    for (i, item) in items.iter().enumerate() {
        write_before(out, i, container, writing);
        write_item(out, item, container, writing)?;
    }
    write_behind(out, items.len(), container, writing);
    out.put(container.right());
    Ok(())
}

/// Writes the keys of a map with their values, in braces.
#[cycle(write)]
fn write_pairs<'v, O: Output>(
    out: &mut O,
    pairs: &'v [(Data, Data)],
    writing: &Writing,
) -> Written<'v>
    requires { blank (place_of writing.now).config ≡ true }
    ensures { Tries O.puts writing.now.limit out.old
        (enclosed (codes "{") (pairs_piece (place_of writing.now) (pairs_view pairs.now)) (codes "}")) out.new result }
{
    out.put("{");
    for (i, (key, value)) in pairs.iter().enumerate() {
        write_before(out, i, Container::Map, writing);
        write_item(out, key, Container::Map, writing)?;
        write_colon(out, writing);
        write_item(out, value, Container::Map, writing)?;
    }
    write_behind(out, pairs.len(), Container::Map, writing);
    out.put("}");
    Ok(())
}

/// Writes fields behind their doc comments, in brackets where they aren't bare.
#[cycle(write)]
fn write_fields<'v, O: Output>(
    out: &mut O,
    fields: &'v [(String, Data)],
    bare: bool,
    writing: &Writing,
) -> Written<'v>
    requires { blank (place_of writing.now).config ≡ true }
    ensures { Tries O.puts writing.now.limit out.old
        (enclosed (opening bare) (fields_piece (place_of writing.now) (fields_view fields.now)) (closing bare)) out.new result }
{
    let container = Container::Struct { bare };
    out.put(opening(bare));
    for (i, (name, value)) in fields.iter().enumerate() {
        write_before(out, i, container, writing);
        write_doc_comment(out, name.as_str(), container, writing);
        write_name(out, name.as_str())?;
        write_colon(out, writing);
        write_field(out, name.as_str(), value, writing)?;
    }
    write_behind(out, fields.len(), container, writing);
    out.put(closing(bare));
    Ok(())
}
