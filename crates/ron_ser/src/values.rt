//! Writing one value without a schema.
ghost use Rattle.std.specs.Prelude.{◌≡◌, false, codes, map};
ghost use Rattle.ron_value.specs.Tree.{some, items_from, pairs_from};
ghost use Rattle.ron_value.specs.View.{tree_of, pair_tree};
ghost use Rattle.ron_spec_grammar.specs.Data.{value_of};
ghost use Rattle.ron_spec_layout.specs.Keeping.{value_keeps};
ghost use Rattle.ron_ser.specs.Piece.{Tries, IsKnown, deeper, enclosed, value_piece, values_piece, entries_piece};
ghost use Rattle.ron_ser.specs.Place.{inside};
ghost use Rattle.ron_ser.specs.Stand.{place_of};

use crate::around::{write_before, write_behind, write_colon};
use crate::container::Container;
use crate::leaves::{write_boolean, write_number, write_unit};
use crate::quoted::{write_byte_string, write_character, write_string};
use crate::refusal::{Refusal, Written};
use crate::somes::{Manner, Somes};
use crate::writing::Writing;
use ron_base_device::output::Output;
use ron_value::value::Value;

/// Writes a value without a schema in this manner, as data of its own form is written.
#[cycle(write_any)]
pub fn write_any<'v, O: Output>(
    out: &mut O,
    value: &'v Value,
    writing: &Writing,
    manner: Manner,
) -> Written<'v>
    ensures { IsKnown manner.somes (value_keeps (tree_of value.now))
        → Tries O.puts writing.now.limit out.old
        (value_piece (place_of writing.now) manner.bare (value_of (tree_of value.now))) out.new result }
{
    match value {
        Value::Bool(b) => Ok(write_boolean(out, *b)),
        Value::Char(c) => Ok(write_character(out, *c)),
        Value::Map(held) => write_entries(out, held.as_slice(), writing),
        Value::Number(number) => { Ok(write_number(out, *number, writing.suffixes_numbers())) }
        Value::Option(option) => match option {
            None => Ok(out.put("None")),
            Some(content) => write_some(out, content, writing, manner),
        },
        Value::String(text) => { Ok(write_string(out, text.as_str(), writing.escapes_strings())) }
        Value::Bytes(bytes) => {
            Ok(write_byte_string(out, bytes.as_slice(), writing.escapes_strings()))
        }
        Value::Seq(items) => write_items(out, items.as_slice(), writing),
        Value::Unit => Ok(write_unit(out, manner.bare)),
    }
}

/// Writes what a `Some` holds, and the `Some` around it where that can't be left out.
#[cycle(write_any)]
fn write_some<'v, O: Output>(
    out: &mut O,
    content: &'v Value,
    writing: &Writing,
    manner: Manner,
) -> Written<'v>
    ensures { IsKnown manner.somes (value_keeps (tree_of content.now))
        → Tries O.puts writing.now.limit out.old
        (value_piece (place_of writing.now) manner.bare (value_of (some (tree_of content.now)))) out.new result }
{
    if !writing.leaves_somes_out() {
        let unwraps = writing.unwraps_variants();
        let explicit = Manner {
            bare: unwraps,
            somes: Somes::Unasked,
        };
        return write_content(out, content, writing, explicit);
    }
    if value_is_kept(manner.somes, content) {
        let kept = Manner {
            somes: Somes::Kept,
            ..manner
        };
        write_content(out, content, writing, kept)
    } else {
        let left_out = Manner {
            somes: Somes::LeftOut,
            ..manner
        };
        write_inner(out, content, writing, left_out)
    }
}

/// Writes a `Some` with what it holds.
#[cycle(write_any)]
fn write_content<'v, O: Output>(
    out: &mut O,
    value: &'v Value,
    writing: &Writing,
    manner: Manner,
) -> Written<'v>
    ensures { IsKnown manner.somes (value_keeps (tree_of value.now))
        → Tries O.puts writing.now.limit out.old
        (enclosed (codes "Some(") (deeper (value_piece (place_of writing.now) manner.bare (value_of (tree_of value.now))))
        (codes ")")) out.new result }
{
    out.put("Some(");
    write_inner(out, value, writing, manner)?;
    out.put(")");
    Ok(())
}

/// Writes a value that stands in another: one level deeper.
#[cycle(write_any)]
fn write_inner<'v, O: Output>(
    out: &mut O,
    value: &'v Value,
    writing: &Writing,
    manner: Manner,
) -> Written<'v>
    ensures { IsKnown manner.somes (value_keeps (tree_of value.now))
        → Tries O.puts writing.now.limit out.old
        (deeper (value_piece (place_of writing.now) manner.bare (value_of (tree_of value.now)))) out.new result }
{
    let Some(inner) = writing.deeper() else {
        return Err(Refusal::Depth);
    };
    write_any(out, value, &inner, manner)
}

/// Writes an item of a list, or a key or a value of a map: one level deeper.
#[cycle(write_any)]
#[inline(always)]
fn write_item<'v, O: Output>(
    out: &mut O,
    value: &'v Value,
    container: Container,
    writing: &Writing,
) -> Written<'v>
    ensures { Tries O.puts writing.now.limit out.old
        (deeper (value_piece (inside container (place_of writing.now)) false (value_of (tree_of value.now)))) out.new result }
{
    let Some(inner) = writing.deeper_inside(container) else {
        return Err(Refusal::Depth);
    };
    let manner = Manner {
        bare: false,
        somes: Somes::Unasked,
    };
    write_any(out, value, &inner, manner)
}

/// Writes the items of a list, in square brackets.
#[cycle(write_any)]
fn write_items<'v, O: Output>(out: &mut O, items: &'v [Value], writing: &Writing) -> Written<'v>
    ensures { Tries O.puts writing.now.limit out.old
        (enclosed (codes "[") (values_piece (place_of writing.now) (items_from (map tree_of items.now))) (codes "]"))
        out.new result }
{
    out.put("[");
    for (i, item) in items.iter().enumerate() {
        write_before(out, i, Container::List, writing);
        write_item(out, item, Container::List, writing)?;
    }
    write_behind(out, items.len(), Container::List, writing);
    out.put("]");
    Ok(())
}

/// Writes the keys of a map with their values, in braces.
#[cycle(write_any)]
fn write_entries<'v, O: Output>(
    out: &mut O,
    pairs: &'v [(Value, Value)],
    writing: &Writing,
) -> Written<'v>
    ensures { Tries O.puts writing.now.limit out.old
        (enclosed (codes "{") (entries_piece (place_of writing.now) (pairs_from (map pair_tree pairs.now))) (codes "}"))
        out.new result }
{
    out.put("{");
    for (i, (key, value)) in pairs.iter().enumerate() {
        write_before(out, i, Container::Map, writing);
        write_item(out, key, Container::Map, writing)?;
        write_colon(out, writing);
        write_item(out, value, Container::Map, writing)?;
    }
    write_behind(out, pairs.len(), Container::Map, writing);
    out.put("}");
    Ok(())
}

/// Whether the `Some`s around this value have to be written under implicit_some: `None` stands in it, in nothing but
/// `Some`s.
pub fn value_keeps_somes(value: &Value) -> bool
    ensures { result ≡ value_keeps (tree_of value.now) }
{
    match value {
        Value::Option(option) => match option {
            None => true,
            Some(content) => value_keeps_somes(content),
        },
        Value::Bool(_)
        | Value::Char(_)
        | Value::Map(_)
        | Value::Number(_)
        | Value::String(_)
        | Value::Bytes(_)
        | Value::Seq(_)
        | Value::Unit => false,
    }
}

/// Whether that is so of a value of which it may be known.
fn value_is_kept(somes: Somes, value: &Value) -> bool
    ensures { IsKnown somes (value_keeps (tree_of value.now)) → result ≡ value_keeps (tree_of value.now) }
{
    match somes {
        Somes::Kept => true,
        Somes::LeftOut => false,
        Somes::Unasked => value_keeps_somes(value),
    }
}
