//! Pieces that hold no values.
ghost use Rattle.std.specs.Prelude.{◌≡◌, chars};
ghost use Rattle.std.specs.Fmt.{WritesInCalls, signed_decimal};
ghost use Rattle.ron_spec_grammar.specs.Data.{unit_struct_of};
ghost use Rattle.ron_spec_layout.specs.Brackets.{written_bool};
ghost use Rattle.ron_spec_layout.specs.Literals.{number_text};
ghost use Rattle.ron_value_number.specs.Number.{number_value, number_width};
ghost use Rattle.ron_ser.specs.Piece.{Tries, value_piece, plain, deeper, unit_bytes};
ghost use Rattle.ron_ser.specs.Stand.{place_of};

use crate::names::write_struct_name;
use crate::ranges::write_range;
use crate::refusal::{Refusal, Written};
use crate::writing::Writing;
use itoa::Buffer;
use ron_base_device::output::Output;
use ron_value_number::Number;

/// Writes the word of a boolean.
pub fn write_boolean<O: Output>(out: &mut O, b: bool)
    ensures { WritesInCalls O.puts out.old (written_bool b) out.new }
{
    if b {
        out.put("true");
    } else {
        out.put("false");
    }
}

/// Writes the unit: `()`, and nothing where it is bare.
pub fn write_unit<O: Output>(out: &mut O, bare: bool)
    ensures { WritesInCalls O.puts out.old (unit_bytes bare) out.new }
{
    if !bare {
        out.put("()");
    }
}

/// Writes a number in decimal, with the word of its width behind it where numbers take their suffixes.
pub fn write_number<O: Output>(out: &mut O, number: Number, suffixes: bool)
    ensures { WritesInCalls O.puts out.old
        (number_text suffixes (number_width number) (number_value number)) out.new }
{
    write_digits(out, number);
    if suffixes {
        out.put(number.width().name());
    }
}

/// Writes the digits of a number, behind its sign.
#[inline(always)]
fn write_digits<O: Output>(out: &mut O, number: Number)
    ensures { WritesInCalls O.puts out.old (signed_decimal (number_value number)) out.new }
{
    let mut buffer = Buffer::new();
    out.put(digits(&mut buffer, number));
}

/// The digits of a number, behind its sign. One that fits 64 bits is never widened to 128.
#[inline(always)]
fn digits(buffer: &mut Buffer, number: Number) -> &str
    ensures { result.now ≡ signed_decimal (number_value number) }
{
    match number {
        Number::I8(n) => buffer.format(n),
        Number::I16(n) => buffer.format(n),
        Number::I32(n) => buffer.format(n),
        Number::I64(n) => buffer.format(n),
        Number::I128(n) => buffer.format(n),
        Number::U8(n) => buffer.format(n),
        Number::U16(n) => buffer.format(n),
        Number::U32(n) => buffer.format(n),
        Number::U64(n) => buffer.format(n),
        Number::U128(n) => buffer.format(n),
    }
}

/// Writes a struct without fields: as a range where that is asked for, else its name where names are written, `()` where
/// they aren't, and nothing where it is bare. A name that no identifier spells is refused.
pub fn write_unit_struct<'a, O: Output>(
    out: &mut O,
    name: &'a str,
    bare: bool,
    writing: &Writing,
) -> Written<'a>
    ensures { Tries O.puts writing.now.limit out.old
        (value_piece (place_of writing.now) bare (unit_struct_of (chars name.now))) out.new result }
{
    if let Some(range) = writing.unit_struct_range(name) {
        write_range(out, range, writing.suffixes_numbers());
        return Ok(());
    }
    write_struct_name(out, name, bare, writing)?;
    if writing.requires_names() {
        return Ok(());
    }
    write_unit(out, bare);
    Ok(())
}

/// Writes a raw text as it is. It takes a level, and is refused where none is left.
pub fn write_raw<'a, O: Output>(out: &mut O, raw: &'a str, writing: &Writing) -> Written<'a>
    ensures { Tries O.puts writing.now.limit out.old (deeper (plain raw.now)) out.new result }
{
    let Some(_) = writing.deeper() else {
        return Err(Refusal::Depth);
    };
    out.put(raw);
    Ok(())
}
