//! Reading bytes: a byte string, or a list of `u8` in brackets.
// A string in place of bytes: what doesn't begin as bytes do is refused before it is looked at further, so no memory
// is wanted.

ghost use Rattle.std.specs.Prelude.{◌≡◌, true, false, ◌<◌, ◌≤◌, Some, chars, length, IfOk, OnOk, IfErr};
ghost use Rattle.ron_spec_words.specs.Characters.{left_bracket, right_bracket};
ghost use Rattle.ron_spec_words.specs.Runs.{is_at};
ghost use Rattle.ron_de_steps.specs.Reads.{Reads};
ghost use Rattle.ron_data.specs.Datum.{data_view};
ghost use Rattle.ron_de_steps.specs.Advance.{Advances};
ghost use Rattle.ron_de_parts.specs.Bytes.{begins_byte_string, ExpectsBytes, read_quoted, ReadsByteList, ReadsByte, ReadsBytes};
ghost use Rattle.ron_de_parts.specs.Errors.{IsOfReading};
ghost use Rattle.ron_de_parts.specs.Kept.{Kept};
ghost use Rattle.ron_de_parts.specs.Slices.{IsSliced, StringsAreSliced};
ghost use Rattle.ron_de_parts.specs.Turns.{SettlesLeaf};
ghost use Rattle.ron_lex.specs.Turns.{Moves};
ghost use Rattle.ron_de_steps.specs.Spends.{Nears};

use crate::context::Context;
use crate::kept::keep_bytes;
use crate::leaves::read_number;
use ron_base::error::{Error, Result};
use ron_data::data::Data;
use ron_de_steps::gap::pass_gap;
use ron_de_steps::steps::read_comma;
use ron_de_steps::strings;
use ron_lex::cursor::Cursor;
use ron_lex_text::parsed::ParsedByteStr;
use ron_lex_text::text::begins_with;
use ron_value_number::{Number, Width};

/// Reads bytes. A byte string is a slice of the text, where these are taken, unless it holds an escape or a
/// continuation; a list takes one level, and one more for its items.
#[inline(never)]
pub fn read_bytes<'o>(context: &Context<'_, 'o>, cursor: &mut Cursor<'_>) -> Result<Data<'o>>
    ensures value { ReadsBytes context.now cursor.old result cursor.new.rest }
    ensures missing { ExpectsBytes cursor.old.rest result }
    ensures slice { context.now.source ≡ Some cursor.old.text → IfOk result (IsSliced cursor.old.rest cursor.new.rest) }
    ensures advance { Advances (Kept context.now.source (StringsAreSliced cursor.old.rest) cursor.old.text) cursor.old result cursor.new }
    ensures turns { SettlesLeaf cursor.old result cursor.new }
{
    if !cursor.take('[') {
        return read_byte_string(context, cursor);
    }
    pass_gap(cursor)?;
    let inner = context.deeper()?;
    let bytes = read_byte_list(&inner, cursor)?;
    cursor.pass(']');
    Ok(Data::Bytes(ParsedByteStr::Allocated(bytes)))
}

/// Reads a byte string. What begins as none is not looked at further: a string in its place is refused as any other
/// text.
fn read_byte_string<'o>(context: &Context<'_, 'o>, cursor: &mut Cursor<'_>) -> Result<Data<'o>>
    requires { is_at left_bracket cursor.old.rest ≡ false }
    ensures value { Reads data_view result (read_quoted cursor.old.rest) cursor.new.rest }
    ensures missing { ExpectsBytes cursor.old.rest result }
    ensures slice { context.now.source ≡ Some cursor.old.text → IfOk result (IsSliced cursor.old.rest cursor.new.rest) }
    ensures advance { Advances (Kept context.now.source (StringsAreSliced cursor.old.rest) cursor.old.text) cursor.old result cursor.new }
    ensures turns { SettlesLeaf cursor.old result cursor.new }
{
    let start = cursor.rest();
    if !begins_byte_string(start) {
        return Err(Error::ExpectedByteString);
    }
    let bytes = strings::read_byte_string(context.alloc(), cursor)?;
    let kept = keep_bytes(context, start, bytes)?;
    Ok(Data::Bytes(kept))
}

/// Whether a text begins as a byte string does.
#[tactic(auto, unfolding(ron_lex_text::proofs::StretchLemmas::literals))]
fn begins_byte_string(text: &str) -> bool
    ensures { result ≡ begins_byte_string (chars text.now) }
{
    begins_with(text, "b\"") || begins_with(text, "br")
}

/// Reads the bytes up to the closing bracket. The context is that of the list's items, a level below the bytes.
fn read_byte_list(context: &Context<'_, '_>, cursor: &mut Cursor<'_>) -> Result<Vec<u8>>
    ensures text { cursor.new.text ≡ cursor.old.text }
    ensures no_longer { OnOk result (length cursor.new.rest ≤ length cursor.old.rest) }
    ensures closed { OnOk result (is_at right_bracket cursor.new.rest ≡ true) }
    ensures value { ReadsByteList context.now cursor.old result cursor.new.rest }
    ensures fault { IfErr result IsOfReading }
    ensures turns { Moves 1 cursor.old result cursor.new }
    ensures near { OnOk result (Nears cursor.old cursor.new) }
{
    let mut bytes = Vec::new(context.alloc());
    'items: while !cursor.is_at(']') {
        let byte = read_byte(context, cursor)?;
        bytes.push(byte)?;
        read_comma(cursor, ']')?;
    }
    Ok(bytes)
}

/// Reads one of the bytes of a list, a level below the list's own.
fn read_byte(context: &Context<'_, '_>, cursor: &mut Cursor<'_>) -> Result<u8>
    ensures text { cursor.new.text ≡ cursor.old.text }
    ensures shorter { OnOk result (length cursor.new.rest < length cursor.old.rest) }
    ensures value { ReadsByte context.now cursor.old result cursor.new.rest }
    ensures fault { IfErr result IsOfReading }
    ensures turns { Moves 1 cursor.old result cursor.new }
    ensures near { OnOk result (Nears cursor.old cursor.new) }
{
    let _item = context.deeper()?;
    match read_number(context.alloc(), cursor, Width::U8)? {
        Number::U8(byte) => Ok(byte),
        _ => unreachable!(),
    }
}
