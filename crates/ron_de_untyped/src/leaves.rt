//! Values that hold no others.
// Why no value begins. Where neither a form nor a name stands, what stands first names the error. A word or a point
// that the Rust crate reads as a float is `UnsupportedFloat`. `r#` without a name is `ExpectedString`, `br#` without
// a quote `ExpectedByteString`, the end `Eof`, any other character `UnexpectedChar`, each at its place. A float is
// one that the Rust crate reads as such at once. Where it first tries an integer and then falls back on a float, as
// of `-inf`, `1e5` and digits past 128 bits, the integer's own fault stands.

ghost use Rattle.std.specs.Prelude.{◌≡◌, ◌≤◌, length, chars, encode_utf8_all, MatchResult};
ghost use Rattle.ron_spec_words.specs.Name.{untyped_name};
ghost use Rattle.ron_spec_words.specs.Quoted.{char, string, byte_string};
ghost use Rattle.ron_spec_words.specs.Reader.{means};
ghost use Rattle.ron_spec_grammar.specs.Values.Grammar.{character_value, text_value, bytes_value, unit_value};
ghost use Rattle.ron_base.specs.declared.error.Error.TheVariants.{OutOfMemory};
ghost use Rattle.ron_value.specs.Tree as tree;
ghost use Rattle.ron_value.specs.View.{tree_of};
ghost use Rattle.ron_lex.specs.Turns.{Grows, Scans};
ghost use Rattle.ron_de_steps.specs.Advance.{Advances};
ghost use Rattle.ron_de_steps.specs.Errors.{IsOfText};
ghost use Rattle.ron_de_steps.specs.Reads.{Reads};
ghost use Rattle.ron_de_steps.specs.Spends.{SettlesUntyped};
ghost use Rattle.ron_de_untyped.specs.Order.{HoldsOrder};

use ron_base::error::{Error, Result};
use ron_de_steps::faults::quoted_error;
use ron_de_steps::strings;
use ron_lex::cursor::Cursor;
use ron_lex_text::parsed::{ParsedByteStr, ParsedStr};
use ron_value::value::Value;
use std::alloc::Global;

/// Reads a char literal.
#[inline(never)]
pub(crate) fn read_char(cursor: &mut Cursor<'_>) -> Result<Value>
    ensures value { Reads tree_of result (means char character_value cursor.old.rest) cursor.new.rest }
    ensures advance { Advances HoldsOrder cursor.old result cursor.new }
    ensures turns { SettlesUntyped cursor.old result cursor.new }
    ensures grows { Grows cursor.old cursor.new }
{
    match cursor.character() {
        Ok(character) => Ok(Value::Char(character)),
        Err(fault) => Err(quoted_error(fault)),
    }
}

/// Reads a string.
#[inline(never)]
pub(crate) fn read_string(alloc: Global, cursor: &mut Cursor<'_>) -> Result<Value>
    ensures value { Reads tree_of result (means string text_value cursor.old.rest) cursor.new.rest }
    ensures advance { Advances HoldsOrder cursor.old result cursor.new }
    ensures turns { SettlesUntyped cursor.old result cursor.new }
    ensures grows { Grows cursor.old cursor.new }
{
    match strings::read_string(alloc, cursor)? {
        ParsedStr::Slice(text) => text_value(alloc, text),
        ParsedStr::Allocated(text) => Ok(Value::String(text)),
    }
}

/// Reads a byte string.
#[inline(never)]
pub(crate) fn read_bytes(alloc: Global, cursor: &mut Cursor<'_>) -> Result<Value>
    ensures value { Reads tree_of result (means byte_string bytes_value cursor.old.rest) cursor.new.rest }
    ensures advance { Advances HoldsOrder cursor.old result cursor.new }
    ensures turns { SettlesUntyped cursor.old result cursor.new }
    ensures grows { Grows cursor.old cursor.new }
{
    match strings::read_byte_string(alloc, cursor)? {
        ParsedByteStr::Slice(bytes) => Value::bytes(alloc, bytes),
        ParsedByteStr::Allocated(bytes) => Ok(Value::Bytes(bytes)),
    }
}

/// Reads a name alone, which stands for the unit.
#[inline(never)]
pub(crate) fn read_unit(cursor: &mut Cursor<'_>) -> Result<Value>
    ensures value { Reads tree_of result (means untyped_name unit_value cursor.old.rest) cursor.new.rest }
    ensures advance { Advances HoldsOrder cursor.old result cursor.new }
    ensures turns { SettlesUntyped cursor.old result cursor.new }
    ensures grows { Grows cursor.old cursor.new }
{
    match cursor.untyped_name() {
        Some(_) => Ok(Value::Unit),
        None => Err(missing_value(cursor)),
    }
}

/// What is reported where no value begins: a float in words or without digits before its point, a raw string without its
/// quote, whose first hash the cursor is then behind, or a character that begins nothing.
fn missing_value(cursor: &mut Cursor<'_>) -> Error
    ensures text { cursor.new.text ≡ cursor.old.text }
    ensures no_longer { length cursor.new.rest ≤ length cursor.old.rest }
    ensures fault { IsOfText result }
    ensures turns { Scans 1 cursor.old cursor.new }
    ensures grows { Grows cursor.old cursor.new }
{
    if is_float_word(cursor) || cursor.opens_fraction() {
        return Error::UnsupportedFloat;
    }
    let Some(first) = cursor.first() else {
        return Error::Eof;
    };
    let holds_bytes = cursor.take('b');
    if !cursor.take('r') {
        return Error::UnexpectedChar(first);
    }
    cursor.take('#');
    if holds_bytes {
        Error::ExpectedByteString
    } else {
        Error::ExpectedString
    }
}

/// Whether a word stands here that the Rust crate reads as a float.
fn is_float_word(cursor: &mut Cursor<'_>) -> bool
    ensures { cursor.new ≡ cursor.old }
{
    cursor.is_word("inf")
        || cursor.is_word("inff32")
        || cursor.is_word("inff64")
        || cursor.is_word("NaN")
        || cursor.is_word("NaNf32")
        || cursor.is_word("NaNf64")
}

/// A copy of a text. Refused by `OutOfMemory` alone.
pub(crate) fn text_value(alloc: Global, text: &str) -> Result<Value>
    ensures { MatchResult result (λ v. tree_of v ≡ tree.text (encode_utf8_all (chars text.now)))
        (λ e. e ≡ OutOfMemory) }
{
    Value::string(alloc, text)
}
