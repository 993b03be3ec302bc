//! Values that hold no others.
// A suffix's width is asked after its value. Where the value doesn't lie in the suffix's own width, that is
// `IntegerOutOfBounds`, whatever width is wanted; else another width is `InvalidValueForType`.

ghost use Rattle.std.specs.Prelude.{◌≡◌, ◌⊎◌, false, ◌<◌, ◌≤◌, Some, length, chars, IfOk, OnOk, IfErr, MatchResult};
ghost use Rattle.ron_spec_words.specs.Name.{named};
ghost use Rattle.ron_spec_words.specs.Reader.{failed, bad};
ghost use Rattle.ron_spec_words.specs.Quoted.{String};
ghost use Rattle.ron_spec_grammar.specs.Shapes.Int.{read_int};
ghost use Rattle.ron_spec_grammar.specs.Shapes.Bool.{read_bool};
ghost use Rattle.ron_spec_grammar.specs.Shapes.Unit.{read_unit};
ghost use Rattle.ron_spec_grammar.specs.Shapes.UnitStruct.{read_unit_struct};
ghost use Rattle.ron_spec_grammar.specs.Shapes.Char.{read_char};
ghost use Rattle.ron_spec_grammar.specs.Shapes.Str.{read_str};
ghost use Rattle.ron_base.specs.declared.error.Error.TheVariants.{OutOfMemory};
ghost use Rattle.ron_lex.specs.Turns.{Moves};
ghost use Rattle.ron_lex.specs.Quoted.{HoldsEscape};
ghost use Rattle.ron_de_steps.specs.Reads.{Reads};
ghost use Rattle.ron_data.specs.Datum.{data_view};
ghost use Rattle.ron_de_steps.specs.Steps.{GoesTo};
ghost use Rattle.ron_de_steps.specs.Advance.{Advances};
ghost use Rattle.ron_de_steps.specs.Spends.{Nears};
ghost use Rattle.ron_de_parts.specs.Errors.{IsOfReading, IsOfText};
ghost use Rattle.ron_de_parts.specs.Kept.{Kept};
ghost use Rattle.ron_de_parts.specs.Slices.{IsSliced, StringsAreSliced};
ghost use Rattle.ron_spec_words.specs.Scan.{left_by};
ghost use Rattle.ron_de_parts.specs.Turns.{SettlesLeaf};
ghost use Rattle.ron_de_parts.specs.Values.{number_view};

use crate::context::Context;
use crate::kept::keep_text;
use crate::names::take_name;
use crate::ranges::read_full_range;
use ron_base::error::{Error, Result};
use ron_data::data::Data;
use ron_de_steps::faults::{integer_error, quoted_error};
use ron_de_steps::strings::read_string;
use ron_lex::cursor::Cursor;
use ron_lex_text::text::Class;
use ron_value_number::{Number, Width, number_in};
use std::alloc::Global;

/// Reads an integer as data, as `read_number` does.
pub fn read_integer<'o>(alloc: Global, cursor: &mut Cursor<'_>, width: Width) -> Result<Data<'o>>
    ensures value { Reads data_view result (read_int width false cursor.old.rest) cursor.new.rest }
    ensures refused { IfErr result (λ _. read_int width false cursor.old.rest ≡ failed bad) }
    ensures slice { IfOk result (IsSliced cursor.old.rest cursor.new.rest) }
    ensures advance { Advances (StringsAreSliced cursor.old.rest cursor.old.text) cursor.old result cursor.new }
    ensures turns { SettlesLeaf cursor.old result cursor.new }
{
    Ok(Data::Int(read_number(alloc, cursor, width)?))
}

/// Reads an integer whose value lies in the width, with no suffix or the width's own; for `u8` also a byte literal.
/// Memory is wanted only to tell that another width's suffix stands there.
pub fn read_number(alloc: Global, cursor: &mut Cursor<'_>, width: Width) -> Result<Number>
    ensures text { cursor.new.text ≡ cursor.old.text }
    ensures value { Reads number_view result (read_int width false cursor.old.rest) cursor.new.rest }
    ensures refused { IfErr result (λ _. read_int width false cursor.old.rest ≡ failed bad) }
    ensures shorter { OnOk result (length cursor.new.rest < length cursor.old.rest) }
    ensures fault { IfErr result IsOfReading }
    ensures turns { Moves 1 cursor.old result cursor.new }
    ensures near { OnOk result (Nears cursor.old cursor.new) }
{
    let numeral = match cursor.any_integer() {
        Ok(numeral) => numeral,
        Err(fault) => return Err(integer_error(fault)),
    };
    let own = match numeral.suffix {
        Some(suffix) => suffix,
        None => width,
    };
    match number_in(own, numeral.is_negative, numeral.magnitude) {
        None => Err(Error::IntegerOutOfBounds),
        Some(number) if own == width => Ok(number),
        Some(_) => Err(other_width(alloc, width, numeral.literal)?),
    }
}

/// What is reported of an integer with the suffix of another width.
#[cold]
#[inline(never)]
fn other_width(alloc: Global, width: Width, literal: &str) -> Result<Error>
    ensures { MatchResult result IsOfText (λ e. e ≡ OutOfMemory) }
{
    let sign = if width.is_signed() {
        "signed"
    } else {
        "unsigned"
    };
    Ok(Error::InvalidValueForType {
        expected: format!(in alloc; "an {}-bit {sign} integer", width.bits())?,
        found: String::from_str(alloc, literal)?,
    })
}

/// Reads the word `true` or `false`. No memory is wanted.
#[tactic(auto, unfolding(ron_lex_text::proofs::StretchLemmas::literals))]
pub fn read_bool<'o>(cursor: &mut Cursor<'_>) -> Result<Data<'o>>
    ensures text { cursor.new.text ≡ cursor.old.text }
    ensures value { Reads data_view result (read_bool false cursor.old.rest) cursor.new.rest }
    ensures refused { IfErr result (λ _. read_bool false cursor.old.rest ≡ failed bad) }
    ensures slice { IfOk result (IsSliced cursor.old.rest cursor.new.rest) }
    ensures slices { IfOk result (StringsAreSliced cursor.old.rest cursor.old.text) }
    ensures no_longer { OnOk result (length cursor.new.rest ≤ length cursor.old.rest) }
    ensures fault { IfErr result IsOfText }
    ensures turns { SettlesLeaf cursor.old result cursor.new }
{
    if cursor.take_word("true") {
        return Ok(Data::Bool(true));
    }
    if cursor.take_word("false") {
        return Ok(Data::Bool(false));
    }
    Err(Error::ExpectedBoolean)
}

/// Reads `()`, with no gap within. No memory is wanted.
#[tactic(auto, unfolding(ron_lex_text::proofs::StretchLemmas::literals))]
#[inline(never)]
pub fn read_unit<'o>(cursor: &mut Cursor<'_>) -> Result<Data<'o>>
    ensures text { cursor.new.text ≡ cursor.old.text }
    ensures value { Reads data_view result (read_unit false cursor.old.rest) cursor.new.rest }
    ensures refused { IfErr result (λ _. read_unit false cursor.old.rest ≡ failed bad) }
    ensures slice { IfOk result (IsSliced cursor.old.rest cursor.new.rest) }
    ensures slices { IfOk result (StringsAreSliced cursor.old.rest cursor.old.text) }
    ensures no_longer { OnOk result (length cursor.new.rest ≤ length cursor.old.rest) }
    ensures fault { IfErr result IsOfText }
    ensures turns { SettlesLeaf cursor.old result cursor.new }
{
    if cursor.take_text("()") {
        Ok(Data::Unit)
    } else {
        Err(Error::ExpectedUnit)
    }
}

/// Reads a unit struct: its name, or `()` where no name is required, and `..` for the range of all.
#[tactic(auto, unfolding(ron_lex_text::proofs::StretchLemmas::literals))]
#[inline(never)]
pub fn read_unit_struct<'o>(
    context: &Context<'_, 'o>,
    cursor: &mut Cursor<'_>,
    name: &str,
) -> Result<Data<'o>>
    ensures value { Reads data_view result
        (read_unit_struct context.now.extensions.explicit_struct_names (chars name.now) false cursor.old.rest)
        cursor.new.rest }
    ensures slice { IfOk result (IsSliced cursor.old.rest cursor.new.rest) }
    ensures advance { Advances (StringsAreSliced cursor.old.rest cursor.old.text) cursor.old result cursor.new }
    ensures turns { SettlesLeaf cursor.old result cursor.new }
{
    if cursor.opens_interval() {
        return read_full_range(context, cursor, name);
    }
    if !cursor.is_at('(') {
        take_unit_name(context, cursor, name)?;
        return Ok(Data::UnitStruct(String::from_str(context.alloc(), name)?));
    }
    if context.requires_names() {
        return Err(Error::ExpectedStructName(String::from_str(context.alloc(), name)?));
    }
    if !cursor.take_text("()") {
        return Err(Error::ExpectedUnit);
    }
    Ok(Data::UnitStruct(String::from_str(context.alloc(), name)?))
}

/// Goes past a unit struct's name. Where none begins, a unit is missing.
pub(crate) fn take_unit_name(
    context: &Context<'_, '_>,
    cursor: &mut Cursor<'_>,
    name: &str,
) -> Result<()>
    ensures text { cursor.new.text ≡ cursor.old.text }
    ensures value { GoesTo (left_by (named (chars name.now) cursor.old.rest)) result cursor.new.rest }
    ensures no_longer { OnOk result (length cursor.new.rest ≤ length cursor.old.rest) }
    ensures fault { IfErr result IsOfReading }
    ensures turns { Moves 1 cursor.old result cursor.new }
    ensures near { OnOk result (Nears cursor.old cursor.new) }
{
    let is_name = cursor.is_at_class(Class::NameContinue);
    match take_name(context, cursor, name) {
        Err(Error::ExpectedNamedStructLike(_)) if !is_name => Err(Error::ExpectedUnit),
        result => result,
    }
}

/// Reads a char literal. No memory is wanted.
#[inline(never)]
pub fn read_char<'o>(cursor: &mut Cursor<'_>) -> Result<Data<'o>>
    ensures text { cursor.new.text ≡ cursor.old.text }
    ensures value { Reads data_view result (read_char false cursor.old.rest) cursor.new.rest }
    ensures refused { IfErr result (λ _. read_char false cursor.old.rest ≡ failed bad) }
    ensures slice { IfOk result (IsSliced cursor.old.rest cursor.new.rest) }
    ensures slices { IfOk result (StringsAreSliced cursor.old.rest cursor.old.text) }
    ensures no_longer { OnOk result (length cursor.new.rest ≤ length cursor.old.rest) }
    ensures fault { IfErr result IsOfText }
    ensures turns { SettlesLeaf cursor.old result cursor.new }
{
    match cursor.character() {
        Ok(character) => Ok(Data::Char(character)),
        Err(fault) => Err(quoted_error(fault)),
    }
}

/// Reads a string: a slice of the text, where these are taken, unless it holds an escape or a continuation; else a text
/// of its own, for which memory is wanted.
pub fn read_str<'o>(context: &Context<'_, 'o>, cursor: &mut Cursor<'_>) -> Result<Data<'o>>
    ensures value { Reads data_view result (read_str false cursor.old.rest) cursor.new.rest }
    ensures refused { context.now.source ≡ Some cursor.old.text → IfErr result (λ _. HoldsEscape String cursor.old.rest
        ⊎ (read_str false cursor.old.rest ≡ failed bad)) }
    ensures slice { context.now.source ≡ Some cursor.old.text → IfOk result (IsSliced cursor.old.rest cursor.new.rest) }
    ensures advance { Advances (Kept context.now.source (StringsAreSliced cursor.old.rest) cursor.old.text) cursor.old result cursor.new }
    ensures turns { SettlesLeaf cursor.old result cursor.new }
{
    let start = cursor.rest();
    let text = read_string(context.alloc(), cursor)?;
    let kept = keep_text(context, start, text)?;
    Ok(Data::Str(kept))
}
