//! Attributes, which stand before the value of a text and announce extensions.
ghost use Rattle.std.specs.Prelude.{◌≡◌, ◌<◌, ◌≤◌, true, false, length, OnOk, IfErr, MatchBool};
ghost use Rattle.ron_spec_words.specs.Characters.{hash, right_parenthesis};
ghost use Rattle.ron_spec_words.specs.Gap.{skip};
ghost use Rattle.ron_spec_words.specs.Lang.{done};
ghost use Rattle.ron_spec_words.specs.Openings.{Leads};
ghost use Rattle.ron_spec_words.specs.Reader.{got, failed, bad};
ghost use Rattle.ron_spec_words.specs.Runs.{is_at};
ghost use Rattle.ron_spec_grammar.specs.Attribute.{attribute, in_brackets, names, extension, ignored, ignored_word};
ghost use Rattle.ron_lex.specs.Turns.{GoesOver, Moves};
ghost use Rattle.ron_de_steps.specs.Errors.{IsOfReading, IsOfText};
ghost use Rattle.ron_de_steps.specs.Steps.{past_mark, past_item, GoesTo};
ghost use Rattle.ron_de_steps.specs.Attributes.{ReadsHead, ReadsHere, ReadsNames, MovesToStart, any_string};

use crate::faults::identifier_error;
use crate::gap::pass_gap;
use crate::steps::read_comma;
use crate::strings::read_string;
use ron_base::error::{Error, Result};
use ron_base::extensions::Extensions;
use ron_lex::cursor::Cursor;
use ron_lex_text::text::Class;
use std::alloc::Global;

/// Reads the attributes before a value and the gaps around them: the extensions that are then in force, which are
/// these and those that the attributes announce.
pub fn read_head(
    alloc: Global,
    cursor: &mut Cursor<'_>,
    default_extensions: Extensions,
) -> Result<Extensions>
    ensures text { cursor.new.text ≡ cursor.old.text }
    ensures value { ReadsHead default_extensions cursor.old.rest result cursor.new }
    ensures token_start { OnOk result (cursor.new.token_start ≡ cursor.new.rest) }
    ensures fault { IfErr result IsOfReading }
    ensures turns { MovesToStart cursor.old result cursor.new }
    ensures leads { OnOk result (Leads cursor.old.rest cursor.new.rest) }

    // Memory is wanted only where an attribute begins.
    ensures memory { is_at hash (skip cursor.old.rest) ≡ false → IfErr result IsOfText }
{
    pass_gap(cursor)?;
    let mut extensions = default_extensions;
    'attributes: while cursor.is_at('#') {
        let announced = read_attribute(alloc, cursor)?;
        extensions = extensions.union(announced);
        pass_gap(cursor)?;
    }
    Ok(extensions)
}

/// Reads one attribute: the extensions that it announces.
fn read_attribute(alloc: Global, cursor: &mut Cursor<'_>) -> Result<Extensions>
    ensures text { cursor.new.text ≡ cursor.old.text }
    ensures shorter { OnOk result (length cursor.new.rest < length cursor.old.rest) }
    ensures value { ReadsHere attribute cursor.old.rest result cursor.new.rest }
    ensures fault { IfErr result IsOfReading }
    ensures turns { Moves 2 cursor.old result cursor.new }
{
    take_mark(cursor, '#')?;
    take_mark(cursor, '!')?;
    take_mark(cursor, '[')?;
    let announced = read_in_brackets(alloc, cursor)?;
    pass_gap(cursor)?;
    if cursor.take(']') {
        Ok(announced)
    } else {
        Err(Error::ExpectedAttributeEnd)
    }
}

/// Goes past a mark of an attribute and the gap behind it.
fn take_mark(cursor: &mut Cursor<'_>, mark: char) -> Result<()>
    ensures text { cursor.new.text ≡ cursor.old.text }
    ensures value { GoesTo (past_mark mark cursor.old.rest) result (cursor.new.gap, cursor.new.rest) }
    ensures shorter { OnOk result (length cursor.new.rest < length cursor.old.rest) }
    ensures fault { IfErr result IsOfText }
    ensures turns { Moves 2 cursor.old result cursor.new }
{
    if !cursor.take(mark) {
        return Err(Error::ExpectedAttribute);
    }
    pass_gap(cursor)
}

/// Reads what stands in an attribute's brackets.
#[tactic(auto, unfolding(ron_lex_text::proofs::StretchLemmas::literals))]
fn read_in_brackets(alloc: Global, cursor: &mut Cursor<'_>) -> Result<Extensions>
    ensures text { cursor.new.text ≡ cursor.old.text }
    ensures no_longer { OnOk result (length cursor.new.rest ≤ length cursor.old.rest) }
    ensures value { ReadsHere in_brackets cursor.old.rest result cursor.new.rest }
    ensures fault { IfErr result IsOfReading }
    ensures turns { Moves 2 cursor.old result cursor.new }
{
    if cursor.take_word("enable") {
        pass_gap(cursor)?;
        return read_names(alloc, cursor);
    }
    read_ignored(alloc, cursor)
}

/// Reads what is ignored: `type` or `schema`, `=` and a string.
fn read_ignored(alloc: Global, cursor: &mut Cursor<'_>) -> Result<Extensions>
    ensures text { cursor.new.text ≡ cursor.old.text }
    ensures no_longer { OnOk result (length cursor.new.rest ≤ length cursor.old.rest) }
    ensures value { ReadsHere ignored cursor.old.rest result cursor.new.rest }
    ensures fault { IfErr result IsOfReading }
    ensures turns { Moves 2 cursor.old result cursor.new }
{
    if !take_ignored_word(cursor) {
        return Err(Error::ExpectedAttribute);
    }
    pass_gap(cursor)?;
    take_mark(cursor, '=')?;
    pass_string(alloc, cursor)?;
    Ok(Extensions::empty())
}

/// Goes past the word `type` or `schema`, where one stands.
#[tactic(auto, unfolding(ron_lex_text::proofs::StretchLemmas::literals))]
fn take_ignored_word(cursor: &mut Cursor<'_>) -> bool
    ensures text { cursor.new.text ≡ cursor.old.text }
    ensures value { MatchBool result (ignored_word cursor.old.rest ≡ got done cursor.new.rest)
        (ignored_word cursor.old.rest ≡ failed bad) }
    ensures no_longer { length cursor.new.rest ≤ length cursor.old.rest }
    ensures turns { GoesOver 2 cursor.old cursor.new }
{
    cursor.take_word("type") || cursor.take_word("schema")
}

/// Goes past a string.
fn pass_string(alloc: Global, cursor: &mut Cursor<'_>) -> Result<()>
    ensures text { cursor.new.text ≡ cursor.old.text }
    ensures no_longer { OnOk result (length cursor.new.rest ≤ length cursor.old.rest) }
    ensures value { ReadsHere any_string cursor.old.rest result cursor.new.rest }
    ensures fault { IfErr result IsOfReading }
    ensures turns { Moves 2 cursor.old result cursor.new }
{
    read_string(alloc, cursor)?;
    Ok(())
}

/// Reads the names of one or more extensions in parentheses: these extensions.
fn read_names(alloc: Global, cursor: &mut Cursor<'_>) -> Result<Extensions>
    ensures text { cursor.new.text ≡ cursor.old.text }
    ensures no_longer { OnOk result (length cursor.new.rest ≤ length cursor.old.rest) }
    ensures value { ReadsHere names cursor.old.rest result cursor.new.rest }
    ensures fault { IfErr result IsOfReading }
    ensures turns { Moves 2 cursor.old result cursor.new }
{
    take_mark(cursor, '(')?;
    let found = read_list(alloc, cursor)?;
    cursor.pass(')');
    Ok(found)
}

/// Reads the names up to the closing parenthesis.
fn read_list(alloc: Global, cursor: &mut Cursor<'_>) -> Result<Extensions>
    ensures text { cursor.new.text ≡ cursor.old.text }
    ensures no_longer { OnOk result (length cursor.new.rest ≤ length cursor.old.rest) }
    ensures closed { OnOk result (is_at right_parenthesis cursor.new.rest ≡ true) }
    ensures value { ReadsNames cursor.old result cursor.new.rest }
    ensures fault { IfErr result IsOfReading }
    ensures turns { Moves 2 cursor.old result cursor.new }
{
    if cursor.is_at(')') {
        return Err(Error::ExpectedIdentifier);
    }
    let mut found = Extensions::empty();
    'names: while !cursor.is_at(')') {
        let named = read_extension(alloc, cursor, found.is_empty())?;
        found = found.union(named);
        pass_name_end(cursor)?;
    }
    Ok(found)
}

/// Goes past a comma, or stops at the closing parenthesis.
fn pass_name_end(cursor: &mut Cursor<'_>) -> Result<()>
    ensures text { cursor.new.text ≡ cursor.old.text }
    ensures value { GoesTo (past_item right_parenthesis cursor.old.rest) result (cursor.new.gap, cursor.new.rest) }
    ensures no_longer { length cursor.new.rest ≤ length cursor.old.rest }
    ensures fault { IfErr result IsOfText }
    ensures turns { Moves 2 cursor.old result cursor.new }
{
    match read_comma(cursor, ')') {
        Err(Error::ExpectedComma) if !cursor.is_at_class(Class::NameContinue) => {
            Err(Error::ExpectedAttributeEnd)
        }
        result => result,
    }
}

/// Reads the name of an extension. Behind a comma the list may also end.
fn read_extension(alloc: Global, cursor: &mut Cursor<'_>, is_first: bool) -> Result<Extensions>
    ensures text { cursor.new.text ≡ cursor.old.text }
    ensures shorter { OnOk result (length cursor.new.rest < length cursor.old.rest) }
    ensures value { ReadsHere extension cursor.old.rest result cursor.new.rest }
    ensures fault { IfErr result IsOfReading }
    ensures turns { Moves 2 cursor.old result cursor.new }
{
    let name = match cursor.identifier() {
        Ok(name) => name,
        Err(_) if !is_first && !cursor.is_at_class(Class::NameContinue) => {
            return Err(Error::ExpectedAttributeEnd);
        }
        Err(fault) => return Err(identifier_error(alloc, fault)?),
    };
    match Extensions::from_ident(name) {
        Some(found) => Ok(found),
        None => Err(Error::NoSuchExtension(String::from_str(alloc, name)?)),
    }
}
