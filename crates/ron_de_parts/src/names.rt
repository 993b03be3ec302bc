//! Names, where one is required.
// A struct's name. Where `(` stands in place of a name that is required, and where no character of a word stands,
// that is `ExpectedStructName`. Where the text doesn't begin with `(` and names are optional, an identifier is
// required and has to be the name. What is no identifier is refused as `ExpectedNamedStructLike`, unless it is the
// struct's own name in plain spelling where only a raw one spells it: that suggests the raw identifier. The same
// holds of a newtype and a tuple struct; of a unit struct too, but for `()` in place of `(`.

ghost use Rattle.std.specs.Prelude.{◌≡◌, ◌≤◌, chars, length, IfErr, OnOk, MatchResult};
ghost use Rattle.ron_base.specs.declared.error.Error.TheVariants.{OutOfMemory};
ghost use Rattle.ron_de_steps.specs.Steps.{GoesTo};
ghost use Rattle.ron_lex.specs.Turns.{Moves};
ghost use Rattle.ron_de_steps.specs.Spends.{Nears};
ghost use Rattle.ron_de_parts.specs.Turns.{LeadsOn};
ghost use Rattle.ron_de_parts.specs.Errors.{IsOfReading, IsOfText};
ghost use Rattle.ron_spec_words.specs.Name.{named};
ghost use Rattle.ron_de_parts.specs.Steps.{past_name, behind_name, NeedsName};
ghost use Rattle.ron_spec_words.specs.Scan.{left_by};

use crate::context::Context;
use ron_base::error::{Error, Result};
use ron_de_steps::gap::pass_gap;
use ron_lex::cursor::Cursor;
use ron_lex::identifier::IdentifierFault;
use ron_lex_text::text::{Class, is_same};
use std::alloc::Global;

/// Goes past a struct's name and the gap behind it. Where a parenthesis stands there is no name, which is refused where
/// one is required.
#[inline(always)]
pub fn read_name(context: &Context<'_, '_>, cursor: &mut Cursor<'_>, name: &str) -> Result<()>
    ensures text { cursor.new.text ≡ cursor.old.text }
    ensures value { GoesTo
        (past_name context.now.extensions.explicit_struct_names (chars name.now) cursor.old.rest)
        result cursor.new.rest }
    ensures no_longer { OnOk result (length cursor.new.rest ≤ length cursor.old.rest) }
    ensures fault { IfErr result IsOfReading }
    ensures turns { Moves 1 cursor.old result cursor.new }
    ensures near { OnOk result (Nears cursor.old cursor.new) }
    ensures leads { LeadsOn cursor.old result cursor.new }
{
    before_struct(context, cursor, name)?;
    pass_gap(cursor)
}

/// Goes past a struct's name, but not the gap behind it. Where a parenthesis stands there is no name, which is refused
/// where one is required.
#[inline(always)]
pub fn before_struct(context: &Context<'_, '_>, cursor: &mut Cursor<'_>, name: &str) -> Result<()>
    ensures text { cursor.new.text ≡ cursor.old.text }
    ensures value { GoesTo
        (behind_name context.now.extensions.explicit_struct_names (chars name.now) cursor.old.rest)
        result cursor.new.rest }
    ensures no_longer { OnOk result (length cursor.new.rest ≤ length cursor.old.rest) }
    ensures fault { IfErr result IsOfReading }
    ensures turns { Moves 1 cursor.old result cursor.new }
    ensures near { OnOk result (Nears cursor.old cursor.new) }
    ensures leads { LeadsOn cursor.old result cursor.new }
{
    if !cursor.is_at('(') {
        return take_name(context, cursor, name);
    }
    if context.requires_names() {
        return Err(Error::ExpectedStructName(String::from_str(context.alloc(), name)?));
    }
    Ok(())
}

/// Goes past a struct's name.
pub fn take_name(context: &Context<'_, '_>, cursor: &mut Cursor<'_>, name: &str) -> Result<()>
    ensures text { cursor.new.text ≡ cursor.old.text }
    ensures value { GoesTo (left_by (named (chars name.now) cursor.old.rest)) result cursor.new.rest }
    ensures no_longer { OnOk result (length cursor.new.rest ≤ length cursor.old.rest) }
    ensures fault { IfErr result IsOfReading }
    ensures turns { Moves 1 cursor.old result cursor.new }
    ensures near { OnOk result (Nears cursor.old cursor.new) }
    ensures leads { LeadsOn cursor.old result cursor.new }
{
    let alloc = context.alloc();
    match cursor.identifier() {
        Ok(found) => expect_name(alloc, name, found),
        Err(_) if context.requires_names() && !cursor.is_at_class(Class::NameContinue) => Err(
            Error::ExpectedStructName(String::from_str(alloc, name)?),
        ),
        Err(fault) => Err(no_name(alloc, name, fault)?),
    }
}

/// Refuses a name other than the struct's.
fn expect_name(alloc: Global, name: &str, found: &str) -> Result<()>
    ensures value { NeedsName (chars name.now) (chars found.now) result }
    ensures fault { IfErr result IsOfReading }
{
    if is_same(found, name) {
        return Ok(());
    }
    if name.is_empty() {
        return Err(Error::ExpectedNamedStructLike(String::new(alloc)));
    }
    Err(Error::ExpectedDifferentStructName {
        expected: String::from_str(alloc, name)?,
        found: String::from_str(alloc, found)?,
    })
}

/// What is reported where neither a parenthesis nor an identifier begins a struct: the raw identifier that spells the
/// struct's name is suggested.
fn no_name(alloc: Global, name: &str, fault: IdentifierFault<'_>) -> Result<Error>
    ensures { MatchResult result IsOfText (λ e. e ≡ OutOfMemory) }
{
    match fault {
        IdentifierFault::OnlyRaw(run) if is_same(run, name) => Ok(Error::SuggestRawIdentifier(
            String::from_str(alloc, run)?,
        )),
        _ => Ok(Error::ExpectedNamedStructLike(String::from_str(alloc, name)?)),
    }
}
