//! Reading raw texts.
ghost use Rattle.std.specs.Prelude.{◌≡◌, ◌≤◌, ◌+◌, ◌*◌, ◌++◌, true, false, Some, chars, length, IfOk, OnOk, IfErr, IfSome, IfNone};
ghost use Rattle.ron_spec_words.specs.Beyond.{bytes_in};
ghost use Rattle.ron_lex_text.specs.Stretch.{IsSuffix};
ghost use Rattle.ron_lex.specs.Turns.{Stays};
ghost use Rattle.ron_spec_grammar.specs.Schema.{any_raw};
ghost use Rattle.ron_base.specs.Class.{memory, depth, other, class_of};
ghost use Rattle.ron_base.specs.declared.error.Error.TheVariants.{OutOfMemory};
ghost use Rattle.ron_de_steps.specs.Advance.{Advances};
ghost use Rattle.ron_de_steps.specs.Spends.{IsReached, IsOpened, SpendsAny, SpendsUntyped, SpendsRaw};
ghost use Rattle.ron_de_parts.specs.Content.{ReadsBareShape};
ghost use Rattle.ron_de_parts.specs.Errors.{IsOfReading, IsMemoryOrText};
ghost use Rattle.ron_de_parts.specs.Kept.{Kept};
ghost use Rattle.ron_de_parts.specs.Slices.{IsSliced, StringsAreSliced};
ghost use Rattle.ron_de_parts.specs.Turns.{SpendsLeaf};
ghost use Rattle.ron_de_parts.specs.Values.{ReadsRawShape};

use crate::content::{Holder, close_content};
use crate::context::Context;
use crate::kept::keep_raw;
use ron_base::error::{Error, Result};
use ron_data::data::Data;
use ron_de_raw::reading as raw;
use ron_de_steps::context as reading;
use ron_de_steps::steps::pass_last_comma;
use ron_de_untyped::value::read_any;
use ron_lex::cursor::{Cursor, Mark};
use ron_lex_text::text::before;

/// Reads a raw text, with what it takes of the gaps around its value; at the start of a text it takes them whole.
#[inline(never)]
pub fn read_raw<'o>(
    context: &Context<'_, 'o>,
    cursor: &mut Cursor<'_>,
    is_at_start: bool,
) -> Result<Data<'o>>
    ensures value { ReadsRawShape is_at_start context.now cursor.old result cursor.new.rest }
    ensures slice { context.now.source ≡ Some cursor.old.text → IfOk result (IsSliced cursor.old.rest cursor.new.rest) }
    ensures advance { Advances (Kept context.now.source (StringsAreSliced cursor.old.rest) cursor.old.text) cursor.old result cursor.new }
    ensures turns { SpendsRaw 2 cursor.old result cursor.new }
{
    let (raw, start) = raw::read_raw(context.reading(), cursor, is_at_start)?;
    let kept = keep_raw(context, start, raw)?;
    Ok(Data::Raw(kept))
}

/// Reads a bare raw text, up to and past the closing parenthesis: one value, with perhaps a comma behind it.
pub fn read_bare_raw<'o>(
    context: &Context<'_, 'o>,
    cursor: &mut Cursor<'_>,
    holder: Holder,
) -> Result<Data<'o>>
    ensures value { ReadsBareShape context.now any_raw cursor.old result cursor.new.rest }
    ensures advance { Advances (Kept context.now.source (StringsAreSliced cursor.old.rest) cursor.old.text) cursor.old result cursor.new }
    ensures turns { SpendsLeaf true 2 cursor.old result cursor.new }
{
    let start = cursor.mark();
    let content = cursor.rest();
    let answer = read_one(context, cursor, holder);
    match &answer {
        Err(error) if tells_text(error) => {}
        _ => return answer,
    }
    match bare_fault(context.reading(), cursor, &start, content) {
        Some(told) => Err(told),
        None => answer,
    }
}

/// Reads a raw text up to and past the closing parenthesis.
fn read_one<'o>(
    context: &Context<'_, 'o>,
    cursor: &mut Cursor<'_>,
    holder: Holder,
) -> Result<Data<'o>>
    ensures value { ReadsBareShape context.now any_raw cursor.old result cursor.new.rest }
    ensures advance { Advances (Kept context.now.source (StringsAreSliced cursor.old.rest) cursor.old.text) cursor.old result cursor.new }
    ensures turns { SpendsRaw 2 cursor.old result cursor.new }
{
    let data = read_raw(context, cursor, false)?;
    close_content(cursor, holder)?;
    Ok(data)
}

/// What is reported of bare content that is no raw text, by how it reads as bare content. What does, and is not one
/// value, is no value by itself. None where it is one value, or that wants levels. The cursor comes back to where it
/// is.
fn bare_fault<'a>(
    context: &reading::Context,
    cursor: &mut Cursor<'a>,
    start: &Mark<'a>,
    content: &'a str,
) -> Option<Error>
    requires text { start.now.text ≡ cursor.old.text }
    requires content { chars content.now ≡ start.now.rest }
    requires end { IsSuffix (chars content.now) cursor.old.text }
    ensures text { cursor.new.text ≡ cursor.old.text }
    ensures fault { IfSome result IsMemoryOrText }
    ensures turns { IsOpened start.now → cursor.new.turns
        ≤ cursor.old.turns + (2 * bytes_in start.now.gap + 13 * bytes_in start.now.rest) }
{
    let place = cursor.mark();
    let over = passed(cursor, content)?;
    cursor.return_to(start);
    let told = fault_within(context, cursor, start);
    if passed(cursor, content).is_some() {
        cursor.return_to(start);
        if cursor.take_text(over) {
            cursor.return_to(&place);
        }
    }
    told
}

/// What of the content stands before the place; none where the place is no further on, to which no call goes back.
fn passed<'a>(cursor: &Cursor<'a>, content: &'a str) -> Option<&'a str>
    requires { IsSuffix (chars content.now) cursor.now.text }
    ensures { IfSome result (λ over. chars content.now ≡ chars over.now ++ cursor.now.rest) }
{
    let rest = cursor.rest();
    if content.len() < rest.len() {
        return None;
    }
    Some(before(content, rest))
}

/// The fault of the bare content that begins here, but for want of levels.
fn fault_within<'a>(
    context: &reading::Context,
    cursor: &mut Cursor<'a>,
    start: &Mark<'a>,
) -> Option<Error>
    requires { Stays start.now cursor.old }
    ensures text { cursor.new.text ≡ cursor.old.text }
    ensures fault { IfSome result IsMemoryOrText }
    ensures turns { IsOpened start.now → cursor.new.turns
        ≤ cursor.old.turns + (2 * bytes_in start.now.gap + 12 * bytes_in start.now.rest) }
{
    match pass_bare(context, cursor) {
        Ok(()) => {
            let left = cursor.rest().len();
            cursor.return_to(start);
            not_one(context, cursor, left)
        }
        Err(error) => told_of(error),
    }
}

/// What is told of an error that was met: nothing of want of levels.
fn told_of(error: Error) -> Option<Error>
    requires { IsOfReading error }
    ensures fault { IfSome result IsMemoryOrText }
    ensures same { IfSome result (λ told. told ≡ error) }
    ensures levels { IfNone result (class_of error ≡ depth) }
{
    if wants_levels(&error) {
        return None;
    }
    Some(error)
}

/// Goes past bare content.
fn pass_bare(context: &reading::Context, cursor: &mut Cursor<'_>) -> Result<()>
    ensures text { cursor.new.text ≡ cursor.old.text }
    ensures no_longer { OnOk result (length cursor.new.rest ≤ length cursor.old.rest) }
    ensures fault { IfErr result IsOfReading }
    ensures turns { SpendsAny true 2 cursor.old result cursor.new }
{
    read_any(context, cursor, true)?;
    Ok(())
}

/// What is reported of content that is not one value, with perhaps a comma behind it, that leaves so many bytes.
fn not_one(context: &reading::Context, cursor: &mut Cursor<'_>, left: usize) -> Option<Error>
    ensures text { cursor.new.text ≡ cursor.old.text }
    ensures fault { IfSome result IsMemoryOrText }
    ensures turns { IsReached cursor.old → cursor.new.turns
        ≤ cursor.old.turns + (bytes_in cursor.old.gap + 6 * bytes_in cursor.old.rest) }
{
    match pass_one(context, cursor) {
        Ok(()) if cursor.rest().len() == left => None,
        Ok(()) => Some(Error::ExpectedRawValue),
        Err(error) => Some(no_value(error)),
    }
}

/// Want of memory as it is, and any other error as that of a text that is no value.
fn no_value(error: Error) -> Error
    ensures fault { IsMemoryOrText result }
    ensures memory { class_of error ≡ memory → result ≡ OutOfMemory }
{
    if wants_memory(&error) {
        return Error::OutOfMemory;
    }
    Error::ExpectedRawValue
}

/// Goes past a value, the gap behind it, and perhaps a comma.
fn pass_one(context: &reading::Context, cursor: &mut Cursor<'_>) -> Result<()>
    ensures text { cursor.new.text ≡ cursor.old.text }
    ensures turns { SpendsUntyped 2 cursor.old result cursor.new }
{
    read_any(context, cursor, false)?;
    pass_last_comma(cursor)
}

/// Whether an error is neither want of memory nor the limit's.
fn tells_text(error: &Error) -> bool
    ensures class { result ≡ true → class_of error.now ≡ other }
    ensures all { class_of error.now ≡ other → result ≡ true }
{
    !matches!(error, Error::OutOfMemory | Error::ExceededRecursionLimit)
}

fn wants_memory(error: &Error) -> bool
    ensures class { result ≡ true → class_of error.now ≡ memory }
    ensures all { class_of error.now ≡ memory → result ≡ true }
{
    matches!(error, Error::OutOfMemory)
}

fn wants_levels(error: &Error) -> bool
    ensures class { result ≡ true → class_of error.now ≡ depth }
    ensures all { class_of error.now ≡ depth → result ≡ true }
{
    matches!(error, Error::ExceededRecursionLimit)
}
