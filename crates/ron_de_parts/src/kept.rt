//! How texts are kept: as slices of the source, where the text that is read is that one; else as copies.
ghost use Rattle.std.specs.Prelude.{◌≡◌, ◌∷◌, true, false, chars, IsSome, IfSome, IfOk, MatchOption, MatchResult};
ghost use Rattle.ron_spec_words.specs.Characters.{Text, double_quote};
ghost use Rattle.ron_spec_words.specs.Runs.{after_run, begins_with};
ghost use Rattle.ron_lex_text.specs.Stretch.{IsSuffix, in_class};
ghost use Rattle.ron_lex_text.specs.declared.text.Class.TheVariants.{Unquoted};
ghost use Rattle.ron_lex_text.specs.Parsed.{parsed_text, is_slice, parsed_bytes, is_byte_slice};
ghost use Rattle.ron_base.specs.declared.error.Error.TheVariants.{OutOfMemory};
ghost use Rattle.ron_de_raw.specs.Raw.{raw_text_of, is_borrowed};
ghost use Rattle.ron_de_parts.specs.Kept.{EndsSource, BeginsBehindQuote, BeginsAsBytes};
ghost use Rattle.ron_de_parts.specs.Terms.{source_view};

use crate::context::Context;
use ron_base::error::Result;
use ron_data::owned::{owned_bytes, owned_text};
use ron_de_raw::raw::RawValue;
use ron_lex_text::parsed::{ParsedByteStr, ParsedStr};
use ron_lex_text::search::skip_to_quote;
use ron_lex_text::text::{before, strip_char, strip_text};

/// The text of a string that begins what was left, `start`. A slice stays one, of the source, where this ends with what
/// was left; memory is wanted elsewhere.
pub(crate) fn keep_text<'o>(
    context: &Context<'_, 'o>,
    start: &str,
    text: ParsedStr<'_>,
) -> Result<ParsedStr<'o>>
    ensures same { MatchResult result (λ kept. parsed_text kept ≡ parsed_text text.entry) (λ e. e ≡ OutOfMemory) }
    ensures slice { EndsSource context.now.source (chars start.now) →
        (is_slice text.entry ≡ true → BeginsBehindQuote (chars start.now) (parsed_text text.entry)) →
        MatchResult result (λ kept. is_slice kept ≡ is_slice text.entry) (λ _. ⊥) }
{
    match text {
        ParsedStr::Allocated(own) => Ok(ParsedStr::Allocated(own)),
        ParsedStr::Slice(piece) => match find_text(context.source(), start, piece) {
            Some(slice) => Ok(ParsedStr::Slice(slice)),
            None => owned_text(context.alloc(), ParsedStr::Slice(piece)),
        },
    }
}

/// The bytes of a byte string likewise.
pub(crate) fn keep_bytes<'o>(
    context: &Context<'_, 'o>,
    start: &str,
    bytes: ParsedByteStr<'_>,
) -> Result<ParsedByteStr<'o>>
    ensures same { MatchResult result (λ kept. parsed_bytes kept ≡ parsed_bytes bytes.entry) (λ e. e ≡ OutOfMemory) }
    ensures slice { EndsSource context.now.source (chars start.now) →
        (is_byte_slice bytes.entry ≡ true → BeginsAsBytes (chars start.now) (parsed_bytes bytes.entry)) →
        MatchResult result (λ kept. is_byte_slice kept ≡ is_byte_slice bytes.entry) (λ _. ⊥) }
{
    match bytes {
        ParsedByteStr::Allocated(own) => Ok(ParsedByteStr::Allocated(own)),
        ParsedByteStr::Slice(piece) => match find_bytes(context.source(), start, piece) {
            Some(slice) => Ok(ParsedByteStr::Slice(slice)),
            None => owned_bytes(context.alloc(), ParsedByteStr::Slice(piece)),
        },
    }
}

/// A raw text with which what was left, `start`, begins.
pub(crate) fn keep_raw<'o>(
    context: &Context<'_, 'o>,
    start: &str,
    raw: RawValue<'_>,
) -> Result<RawValue<'o>>
    ensures same { MatchResult result (λ kept. raw_text_of kept ≡ raw_text_of raw.entry) (λ e. e ≡ OutOfMemory) }
    ensures slice { EndsSource context.now.source (chars start.now) →
        begins_with (raw_text_of raw.entry) (chars start.now) ≡ true →
        IfOk result (λ kept. is_borrowed kept ≡ true) }
{
    let found = find_front(context.source(), start, raw.get_ron());
    match found {
        Some(slice) => Ok(raw.borrowed_from(slice)),
        None => raw.into_owned(context.alloc()),
    }
}

/// The same text in the source, where what was left begins with it.
fn find_front<'o>(source: Option<&'o str>, start: &str, piece: &str) -> Option<&'o str>
    ensures same { IfSome result (λ slice. chars slice.now ≡ chars piece.now) }
    ensures found { EndsSource (source_view source.entry) (chars start.now) →
        begins_with (chars piece.now) (chars start.now) ≡ true → IsSome result }
{
    let end = end_in(source, start)?;
    front_of(end, piece)
}

/// The same text in the source, where it stands behind the first quote of what was left.
fn find_text<'o>(source: Option<&'o str>, start: &str, piece: &str) -> Option<&'o str>
    ensures same { IfSome result (λ slice. chars slice.now ≡ chars piece.now) }
    ensures found { EndsSource (source_view source.entry) (chars start.now) →
        BeginsBehindQuote (chars start.now) (chars piece.now) → IsSome result }
{
    let content = content_in(source, start)?;
    front_of(content, piece)
}

/// The same bytes in the source, likewise.
fn find_bytes<'o>(source: Option<&'o str>, start: &str, piece: &[u8]) -> Option<&'o [u8]>
    ensures same { IfSome result (λ slice. slice.now ≡ piece.now) }
    ensures found { EndsSource (source_view source.entry) (chars start.now) →
        BeginsAsBytes (chars start.now) piece.now → IsSome result }
{
    let content = content_in(source, start)?.as_bytes();
    if content.starts_with(piece) {
        Some(&content[..piece.len()])
    } else {
        None
    }
}

/// What stands in the source behind the first quote of what was left.
fn content_in<'o>(source: Option<&'o str>, start: &str) -> Option<&'o str>
    ensures { (content : Text) → EndsSource (source_view source.entry) (chars start.now) →
        after_run (in_class Unquoted) (chars start.now) ≡ double_quote ∷ content →
        MatchOption result ⊥ (λ found. chars found.now ≡ content) }
{
    let end = end_in(source, start)?;
    strip_char(skip_to_quote(end), '"')
}

/// The end of the source that is as long as what was left.
fn end_in<'o>(source: Option<&'o str>, start: &str) -> Option<&'o str>
    ensures { EndsSource (source_view source.entry) (chars start.now) →
        MatchOption result ⊥ (λ found. found.now ≡ start.now) }
{
    let source = source?;
    end_of(source, start)
}

/// The end of a text that is as long as this one.
fn end_of<'o>(text: &'o str, end: &str) -> Option<&'o str>
    ensures { IsSuffix (chars end.now) (chars text.now) → MatchOption result ⊥ (λ found. found.now ≡ end.now) }
{
    let start = text.len().checked_sub(end.len())?;
    text.get(start..)
}

/// The characters with which a text begins, as a slice of it.
fn front_of<'o>(text: &'o str, front: &str) -> Option<&'o str>
    ensures { MatchOption result (begins_with (chars front.now) (chars text.now) ≡ false)
        (λ found. chars found.now ≡ chars front.now) }
{
    let rest = strip_text(text, front)?;
    Some(before(text, rest))
}
