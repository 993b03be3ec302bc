//! Byte strings.
ghost use Rattle.std.specs.Prelude.{◌≡◌, true, chars, encode_utf8, IfOk, IfErr};
ghost use Rattle.ron_spec_words.specs.Quoted.{ByteString, ByteStringEscape, byte_string, byte_string_escape};
ghost use Rattle.ron_lex.specs.Content.{bytes_are};
ghost use Rattle.ron_lex_text.specs.Stretch.{IsProperSuffix};
ghost use Rattle.ron_lex_text.specs.Parsed.{parsed_bytes, is_byte_slice};
ghost use Rattle.ron_lex.specs.Quoted.{SplitsOrMemory, EndsIn, IsSliceUnlessEscaped, StandAsBytes};
ghost use Rattle.ron_lex.specs.Quoted.{HoldsEscape, ends_plainly, opens_escape, opens_escaped_bytes};
ghost use Rattle.ron_lex.specs.Quoted.{bytes_content};
ghost use Rattle.ron_spec_words.specs.Scan.{left_by};
ghost use Rattle.ron_lex.specs.Token.{Leaves};
ghost use Rattle.ron_lex.specs.Turns.{CoversAtMost};
ghost use Rattle.ron_lex.specs.Searched.{searched, searched_bytes, Gains};
ghost use Rattle.ron_lex.specs.Given.{given_bytes, vec_bytes};
ghost use Rattle.ron_lex.specs.declared.fault.StringRefusal.TheVariants.{OutOfMemory};

use crate::content::{Content, skip_content, split_escaped};
use crate::escape::{split_byte_escape, split_hex_byte, split_unicode_escape};
use crate::fault::{QuotedError, QuotedFault, StringRefusal};
use crate::raw::split_raw;
use crate::searches::Searches;
use crate::string::strip_continuation;
use ron_lex_text::parsed::ParsedByteStr;
use ron_lex_text::text::{before, begins_with, is_ended, strip_char, strip_text};
use std::alloc::{AllocError, Global};

/// The byte string at the start of a text, and what follows it.
///
/// A byte string is `b"`, characters, escapes and continuations, and `"`, where a character and `\u{H..}` give their
/// UTF-8 and `\xHH` a byte; or it is raw behind `br`. It is a slice of the text unless it holds an escape or a
/// continuation, and takes memory only then. Where there is none, the error is `NoByteString` where neither begins,
/// `MissingStringEnd` where nothing closes it, `InvalidEscape`, or `Eof` where the text ends in an escape.
#[tactic(auto, unfolding(ron_lex_text::proofs::StretchLemmas::literals))]
pub(crate) fn split_byte_string<'a>(
    alloc: Global,
    searches: &mut Searches,
    text: &'a str,
) -> Result<(ParsedByteStr<'a>, &'a str), StringRefusal<'a>>
    ensures value { SplitsOrMemory parsed_bytes result (byte_string (chars text.now)) }
    ensures slice { IfOk result (λ p. IsSliceUnlessEscaped (chars text.now) (chars p.1.now) (is_byte_slice p.0)) }
    ensures between { IfOk result (λ p. is_byte_slice p.0 ≡ true →
        StandAsBytes (chars text.now) (chars p.1.now) (parsed_bytes p.0)) }
    ensures memory { IfErr result (λ e. e ≡ OutOfMemory → opens_escaped_bytes (chars text.now) ≡ true) }
    ensures escaped { IfErr result (λ e. e ≡ OutOfMemory → HoldsEscape ByteString (chars text.now)) }
    ensures covered { IfOk result (λ p.
        CoversAtMost 2 searches.old.covered (chars text.now) (chars p.1.now) searches.new.covered) }
    ensures least { IfOk result (λ p.
        Gains (searched_bytes (chars text.now) (chars p.1.now)) searches.old.covered searches.new.covered) }
    ensures past { IfOk result (λ p. IsProperSuffix (chars p.1.now) (chars text.now)) }
    ensures err_end { IfErr result (λ e. EndsIn e (chars text.now)) }
{
    if let Some(content) = strip_text(text, "b\"") {
        return split_quoted(alloc, searches, content);
    }
    let Some(marked) = strip_text(text, "br") else {
        return Err(QuotedError::new(QuotedFault::NoByteString, text).into());
    };
    let (content, rest) = split_raw(marked, QuotedFault::NoByteString)?;
    // Who keeps the slice compares it with the source, or copies it.
    searches.pass_twice(text, rest);
    Ok((ParsedByteStr::Slice(content.as_bytes()), rest))
}

/// What follows the byte string at the start of a text. No memory is taken.
#[tactic(auto, unfolding(ron_lex_text::proofs::StretchLemmas::literals))]
pub(crate) fn skip_byte_string(text: &str) -> Option<&str>
    ensures { Leaves result (left_by (byte_string (chars text.now))) }
{
    if let Some(content) = strip_text(text, "b\"") {
        return skip_content::<Vec<u8>>(content);
    }
    let Some(marked) = strip_text(text, "br") else {
        return None;
    };
    match split_raw(marked, QuotedFault::NoByteString) {
        Ok((_, rest)) => Some(rest),
        Err(_) => None,
    }
}

/// The byte string whose `b"` stands before a text, and what follows it.
fn split_quoted<'a>(
    alloc: Global,
    searches: &mut Searches,
    text: &'a str,
) -> Result<(ParsedByteStr<'a>, &'a str), StringRefusal<'a>>
    ensures value { SplitsOrMemory parsed_bytes result (bytes_content (chars text.now)) }
    ensures err_end { IfErr result (λ e. EndsIn e (chars text.now)) }
    ensures slice { IfOk result (λ p. is_byte_slice p.0 ≡ ends_plainly (chars text.now)) }
    ensures memory { IfErr result (λ e. e ≡ OutOfMemory → opens_escape (chars text.now) ≡ true) }
    ensures covered { IfOk result (λ p.
        CoversAtMost 2 searches.old.covered (chars text.now) (chars p.1.now) searches.new.covered) }
    ensures least { IfOk result (λ p.
        Gains (searched (chars text.now) (chars p.1.now)) searches.old.covered searches.new.covered) }
{
    let end = searches.plain(text);
    if let Some(rest) = strip_char(end, '"') {
        // Who keeps the slice compares it with the source, or copies it.
        searches.pass(text, end);
        return Ok((ParsedByteStr::Slice(before(text, end).as_bytes()), rest));
    }
    let quote = searches.quote(end);
    if is_ended(quote) {
        return Err(QuotedError::new(QuotedFault::MissingStringEnd, text).into());
    }
    let (content, rest) = split_escaped::<Vec<u8>>(
        alloc,
        searches,
        text,
        end,
        text.len() - quote.len(),
    )?;
    Ok((ParsedByteStr::Allocated(content), rest))
}

/// What a backslash and what stands behind it give in a byte string.
#[derive(Clone, Copy)]
pub(crate) enum Given {
    /// A continuation gives nothing.
    Nothing,
    /// An escape gives a byte.
    Byte(u8),
    /// `\u` gives the UTF-8 of a character.
    Character(char),
}

impl Content for Vec<u8> {
    type Given = Given;

    ghost content = { bytes_content };

    ghost gives = { encode_utf8 };

    ghost escapes = { byte_string_escape };

    ghost spelled = { ByteStringEscape };

    ghost made = { vec_bytes };

    ghost piece = { given_bytes };

    ghost is_content = { bytes_are };

    fn with_room(alloc: Global, room: usize) -> Result<Vec<u8>, AllocError> {
        Vec::with_capacity(alloc, room)
    }

    #[inline(always)]
    fn push_given(&mut self, given: Given) -> Result<(), AllocError> {
        match given {
            Given::Nothing => Ok(()),
            Given::Byte(byte) => Ok(self.push(byte)?),
            Given::Character(character) => {
                let mut buffer = [0u8; 4];
                self.extend_from_slice(character.encode_utf8(&mut buffer).as_bytes())
            }
        }
    }

    #[inline(always)]
    fn push_plain(&mut self, plain: &str) -> Result<(), AllocError> {
        if plain.is_empty() {
            return Ok(());
        }
        self.extend_from_slice(plain.as_bytes())
    }

    #[tactic(auto, unfolding(ron_lex_text::proofs::StretchLemmas::literals))]
    fn split_piece(text: &str) -> Result<(Given, &str), QuotedError<'_>> {
        if begins_with(text, "\\x") {
            let (byte, rest) = split_hex_byte(text)?;
            return Ok((Given::Byte(byte), rest));
        }
        if let Some(rest) = strip_continuation(text) {
            return Ok((Given::Nothing, rest));
        }
        if begins_with(text, "\\u") {
            let (character, rest) = split_unicode_escape(text)?;
            return Ok((Given::Character(character), rest));
        }
        let (byte, rest) = split_byte_escape(text)?;
        Ok((Given::Byte(byte), rest))
    }
}
