//! Escapes: what a backslash and the characters behind it spell.
ghost use Rattle.std.specs.Prelude.{◌≡◌, ◌<◌, chars, IfOk, IfErr, IfSome};
ghost use Rattle.ron_spec_words.specs.Reader.{means, fail, bad};
ghost use Rattle.ron_spec_words.specs.Directly.{any_one};
ghost use Rattle.ron_spec_words.specs.Escape.{escape_meaning, hex_digit, plain_escape, hex_byte, hex_ascii, character_of};
ghost use Rattle.ron_spec_words.specs.Escape.{hex_character, unicode_escape, escape};
ghost use Rattle.ron_lex_text.specs.Stretch.{IsSuffix};
ghost use Rattle.ron_lex.specs.Quoted.{Splits, braced_character};

use crate::fault::{QuotedError, QuotedFault};
use ron_base::error::EscapeFault;
use ron_lex_text::text::{begins_with, is_ended, split_first, strip_char, strip_text};

/// What a backslash and this character mean, where they are an escape.
fn escape_meaning(character: char) -> Option<char>
    ensures value { result ≡ escape_meaning character }
    ensures ascii { IfSome result (λ c. c < 128) }
{
    match character {
        '\'' | '"' | '\\' => Some(character),
        'n' => Some('\n'),
        'r' => Some('\r'),
        't' => Some('\t'),
        '0' => Some('\0'),
        _ => None,
    }
}

/// The character of an escape of two characters at the start of a text, and what follows it.
fn split_plain_escape(text: &str) -> Result<(char, &str), QuotedError<'_>>
    ensures value { Splits result (plain_escape (chars text.now)) }
    ensures ascii { IfOk result (λ p. p.0 < 128) }
    ensures err_end { IfErr result (λ e. IsSuffix (chars e.rest.now) (chars text.now)) }
{
    let Some(marked) = strip_char(text, '\\') else {
        return Err(QuotedError::escape(EscapeFault::UnknownCharacter, text));
    };
    let Some((first, rest)) = split_first(marked) else {
        return Err(QuotedError::new(QuotedFault::Eof, marked));
    };
    match escape_meaning(first) {
        Some(character) => Ok((character, rest)),
        None => Err(QuotedError::escape(EscapeFault::UnknownCharacter, rest)),
    }
}

/// The value of the hexadecimal digit at the start of a text, and what follows it.
#[inline(always)]
fn split_hex_digit(text: &str) -> Result<(u32, &str), QuotedError<'_>>
    ensures value { Splits result (means any_one hex_digit (chars text.now)) }
    ensures small { IfOk result (λ p. p.0 < 16) }
    ensures err_end { IfErr result (λ e. IsSuffix (chars e.rest.now) (chars text.now)) }
{
    let Some((first, rest)) = split_first(text) else {
        return Err(QuotedError::new(QuotedFault::Eof, text));
    };
    match first.to_digit(16) {
        Some(digit) => Ok((digit, rest)),
        None => Err(QuotedError::escape(EscapeFault::NonHexDigit, rest)),
    }
}

/// The byte that `\xHH` spells at the start of a text, and what follows it.
#[inline(always)]
#[tactic(auto, unfolding(ron_lex_text::proofs::StretchLemmas::literals))]
pub(crate) fn split_hex_byte(text: &str) -> Result<(u8, &str), QuotedError<'_>>
    ensures value { Splits result (hex_byte (chars text.now)) }
    ensures err_end { IfErr result (λ e. IsSuffix (chars e.rest.now) (chars text.now)) }
{
    let Some(digits) = strip_text(text, "\\x") else {
        return Err(QuotedError::escape(EscapeFault::BytesOfNoCharacter, text));
    };
    let (high, after) = split_hex_digit(digits)?;
    let (low, rest) = split_hex_digit(after)?;
    Ok(((high * 16 + low) as u8, rest))
}

/// The ASCII character that `\xHH` spells at the start of a text, and what follows it.
fn split_hex_ascii(text: &str) -> Result<(char, &str), QuotedError<'_>>
    ensures value { Splits result (hex_ascii (chars text.now)) }
    ensures err_end { IfErr result (λ e. IsSuffix (chars e.rest.now) (chars text.now)) }
{
    let (byte, rest) = split_hex_byte(text)?;
    if byte.is_ascii() {
        Ok((char::from(byte), rest))
    } else {
        Err(QuotedError::escape(EscapeFault::BytesOfNoCharacter, rest))
    }
}

/// The one character whose UTF-8 these bytes are.
fn character_of(bytes: &[u8]) -> Option<char>
    ensures { result ≡ character_of bytes.now }
{
    let Ok(text) = str::from_utf8(bytes) else {
        return None;
    };
    let (first, rest) = split_first(text)?;
    if is_ended(rest) { Some(first) } else { None }
}

/// The character whose UTF-8 one to four `\xHH` spell at the start of a text, and what follows them.
fn split_hex_character(text: &str) -> Result<(char, &str), QuotedError<'_>>
    ensures value { Splits result (hex_character (chars text.now)) }
    ensures err_end { IfErr result (λ e. IsSuffix (chars e.rest.now) (chars text.now)) }
{
    let mut bytes = [0u8; 4];
    let mut rest = text;
    for count in 0..4 {
        let (byte, after) = split_hex_byte(rest)?;
        bytes[count] = byte;
        if let Some(character) = character_of(&bytes[..count + 1]) {
            return Ok((character, after));
        }
        rest = after;
    }
    Err(QuotedError::escape(EscapeFault::BytesOfNoCharacter, rest))
}

/// The character that one to six hexadecimal digits and `}` name at the start of a text, and what follows them.
fn split_braced(text: &str) -> Result<(char, &str), QuotedError<'_>>
    ensures value { Splits result (braced_character (chars text.now)) }
    ensures err_end { IfErr result (λ e. IsSuffix (chars e.rest.now) (chars text.now)) }
{
    let mut rest = text;
    let mut value = 0u32;
    let mut count = 0u32;
    while count < 6 && strip_char(rest, '}').is_none() {
        let (digit, after) = split_hex_digit(rest)?;
        value = value * 16 + digit;
        count += 1;
        rest = after;
    }
    if count == 0 {
        return Err(QuotedError::escape(EscapeFault::NoDigits, rest));
    }
    let Some(after) = strip_char(rest, '}') else {
        return Err(QuotedError::escape(EscapeFault::MissingClosingBrace, rest));
    };
    match char::from_u32(value) {
        Some(character) => Ok((character, after)),
        None => Err(QuotedError::escape(EscapeFault::NoCharacter, after)),
    }
}

/// The character that `\u{H..}` names at the start of a text, and what follows it.
#[tactic(auto, unfolding(ron_lex_text::proofs::StretchLemmas::literals))]
pub(crate) fn split_unicode_escape(text: &str) -> Result<(char, &str), QuotedError<'_>>
    ensures value { Splits result (unicode_escape (chars text.now)) }
    ensures err_end { IfErr result (λ e. IsSuffix (chars e.rest.now) (chars text.now)) }
{
    let Some(marked) = strip_text(text, "\\u") else {
        return Err(QuotedError::escape(EscapeFault::UnknownCharacter, text));
    };
    let Some(digits) = strip_char(marked, '{') else {
        return Err(QuotedError::escape(EscapeFault::MissingBrace, marked));
    };
    split_braced(digits)
}

/// The character of an escape of a char literal at the start of a text, and what follows it. There `\xHH` gives an
/// ASCII character.
#[tactic(auto, unfolding(ron_lex_text::proofs::StretchLemmas::literals))]
pub(crate) fn split_char_escape(text: &str) -> Result<(char, &str), QuotedError<'_>>
    ensures value { Splits result (escape hex_ascii unicode_escape (chars text.now)) }
    ensures err_end { IfErr result (λ e. IsSuffix (chars e.rest.now) (chars text.now)) }
{
    if begins_with(text, "\\x") {
        return split_hex_ascii(text);
    }
    if begins_with(text, "\\u") {
        return split_unicode_escape(text);
    }
    split_plain_escape(text)
}

/// The byte of an escape of a byte literal at the start of a text, and what follows it. There is no `\u`.
#[tactic(auto, unfolding(ron_lex_text::proofs::StretchLemmas::literals))]
pub(crate) fn split_byte_escape(text: &str) -> Result<(u8, &str), QuotedError<'_>>
    ensures value { Splits result (escape hex_byte (fail bad) (chars text.now)) }
    ensures err_end { IfErr result (λ e. IsSuffix (chars e.rest.now) (chars text.now)) }
{
    if begins_with(text, "\\x") {
        return split_hex_byte(text);
    }
    if begins_with(text, "\\u") {
        let (_, rest) = split_unicode_escape(text)?;
        return Err(QuotedError::escape(EscapeFault::UnicodeInByte, rest));
    }
    let (character, rest) = split_plain_escape(text)?;
    Ok((character as u8, rest))
}

/// The character of an escape of a string at the start of a text, and what follows it. There one to four `\xHH` give
/// the character whose UTF-8 they are.
#[tactic(auto, unfolding(ron_lex_text::proofs::StretchLemmas::literals))]
pub(crate) fn split_string_escape(text: &str) -> Result<(char, &str), QuotedError<'_>>
    ensures value { Splits result (escape hex_character unicode_escape (chars text.now)) }
    ensures err_end { IfErr result (λ e. IsSuffix (chars e.rest.now) (chars text.now)) }
{
    if begins_with(text, "\\x") {
        return split_hex_character(text);
    }
    if begins_with(text, "\\u") {
        return split_unicode_escape(text);
    }
    split_plain_escape(text)
}
