//! Char and byte literals.
ghost use Rattle.std.specs.Prelude.{chars, IfOk, IfErr};
ghost use Rattle.ron_spec_words.specs.Quoted.{char, byte};
ghost use Rattle.ron_lex_text.specs.Stretch.{IsSuffix, IsProperSuffix};
ghost use Rattle.ron_lex.specs.Quoted.{Splits, quoted_char, quoted_byte};

use crate::escape::{split_byte_escape, split_char_escape};
use crate::fault::{QuotedError, QuotedFault};
use ron_lex_text::text::{split_first, strip_char, strip_text};

/// The character of the char literal at the start of a text, and what follows the literal.
///
/// A char literal is `'`, a character or an escape, and `'`; so `'''` is the character `'`. Where there is none, the
/// error is `NoChar` where no `'` stands, `Eof` where the text ends behind it or in an escape, `InvalidEscape`, or
/// `MissingQuote`.
pub(crate) fn split_char(text: &str) -> Result<(char, &str), QuotedError<'_>>
    ensures value { Splits result (char (chars text.now)) }
    ensures past { IfOk result (λ p. IsProperSuffix (chars p.1.now) (chars text.now)) }
    ensures err_end { IfErr result (λ e. IsSuffix (chars e.rest.now) (chars text.now)) }
{
    let Some(content) = strip_char(text, '\'') else {
        return Err(QuotedError::new(QuotedFault::NoChar, text));
    };
    let (character, after) = split_quoted_char(content)?;
    match strip_char(after, '\'') {
        Some(rest) => Ok((character, rest)),
        None => Err(QuotedError::new(QuotedFault::MissingQuote, after)),
    }
}

/// The character that stands between the quotes of a char literal, and what follows it.
fn split_quoted_char(text: &str) -> Result<(char, &str), QuotedError<'_>>
    ensures value { Splits result (quoted_char (chars text.now)) }
    ensures err_end { IfErr result (λ e. IsSuffix (chars e.rest.now) (chars text.now)) }
{
    match split_first(text) {
        None => Err(QuotedError::new(QuotedFault::Eof, text)),
        Some(('\\', _)) => split_char_escape(text),
        Some((character, rest)) => Ok((character, rest)),
    }
}

/// The byte of the byte literal at the start of a text, and what follows the literal.
///
/// A byte literal is `b'`, an ASCII character or an escape other than `\u`, and `'`. Where there is none, the error is
/// `NoByteLiteral` where no `b'` stands or another character follows it, `Eof` where the text ends behind it or in an
/// escape, `InvalidEscape`, or `MissingQuote`.
#[tactic(auto, unfolding(ron_lex_text::proofs::StretchLemmas::literals))]
pub(crate) fn split_byte(text: &str) -> Result<(u8, &str), QuotedError<'_>>
    ensures value { Splits result (byte (chars text.now)) }
    ensures past { IfOk result (λ p. IsProperSuffix (chars p.1.now) (chars text.now)) }
    ensures err_end { IfErr result (λ e. IsSuffix (chars e.rest.now) (chars text.now)) }
{
    let Some(content) = strip_text(text, "b'") else {
        return Err(QuotedError::new(QuotedFault::NoByteLiteral, text));
    };
    let (byte, after) = split_quoted_byte(content)?;
    match strip_char(after, '\'') {
        Some(rest) => Ok((byte, rest)),
        None => Err(QuotedError::new(QuotedFault::MissingQuote, after)),
    }
}

/// The byte that stands between the quotes of a byte literal, and what follows it.
fn split_quoted_byte(text: &str) -> Result<(u8, &str), QuotedError<'_>>
    ensures value { Splits result (quoted_byte (chars text.now)) }
    ensures err_end { IfErr result (λ e. IsSuffix (chars e.rest.now) (chars text.now)) }
{
    match split_first(text) {
        None => Err(QuotedError::new(QuotedFault::Eof, text)),
        Some(('\\', _)) => split_byte_escape(text),
        Some((character, rest)) if character.is_ascii() => Ok((character as u8, rest)),
        Some((_, rest)) => Err(QuotedError::new(QuotedFault::NoByteLiteral, rest)),
    }
}
