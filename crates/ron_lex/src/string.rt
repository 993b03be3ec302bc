//! Strings.
ghost use Rattle.std.specs.Prelude.{◌≡◌, true, chars, option_to_list, IfOk, IfErr, MatchOption};
ghost use Rattle.ron_spec_words.specs.Quoted.{String, StringEscape, string, string_escape, itself};
ghost use Rattle.ron_lex.specs.Content.{string_is};
ghost use Rattle.ron_lex_text.specs.Stretch.{IsProperSuffix};
ghost use Rattle.ron_lex_text.specs.Parsed.{parsed_text, is_slice};
ghost use Rattle.ron_lex.specs.Quoted.{SplitsOrMemory, EndsIn, IsSliceUnlessEscaped, StandsBetweenQuotes};
ghost use Rattle.ron_lex.specs.Quoted.{HoldsEscape, NoContinuation, Continues, ends_plainly};
ghost use Rattle.ron_lex.specs.Quoted.{opens_escape, opens_escaped_string, string_content};
ghost use Rattle.ron_lex.specs.Quoted.{string_chars};
ghost use Rattle.ron_spec_words.specs.Scan.{left_by};
ghost use Rattle.ron_lex.specs.Token.{Leaves};
ghost use Rattle.ron_lex.specs.Turns.{CoversAtMost};
ghost use Rattle.ron_lex.specs.Searched.{searched, searched_string, Gains};
ghost use Rattle.ron_lex.specs.declared.fault.StringRefusal.TheVariants.{OutOfMemory};

use crate::content::{Content, skip_content, split_escaped};
use crate::escape::split_string_escape;
use crate::fault::{QuotedError, QuotedFault, StringRefusal};
use crate::raw::split_raw;
use crate::searches::Searches;
use ron_lex_text::parsed::ParsedStr;
use ron_lex_text::text::{Class, before, is_ended, skip_run, strip_char};
use std::alloc::{AllocError, Global};

/// The string at the start of a text, and what follows it.
///
/// A string is `"`, characters, escapes and continuations, and `"`; or it is raw behind an `r`. It is a slice of the
/// text unless it holds an escape or a continuation, and takes memory only then. Where there is none, the error is
/// `NoString` where neither begins, `MissingStringEnd` where nothing closes it, `InvalidEscape`, or `Eof` where the
/// text ends in an escape.
pub(crate) fn split_string<'a>(
    alloc: Global,
    searches: &mut Searches,
    text: &'a str,
) -> Result<(ParsedStr<'a>, &'a str), StringRefusal<'a>>
    ensures value { SplitsOrMemory parsed_text result (string (chars text.now)) }
    ensures slice { IfOk result (λ p. IsSliceUnlessEscaped (chars text.now) (chars p.1.now) (is_slice p.0)) }
    ensures between { IfOk result (λ p. is_slice p.0 ≡ true →
        StandsBetweenQuotes (chars text.now) (chars p.1.now) (parsed_text p.0)) }
    ensures memory { IfErr result (λ e. e ≡ OutOfMemory → opens_escaped_string (chars text.now) ≡ true) }
    ensures escaped { IfErr result (λ e. e ≡ OutOfMemory → HoldsEscape String (chars text.now)) }
    ensures covered { IfOk result (λ p.
        CoversAtMost 2 searches.old.covered (chars text.now) (chars p.1.now) searches.new.covered) }
    ensures least { IfOk result (λ p.
        Gains (searched_string (chars text.now) (chars p.1.now)) searches.old.covered searches.new.covered) }
    ensures past { IfOk result (λ p. IsProperSuffix (chars p.1.now) (chars text.now)) }
    ensures err_end { IfErr result (λ e. EndsIn e (chars text.now)) }
{
    if let Some(content) = strip_char(text, '"') {
        return split_quoted(alloc, searches, content);
    }
    let Some(marked) = strip_char(text, 'r') else {
        return Err(QuotedError::new(QuotedFault::NoString, text).into());
    };
    let (content, rest) = split_raw(marked, QuotedFault::NoString)?;
    // Who keeps the slice compares it with the source, or copies it.
    searches.pass_twice(text, rest);
    Ok((ParsedStr::Slice(content), rest))
}

/// What follows the string at the start of a text. No memory is taken.
pub(crate) fn skip_string(text: &str) -> Option<&str>
    ensures { Leaves result (left_by (string (chars text.now))) }
{
    if let Some(content) = strip_char(text, '"') {
        return skip_content::<String>(content);
    }
    let Some(marked) = strip_char(text, 'r') else {
        return None;
    };
    match split_raw(marked, QuotedFault::NoString) {
        Ok((_, rest)) => Some(rest),
        Err(_) => None,
    }
}

/// What follows the continuation at the start of a text: a backslash, LF or CRLF, and all spaces, tabs, LFs and CRs.
pub(crate) fn strip_continuation(text: &str) -> Option<&str>
    ensures { MatchOption result (NoContinuation (chars text.now))
        (λ rest. Continues (chars text.now) (chars rest.now)) }
{
    let Some(marked) = strip_char(text, '\\') else {
        return None;
    };
    let line_feed = strip_char(marked, '\r').unwrap_or(marked);
    let Some(behind) = strip_char(line_feed, '\n') else {
        return None;
    };
    Some(skip_run(behind, Class::Continuation))
}

impl Content for String {
    /// The character of an escape. A continuation gives none.
    type Given = Option<char>;

    ghost content = { string_content };

    ghost gives = { itself };

    ghost escapes = { string_escape };

    ghost spelled = { StringEscape };

    ghost made = { string_chars };

    ghost piece = { option_to_list };

    ghost is_content = { string_is };

    fn with_room(alloc: Global, room: usize) -> Result<String, AllocError> {
        String::with_capacity(alloc, room)
    }

    fn push_given(&mut self, given: Option<char>) -> Result<(), AllocError> {
        match given {
            Some(character) => self.push(character),
            None => Ok(()),
        }
    }

    fn push_plain(&mut self, plain: &str) -> Result<(), AllocError> {
        self.push_str(plain)
    }

    fn split_piece(text: &str) -> Result<(Option<char>, &str), QuotedError<'_>> {
        if let Some(rest) = strip_continuation(text) {
            return Ok((None, rest));
        }
        let (character, rest) = split_string_escape(text)?;
        Ok((Some(character), rest))
    }
}

/// The string whose opening quote stands before a text, and what follows it.
fn split_quoted<'a>(
    alloc: Global,
    searches: &mut Searches,
    text: &'a str,
) -> Result<(ParsedStr<'a>, &'a str), StringRefusal<'a>>
    ensures value { SplitsOrMemory parsed_text result (string_content (chars text.now)) }
    ensures err_end { IfErr result (λ e. EndsIn e (chars text.now)) }
    ensures slice { IfOk result (λ p. is_slice p.0 ≡ ends_plainly (chars text.now)) }
    ensures memory { IfErr result (λ e. e ≡ OutOfMemory → opens_escape (chars text.now) ≡ true) }
    ensures covered { IfOk result (λ p.
        CoversAtMost 2 searches.old.covered (chars text.now) (chars p.1.now) searches.new.covered) }
    ensures least { IfOk result (λ p.
        Gains (searched (chars text.now) (chars p.1.now)) searches.old.covered searches.new.covered) }
{
    let end = searches.plain(text);
    if let Some(rest) = strip_char(end, '"') {
        // Who keeps the slice compares it with the source, or copies it.
        searches.pass(text, end);
        return Ok((ParsedStr::Slice(before(text, end)), rest));
    }
    let quote = searches.quote(end);
    if is_ended(quote) {
        return Err(QuotedError::new(QuotedFault::MissingStringEnd, text).into());
    }
    let (content, rest) = split_escaped::<String>(
        alloc,
        searches,
        text,
        end,
        text.len() - quote.len(),
    )?;
    Ok((ParsedStr::Allocated(content), rest))
}
