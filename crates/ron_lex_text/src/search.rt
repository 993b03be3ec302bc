//! Searches for single marks of a text, by its bytes: a byte below 128 stands only where that character stands. Marks
//! often stand side by side, so the first character is looked at before a search is begun.
ghost use Rattle.std.specs.Prelude.{◌≡◌, ◌≤◌, length, chars};
ghost use Rattle.ron_spec_words.specs.Runs.{after_run};
ghost use Rattle.ron_lex_text.specs.Stretch.{in_class};
ghost use Rattle.ron_lex_text.specs.declared.text.Class.TheVariants.{Unquoted, Plain, Line, Comment};

use crate::text::is_at;
use memchr::{memchr, memchr2};

/// The text from its first `"` on.
#[inline]
pub fn skip_to_quote(text: &str) -> &str
    ensures shorter { length result.now ≤ length text.now }
    ensures value { chars result.now ≡ after_run (in_class Unquoted) (chars text.now) }
{
    if is_at(text, '"') {
        return text;
    }
    match memchr(b'"', text.as_bytes()) {
        Some(place) => &text[place..],
        None => "",
    }
}

/// The text from its first `"` or backslash on.
#[inline]
pub fn skip_to_quote_or_escape(text: &str) -> &str
    ensures shorter { length result.now ≤ length text.now }
    ensures value { chars result.now ≡ after_run (in_class Plain) (chars text.now) }
{
    if is_at(text, '\\') || is_at(text, '"') {
        return text;
    }
    match memchr2(b'"', b'\\', text.as_bytes()) {
        Some(place) => &text[place..],
        None => "",
    }
}

/// The text from its first LF on.
#[inline]
pub fn skip_to_line_end(text: &str) -> &str
    ensures shorter { length result.now ≤ length text.now }
    ensures value { chars result.now ≡ after_run (in_class Line) (chars text.now) }
{
    match memchr(b'\n', text.as_bytes()) {
        Some(place) => &text[place..],
        None => "",
    }
}

/// The text from its first `*` or `/` on.
#[inline]
pub fn skip_to_comment_mark(text: &str) -> &str
    ensures shorter { length result.now ≤ length text.now }
    ensures value { chars result.now ≡ after_run (in_class Comment) (chars text.now) }
{
    if is_at(text, '*') || is_at(text, '/') {
        return text;
    }
    match memchr2(b'*', b'/', text.as_bytes()) {
        Some(place) => &text[place..],
        None => "",
    }
}
