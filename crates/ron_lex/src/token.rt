//! The longest token at a place, passed without a look at what it spells. No memory is taken.
ghost use Rattle.std.specs.Prelude.{◌≡◌, chars, IfSome};
ghost use Rattle.ron_spec_words.specs.Runs.{begins};
ghost use Rattle.ron_spec_words.specs.Scan.{token, past_gap, left_by, opens_raw, opens_string, opens_byte_string};
ghost use Rattle.ron_spec_words.specs.Scan.{opens_raw_name, raw_name};
ghost use Rattle.ron_spec_words.specs.Quoted.{char, byte};
ghost use Rattle.ron_lex_text.specs.Stretch.{IsProperSuffix};
ghost use Rattle.ron_lex.specs.Token.{Leaves, is_plain, past_literal, past_run};
ghost use Rattle.ron_lex.specs.Turns.{IsLook, behind_hashes, behind_byte_hashes};

use crate::byte_string::skip_byte_string;
use crate::character::{split_byte, split_char};
use crate::gap::{opens_gap, skip_gap};
use crate::identifier::raw_identifier;
use crate::string::skip_string;
use ron_base::name::{continues_name, starts_name};
use ron_lex_text::text::{
    Class, before, begins_with, is_at, is_at_class, is_ended, skip_name, skip_run, split_first,
    strip_char, strip_text,
};

/// What follows the longest token at the start of a text: a gap, a literal, an identifier or a run of XID_Continue, or
/// one other character. There is none at the end of the text, and where a gap or a literal begins that is refused.
pub fn skip_token(text: &str) -> Option<&str>
    ensures value { Leaves result (token (chars text.now)) }
    ensures past { IfSome result (λ rest. IsProperSuffix (chars rest.now) (chars text.now)) }
{
    if opens_plain(text) {
        return skip_run_or_one(text);
    }
    if opens_gap(text) {
        return skip_whole_gap(text);
    }
    if opens_string(text) {
        return skip_string(text);
    }
    if opens_byte_string(text) {
        return skip_byte_string(text);
    }
    if is_at(text, '\'') {
        return skip_char(text);
    }
    skip_unquoted(text)
}

/// Whether a character stands here with which neither a gap, a literal nor a raw identifier begins, as most do.
#[inline]
fn opens_plain(text: &str) -> bool
    ensures { result ≡ begins is_plain (chars text.now) }
{
    match split_first(text) {
        Some((first, _)) => {
            !(Class::Blank.contains(first) || matches!(first, '/' | '"' | '\'' | 'b' | 'r'))
        }
        None => false,
    }
}

/// The same where neither a gap, a string nor a char literal begins.
#[tactic(auto, unfolding(ron_lex_text::proofs::StretchLemmas::literals))]
fn skip_unquoted(text: &str) -> Option<&str>
    ensures { Leaves result (past_literal (chars text.now)) }
{
    if begins_with(text, "b'") {
        return skip_byte(text);
    }
    if opens_raw_name(text) {
        return skip_raw_name(text);
    }
    skip_run_or_one(text)
}

/// What follows the longest gap, where it is not empty.
fn skip_whole_gap(text: &str) -> Option<&str>
    ensures { Leaves result (past_gap (chars text.now)) }
{
    let rest = skip_gap(text);
    if is_ended(before(text, rest)) {
        return None;
    }
    Some(rest)
}

/// What follows the char literal at the start of a text.
fn skip_char(text: &str) -> Option<&str>
    ensures { Leaves result (left_by (char (chars text.now))) }
{
    match split_char(text) {
        Ok((_, rest)) => Some(rest),
        Err(_) => None,
    }
}

/// What follows the byte literal at the start of a text.
fn skip_byte(text: &str) -> Option<&str>
    ensures { Leaves result (left_by (byte (chars text.now))) }
{
    match split_byte(text) {
        Ok((_, rest)) => Some(rest),
        Err(_) => None,
    }
}

/// What follows the raw identifier at the start of a text.
fn skip_raw_name(text: &str) -> Option<&str>
    ensures { Leaves result (left_by (raw_name (chars text.now))) }
{
    match raw_identifier(text) {
        Ok((_, rest)) => Some(rest),
        Err(_) => None,
    }
}

/// What follows an identifier or a run of XID_Continue, or else one character.
fn skip_run_or_one(text: &str) -> Option<&str>
    ensures { Leaves result (past_run (chars text.now)) }
{
    let Some((first, after)) = split_first(text) else {
        return None;
    };
    if starts_name(first) || continues_name(first) {
        return Some(skip_name(after));
    }
    Some(after)
}

/// Whether a raw string begins here: `r`, hashes or none, and a quote.
fn opens_raw(text: &str) -> bool
    ensures { result ≡ opens_raw (chars text.now) }
{
    look_at_raw(text).0
}

/// The same, and the end up to which the text was gone over: behind the hashes.
fn look_at_raw(text: &str) -> (bool, &str)
    ensures value { result.0 ≡ opens_raw (chars text.now) }
    ensures end { chars result.1.now ≡ behind_hashes (chars text.now) }
{
    match strip_char(text, 'r') {
        Some(marked) => {
            let end = skip_run(marked, Class::Hash);
            (is_at(end, '"'), end)
        }
        None => (false, text),
    }
}

/// Whether a string begins here, and the end up to which the text was gone over.
pub(crate) fn look_at_string(text: &str) -> (bool, &str)
    ensures value { result.0 ≡ opens_string (chars text.now) }
    ensures end { chars result.1.now ≡ behind_hashes (chars text.now) }
{
    let (is_raw, end) = look_at_raw(text);
    (is_at(text, '"') || is_raw, end)
}

/// Whether a byte string begins here, and the end up to which the text was gone over.
pub(crate) fn look_at_byte_string(text: &str) -> (bool, &str)
    ensures value { result.0 ≡ opens_byte_string (chars text.now) }
    ensures end { chars result.1.now ≡ behind_byte_hashes (chars text.now) }
    ensures seen { IsLook (chars text.now) (chars result.1.now) }
{
    match strip_char(text, 'b') {
        Some(marked) => look_at_string(marked),
        None => (false, text),
    }
}

/// Whether a string begins here.
pub(crate) fn opens_string(text: &str) -> bool
    ensures { result ≡ opens_string (chars text.now) }
{
    is_at(text, '"') || opens_raw(text)
}

/// Whether a byte string begins here.
pub(crate) fn opens_byte_string(text: &str) -> bool
    ensures { result ≡ opens_byte_string (chars text.now) }
{
    match strip_char(text, 'b') {
        Some(marked) => opens_string(marked),
        None => false,
    }
}

/// Whether a raw identifier begins here.
#[tactic(auto, unfolding(ron_lex_text::proofs::StretchLemmas::literals))]
fn opens_raw_name(text: &str) -> bool
    ensures { result ≡ opens_raw_name (chars text.now) }
{
    match strip_text(text, "r#") {
        Some(name) => is_at_class(name, Class::RawName),
        None => false,
    }
}
