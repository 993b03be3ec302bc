//! Plain and raw identifiers.
ghost use Rattle.std.specs.Prelude.{◌≡◌, ◌≤◌, false, chars, codes, IfOk, IfErr, MatchResult};
ghost use Rattle.ron_spec_words.specs.Beyond.{bytes_in};
ghost use Rattle.ron_spec_words.specs.Characters.{in_raw_name};
ghost use Rattle.ron_spec_words.specs.Name.{name, opens_literal};
ghost use Rattle.ron_spec_words.specs.Reader.{got, failed, bad};
ghost use Rattle.ron_spec_words.specs.Runs.{after_run, begins_with};
ghost use Rattle.ron_spec_words.specs.Scan.{opens_raw_name};
ghost use Rattle.ron_lex_text.specs.Stretch.{IsSuffix, IsProperSuffix};
ghost use Rattle.ron_lex.specs.Identifier.{raw_name_behind_mark, plain_name, past_name_run, run_bytes};
ghost use Rattle.ron_lex.specs.Turns.{IsLook, IsBehindWords, passed};

use crate::turns::bytes_of;
use ron_lex_text::text::{
    Class, before, begins_with, is_at, is_at_class, is_ended, skip_run, split_word, strip_char,
};

/// Why no name is read where one is required.
#[derive(Clone, Copy)]
pub enum IdentifierFault<'a> {
    /// The text has ended.
    Eof,
    /// No identifier begins here.
    NoIdentifier,
    /// Only a raw identifier spells the name that stands here: this run of the source.
    OnlyRaw(&'a str),
}

/// The name that the identifier at the start of a text spells, as a slice of the text, and what follows the
/// identifier.
///
/// A plain identifier is `_` or an XID_Start character and XID_Continue characters, and none of `.`, `+` and `-`
/// follows it. A raw identifier is `r#` and one or more of `.`, `+`, `-` and XID_Continue.
pub(crate) fn split_identifier(text: &str) -> Result<(&str, &str), IdentifierFault<'_>>
    ensures value { MatchResult result
        (λ p. name (chars text.now) ≡ got (chars p.0.now) (chars p.1.now))
        (λ _. name (chars text.now) ≡ failed bad) }
    ensures past { IfOk result (λ p. IsProperSuffix (chars p.1.now) (chars text.now)) }
    ensures run { IfErr result (λ fault. run_bytes fault ≤ bytes_in (chars text.now)) }
    ensures least { IfErr result (λ fault. opens_literal (chars text.now) ≡ false
        → passed (chars text.now) (past_name_run (chars text.now)) ≤ run_bytes fault) }
{
    match split_name(text) {
        Ok(found) => Ok(found),
        Err(end) => Err(name_fault(text, end)),
    }
}

/// The same, and where there is none, the end up to which the text was gone over.
pub(crate) fn split_name(text: &str) -> Result<(&str, &str), &str>
    ensures value { MatchResult result
        (λ p. name (chars text.now) ≡ got (chars p.0.now) (chars p.1.now))
        (λ _. name (chars text.now) ≡ failed bad) }
    ensures past { IfOk result (λ p. IsProperSuffix (chars p.1.now) (chars text.now)) }
    ensures seen { MatchResult result
        (λ p. IsBehindWords (chars text.now) (chars p.1.now))
        (λ end. IsLook (chars text.now) (chars end.now)) }
    ensures run { IfErr result (λ end. opens_literal (chars text.now) ≡ false
        → after_run in_raw_name (chars end.now) ≡ past_name_run (chars text.now)) }
{
    if has_raw_mark(text) {
        return match raw_identifier(text) {
            Ok(found) => Ok(found),
            Err(_) => Err(text),
        };
    }
    if opens_literal(text) {
        return Err(text);
    }
    plain_identifier(text)
}

/// Whether `r#`, with which a raw identifier begins, stands here. Most names begin with another character.
#[tactic(auto, unfolding(ron_lex_text::proofs::StretchLemmas::literals))]
#[inline]
fn has_raw_mark(text: &str) -> bool
    ensures { result ≡ begins_with (codes "r#") (chars text.now) }
{
    is_at(text, 'r') && begins_with(text, "r#")
}

/// Why no name is read: a run of the characters of a raw name that goes on behind this end of the text's first word is
/// one that only a raw identifier spells.
#[cold]
#[inline(never)]
#[tactic(auto, unfolding(ron_lex_text::proofs::StretchLemmas::literals))]
fn name_fault<'a>(text: &'a str, end: &'a str) -> IdentifierFault<'a>
    requires { IsSuffix (chars end.now) (chars text.now) }
    ensures most { run_bytes result ≤ bytes_in (chars text.now) }
    ensures least { opens_literal (chars text.now) ≡ false
        → passed (chars text.now) (after_run in_raw_name (chars end.now)) ≤ run_bytes result }
{
    if is_ended(text) {
        return IdentifierFault::Eof;
    }
    if opens_literal(text) {
        return IdentifierFault::NoIdentifier;
    }
    let run = before(text, skip_run(end, Class::RawName));
    if is_ended(run) {
        IdentifierFault::NoIdentifier
    } else {
        IdentifierFault::OnlyRaw(run)
    }
}

/// How many bytes of a text were gone over, to find that no name is read.
pub(crate) fn bytes_of_run(fault: IdentifierFault<'_>) -> usize
    ensures { result ≡ run_bytes fault.entry }
{
    match fault {
        IdentifierFault::OnlyRaw(run) => bytes_of(run),
        IdentifierFault::Eof | IdentifierFault::NoIdentifier => 0,
    }
}

/// The name behind `r#`, and what follows it.
pub(crate) fn raw_identifier(text: &str) -> Result<(&str, &str), IdentifierFault<'_>>
    ensures value { MatchResult result
        (λ p. raw_name_behind_mark (chars text.now) ≡ got (chars p.0.now) (chars p.1.now))
        (λ _. raw_name_behind_mark (chars text.now) ≡ failed bad) }
    ensures past { IfOk result (λ p. IsProperSuffix (chars p.1.now) (chars text.now)) }
{
    let Some(marked) = strip_char(text, 'r') else {
        return Err(IdentifierFault::NoIdentifier);
    };
    let Some(name) = strip_char(marked, '#') else {
        return Err(IdentifierFault::NoIdentifier);
    };
    match split_word(name, Class::RawName, Class::RawName) {
        Some((name, rest)) => Ok((name, rest)),
        None => Err(IdentifierFault::NoIdentifier),
    }
}

/// The plain identifier at the start of a text, and what follows it.
fn plain_identifier(text: &str) -> Result<(&str, &str), &str>
    requires { opens_raw_name (chars text.now) ≡ false }
    ensures value { MatchResult result
        (λ p. plain_name (chars text.now) ≡ got (chars p.0.now) (chars p.1.now))
        (λ _. plain_name (chars text.now) ≡ failed bad) }
    ensures past { IfOk result (λ p. IsProperSuffix (chars p.1.now) (chars text.now)) }
    ensures seen { MatchResult result
        (λ p. IsBehindWords (chars text.now) (chars p.1.now))
        (λ end. IsLook (chars text.now) (chars end.now)) }
    ensures run { IfErr result (λ end.
        after_run in_raw_name (chars end.now) ≡ past_name_run (chars text.now)) }
{
    let Some((name, rest)) = split_word(text, Class::NameStart, Class::NameContinue) else {
        return Err(text);
    };
    if is_at_class(rest, Class::NameMark) {
        return Err(rest);
    }
    Ok((name, rest))
}

/// Whether a string, a byte string or a byte literal begins here. No identifier does then. Most names begin with another
/// character than these, and are not looked at further.
#[tactic(auto, unfolding(ron_lex_text::proofs::StretchLemmas::literals))]
#[inline(always)]
pub(crate) fn opens_literal(text: &str) -> bool
    ensures { result ≡ opens_literal (chars text.now) }
{
    if !is_at(text, 'b') && !is_at(text, 'r') {
        return false;
    }
    begins_literal(text)
}

#[tactic(auto, unfolding(ron_lex_text::proofs::StretchLemmas::literals))]
#[inline(never)]
fn begins_literal(text: &str) -> bool
    ensures { result ≡ opens_literal (chars text.now) }
{
    (begins_with(text, "b\"")
        || begins_with(text, "b'")
        || begins_with(text, "br#")
        || begins_with(text, "br\""))
        || (begins_with(text, "r\"") || begins_with(text, "r#"))
}
