//! Names and integers where no type is given.
ghost use Rattle.std.specs.Prelude.{◌≡◌, ◌≤◌, ◌==◌, ◌&&◌, ◌++◌, false, if◌then◌else◌, chars, IfOk, IfErr, MatchResult};
ghost use Rattle.std.specs.List.{list_any};
ghost use Rattle.ron_spec_words.specs.Runs.{after_run, same_text};
ghost use Rattle.ron_spec_words.specs.Beyond.{bytes_in};
ghost use Rattle.ron_spec_words.specs.Characters.{starts_name, continues_name};
ghost use Rattle.ron_spec_words.specs.Name.{untyped_name, opens_literal, value_words};
ghost use Rattle.ron_spec_words.specs.AnyInteger.{untyped_integer, in_float};
ghost use Rattle.ron_spec_words.specs.Reader.{got, failed, bad, run};
ghost use Rattle.ron_lex.specs.Numeral.{numeral_view};
ghost use Rattle.ron_lex.specs.Untyped.{passes_digits, in_both, past_both, opens_fraction, RefusesUntyped};
ghost use Rattle.ron_lex.specs.Turns.{IsLook, IsBehindWords, LooksTo};
ghost use Rattle.ron_lex_text.specs.Stretch.{IsSuffix, IsProperSuffix};

use crate::any_integer::{AnyIntegerFault, split_any_integer};
use crate::identifier::{opens_literal, raw_identifier};
use crate::numeral::Numeral;
use crate::plain::{Begun, begin, plain_numeral};
use ron_lex_text::text::{Class, begins_with, is_same, split_first, split_word, strip_char};

/// The name at the start of a text where no type is given, as a slice of the text, and what follows it: a raw
/// identifier, or a plain one that is no word of a value. Any character may follow it. Where there is none, the answer
/// is the end up to which the text was gone over.
#[tactic(auto, unfolding(ron_lex_text::proofs::StretchLemmas::literals))]
pub(crate) fn split_untyped_name(text: &str) -> Result<(&str, &str), &str>
    ensures value { MatchResult result
        (λ p. untyped_name (chars text.now) ≡ got (chars p.0.now) (chars p.1.now))
        (λ _. untyped_name (chars text.now) ≡ failed bad) }
    ensures past { IfOk result (λ p. IsProperSuffix (chars p.1.now) (chars text.now)) }
    ensures seen { MatchResult result
        (λ p. IsBehindWords (chars text.now) (chars p.1.now))
        (λ end. IsLook (chars text.now) (chars end.now)) }
    ensures word { IfErr result (λ end. opens_literal (chars text.now) ≡ false
        → LooksTo (run starts_name continues_name (chars text.now)) (chars end.now)) }
{
    if begins_with(text, "r#") {
        return match raw_identifier(text) {
            Ok((name, rest)) => Ok((name, rest)),
            Err(_) => Err(text),
        };
    }
    if opens_literal(text) {
        return Err(text);
    }
    let Some((name, rest)) = split_word(text, Class::NameStart, Class::NameContinue) else {
        return Err(text);
    };
    if is_value_word(name) {
        return Err(rest);
    }
    Ok((name, rest))
}

/// Whether a plain identifier stands for a value, or begins one: a boolean, an option or a float.
#[tactic(auto, unfolding(ron_lex_text::proofs::StretchLemmas::literals))]
fn is_value_word(name: &str) -> bool
    ensures { result ≡ list_any (same_text (chars name.now)) value_words }
{
    is_same(name, "true")
        || (is_same(name, "false")
            || (is_same(name, "Some")
                || (is_same(name, "None")
                    || (is_same(name, "inf")
                        || (is_same(name, "inff32")
                            || (is_same(name, "inff64")
                                || (is_same(name, "NaN")
                                    || (is_same(name, "NaNf32") || is_same(name, "NaNf64")))))))))
}

/// Why no integer is read where no type is given.
#[derive(Clone, Copy)]
pub enum UntypedIntegerFault {
    /// A float stands there.
    UnsupportedFloat,
    /// Neither an integer nor a byte literal is read.
    Integer(AnyIntegerFault),
}

/// A fault, where the stretch at fault begins, and what follows it.
#[derive(Clone, Copy)]
pub struct UntypedIntegerError<'a> {
    pub fault: UntypedIntegerFault,
    pub start: &'a str,
    pub rest: &'a str,
    /// The end up to which the test for a float has gone over the text.
    pub(crate) seen: &'a str,
}

/// The integer, or the byte literal, at the start of a text, and what follows it, where no float stands. A float is
/// refused at the place where it begins.
pub(crate) fn split_untyped_integer(
    text: &str,
) -> Result<(Numeral<'_>, &str), UntypedIntegerError<'_>>
    ensures value { MatchResult result
        (λ p. untyped_integer (chars text.now) ≡ got (numeral_view p.0) (chars p.1.now))
        (λ e. RefusesUntyped (chars text.now) e.fault (chars e.rest.now)) }
    ensures literal { IfOk result (λ p. chars text.now ≡ chars p.0.literal.now ++ chars p.1.now) }
    ensures past { IfOk result (λ p. IsProperSuffix (chars p.1.now) (chars text.now)) }
    ensures err_start { IfErr result (λ e. IsSuffix (chars e.start.now) (chars text.now)) }
    ensures err_end { IfErr result (λ e. IsSuffix (chars e.rest.now) (chars e.start.now)) }
    ensures seen { IfErr result (λ e. bytes_in (chars e.seen.now) ≤ bytes_in (past_both (chars text.now))) }
{
    let begun = begin(text);
    if let Some(found) = plain_numeral(text, begun) {
        return Ok(found);
    }
    let (is_float, seen) = float_behind(begun);
    if is_float {
        return Err(UntypedIntegerError {
            fault: UntypedIntegerFault::UnsupportedFloat,
            start: text,
            rest: text,
            seen,
        });
    }
    match split_any_integer(text) {
        Ok(found) => Ok(found),
        Err(refused) => Err(UntypedIntegerError {
            fault: UntypedIntegerFault::Integer(refused.fault),
            start: refused.start,
            rest: refused.rest,
            seen,
        }),
    }
}

/// Whether a float stands where an integer was begun, and the end up to which it was gone over.
fn float_behind(begun: Begun<'_>) -> (bool, &str)
    ensures value { result.0 ≡ (begun.entry.base == 10) && passes_digits (chars begun.entry.behind.now) }
    ensures end { chars result.1.now ≡ (if begun.entry.base == 10 then after_run in_both (chars begun.entry.behind.now)
        else chars begun.entry.digits.now) }
{
    if begun.base == 10 {
        return passes_digits(begun.behind);
    }
    (false, begun.digits)
}

/// Whether what a float is made of goes on behind the digits that stand at the start of a text, up to the first `..`; and
/// the end up to which the text was gone over.
#[tactic(auto, unfolding(ron_lex_text::proofs::StretchLemmas::literals))]
fn passes_digits(text: &str) -> (bool, &str)
    ensures value { result.0 ≡ passes_digits (chars text.now) }
    ensures end { chars result.1.now ≡ after_run in_both (chars text.now) }
{
    let mut rest = text;
    while let Some((first, after)) = split_first(rest) {
        if !first.is_ascii_digit() {
            if begins_with(rest, "..") || !in_float(first) {
                return (false, rest);
            }
            if !Class::HexDigits.contains(first) {
                return (true, rest);
            }
        }
        rest = after;
    }
    (false, rest)
}

/// Whether a float without digits before its point begins at the start of a text: behind the point stands another
/// character that a float may hold.
pub(crate) fn opens_fraction(text: &str) -> bool
    ensures { result ≡ opens_fraction (chars text.now) }
{
    match strip_char(text, '.').and_then(split_first) {
        Some((first, _)) => first != '.' && in_float(first),
        None => false,
    }
}

/// Whether a float may hold the character.
fn in_float(character: char) -> bool
    ensures { result ≡ in_float character }
{
    character.is_ascii_digit() || matches!(character, 'e' | 'E' | '.' | '+' | '-' | '_')
}
