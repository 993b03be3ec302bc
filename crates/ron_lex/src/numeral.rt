//! Integers whole: perhaps a sign, perhaps a base, digits with underscores among them, and perhaps a suffix.
// Faults of an integer. `Eof` of the empty text; `LeadingUnderscore` where `_` begins the digits; `NoDigit` where no
// digit stands; `InvalidDigit` at the first hexadecimal digit that the base doesn't have; `OutOfBounds` where the
// magnitude passes 128 bits. A bad digit comes before a magnitude out of bounds, however large the number before it
// is: what the digits are doesn't depend on the width, and is told alike for all. A numeral keeps its base and the
// whole literal as a slice, for messages; its suffix is a `Width`.

// Where a fault stands. A refused integer leaves the cursor behind the stretch at fault, which begins at its sign, or
// with the digits where one of them is at fault. That is behind a run that begins with `_`, or behind a suffix in the
// place of digits. It is behind the whole integer where that is out of bounds, and before a digit that the base
// doesn't have. A refused literal leaves it behind what was looked at last; a string that nothing closes, behind its
// opening quote or its last escape. A refused name leaves it where it was.

ghost use Rattle.std.specs.Prelude.{◌≡◌, ◌≢◌, ◌+◌, ◌*◌, ◌<◌, ◌≤◌, ◌^◌, ◌++◌, None, true};
ghost use Rattle.std.specs.Prelude.{chars, SomeIff, IfOk, IfErr};
ghost use Rattle.std.specs.Prelude.{MatchOption, MatchResult};
ghost use Rattle.ron_spec_words.specs.Runs.{is_at};
ghost use Rattle.ron_spec_words.specs.Reader.{got, failed, bad};
ghost use Rattle.ron_spec_words.specs.AnyInteger.{past_sign};
ghost use Rattle.ron_spec_words.specs.Number.{number, opt_suffix, in_base};
ghost use Rattle.ron_lex_text.specs.Stretch.{IsSuffix, IsProperSuffix};
ghost use Rattle.ron_lex.specs.Numeral.{digits_on, numeral_view, suffix_of, base_at, past_base, IsMagnitude, RefusesNumeral};

use crate::plain::{Begun, begin, plain_numeral};
use crate::word::strip_word;
use ron_lex_text::text::{
    Class, before, is_at, is_at_class, is_ended, skip_run, split_first, strip_char, strip_text,
};
use ron_value_number::width::Width;

/// An integer as its literal spells it.
#[derive(Clone, Copy)]
pub struct Numeral<'a> {
    /// Whether `-` stands before it: `-0` is negative.
    pub is_negative: bool,
    /// 2, 8, 10 or 16; 10 for a byte literal.
    pub base: u32,
    pub magnitude: u128,
    /// The width that its suffix names.
    pub suffix: Option<Width>,
    /// The whole literal, from its sign to its suffix.
    pub literal: &'a str,
}

/// Why no integer is read.
#[derive(Clone, Copy)]
pub enum NumeralFault {
    /// The text has ended.
    Eof,
    /// No digit stands where one is required.
    NoDigit,
    /// The digits begin with `_`.
    LeadingUnderscore,
    /// A hexadecimal digit that the base doesn't have stands among the digits.
    InvalidDigit { digit: char, base: u8 },
    /// The magnitude doesn't fit 128 bits.
    OutOfBounds,
}

/// A fault, where the stretch at fault begins, and what follows it.
#[derive(Clone, Copy)]
pub struct NumeralError<'a> {
    pub fault: NumeralFault,
    pub start: &'a str,
    pub rest: &'a str,
}

/// The integer at the start of a text, and what follows it.
///
/// It is refused by `Eof` of the empty text; by `LeadingUnderscore` where `_` begins the digits, whose stretch is the
/// run of these; by `NoDigit` where no digit stands, whose stretch ends behind a suffix that stands in its place; by
/// `InvalidDigit` before the first digit that the base doesn't have, whose stretch begins with the digits; and by
/// `OutOfBounds` of the whole integer.
#[inline(always)]
pub(crate) fn split_numeral(text: &str) -> Result<(Numeral<'_>, &str), NumeralError<'_>>
    ensures value { MatchResult result
        (λ p. number (chars text.now) ≡ got (numeral_view p.0) (chars p.1.now))
        (λ e. RefusesNumeral (number (chars text.now)) e.fault (chars e.rest.now)) }
    ensures sign { IfOk result (λ p. p.0.is_negative ≡ is_at 45 (chars text.now)) }
    ensures base { IfOk result (λ p. p.0.base ≡ base_at (past_sign (chars text.now))) }
    ensures literal { IfOk result (λ p. chars text.now ≡ chars p.0.literal.now ++ chars p.1.now) }
    ensures past { IfOk result (λ p. IsProperSuffix (chars p.1.now) (chars text.now)) }
    ensures err_start { IfErr result (λ e. IsSuffix (chars e.start.now) (chars text.now)) }
    ensures err_end { IfErr result (λ e. IsSuffix (chars e.rest.now) (chars e.start.now)) }
{
    if is_ended(text) {
        return Err(NumeralError {
            fault: NumeralFault::Eof,
            start: text,
            rest: text,
        });
    }
    let begun = begin(text);
    if let Some(found) = plain_numeral(text, begun) {
        return Ok(found);
    }
    let (magnitude, behind) = match split_digits(begun) {
        Ok(found) => found,
        Err(refused) => return Err(with_sign(text, refused)),
    };
    let (suffix, rest) = split_suffix(behind);
    match magnitude {
        Some(magnitude) => Ok((
            Numeral {
                is_negative: begun.is_negative,
                base: begun.base,
                magnitude,
                suffix,
                literal: before(text, rest),
            },
            rest,
        )),
        None => Err(NumeralError {
            fault: NumeralFault::OutOfBounds,
            start: text,
            rest,
        }),
    }
}

/// The fault of digits as one of the integer `text`: only of a digit that the base doesn't have the stretch begins with
/// the digits, of any other with the sign and the base.
fn with_sign<'a>(text: &'a str, refused: NumeralError<'a>) -> NumeralError<'a>
    requires start { IsSuffix (chars refused.start.now) (chars text.now) }
    requires end { IsSuffix (chars refused.rest.now) (chars refused.start.now) }
    ensures fault { result.fault ≡ refused.entry.fault }
    ensures rest { result.rest.now ≡ refused.entry.rest.now }
    ensures start { IsSuffix (chars result.start.now) (chars text.now) }
    ensures end { IsSuffix (chars result.rest.now) (chars result.start.now) }
{
    match refused.fault {
        NumeralFault::InvalidDigit { .. } => refused,
        fault => NumeralError {
            fault,
            start: text,
            rest: refused.rest,
        },
    }
}

/// Whether `-` stands at the start of a text, and what follows the sign that stands there, if any.
#[inline(always)]
pub(crate) fn split_sign(text: &str) -> (bool, &str)
    ensures sign { result.0 ≡ is_at 45 (chars text.now) }
    ensures rest { chars result.1.now ≡ past_sign (chars text.now) }
{
    if let Some(after) = strip_char(text, '+') {
        return (false, after);
    }
    if let Some(after) = strip_char(text, '-') {
        return (true, after);
    }
    (false, text)
}

/// The base of the digits that stand at the start of a text, and the text from these on.
#[tactic(auto, unfolding(ron_lex_text::proofs::StretchLemmas::literals))]
#[inline(always)]
pub(crate) fn split_base(text: &str) -> (u32, &str)
    ensures base { result.0 ≡ base_at (chars text.now) }
    ensures rest { chars result.1.now ≡ past_base (chars text.now) }
{
    if let Some(digits) = strip_text(text, "0b") {
        return (2, digits);
    }
    if let Some(digits) = strip_text(text, "0o") {
        return (8, digits);
    }
    if let Some(digits) = strip_text(text, "0x") {
        return (16, digits);
    }
    (10, text)
}

/// The number that the digits of an integer that was begun spell, where it fits 128 bits, and what follows them.
#[inline(never)]
fn split_digits(begun: Begun<'_>) -> Result<(Option<u128>, &str), NumeralError<'_>>
    requires least { 2 ≤ begun.base }
    requires most { begun.base ≤ 16 }
    requires so_far { digits_on begun.base begun.start (chars begun.behind.now)
        ≡ digits_on begun.base 0 (chars begun.digits.now) }
    requires end { IsSuffix (chars begun.behind.now) (chars begun.digits.now) }
    ensures value { MatchResult result
        (λ p. IsMagnitude (in_base begun.entry.base (chars begun.entry.digits.now)) p.0 (chars p.1.now))
        (λ _. in_base begun.entry.base (chars begun.entry.digits.now) ≡ failed bad) }
    ensures fault { IfErr result (λ e. e.fault ≢ NumeralFault.OutOfBounds) }
    ensures past { IfOk result (λ p. IsProperSuffix (chars p.1.now) (chars begun.entry.digits.now)) }
    ensures err_start { IfErr result (λ e. e.start.now ≡ begun.entry.digits.now) }
    ensures err_end { IfErr result (λ e. IsSuffix (chars e.rest.now) (chars begun.entry.digits.now)) }
{
    let text = begun.digits;
    let base = begun.base;
    if !is_at_class(text, Class::HexDigit) {
        return Err(no_digits(text));
    }
    let mut value = Some(u128::from(begun.start));
    let mut rest = begun.behind;
    while let Some((first, after)) = split_first(rest) {
        if first.is_ascii_hexdigit() {
            let Some(digit) = first.to_digit(base) else {
                return Err(NumeralError {
                    fault: NumeralFault::InvalidDigit {
                        digit: first,
                        base: base as u8,
                    },
                    start: text,
                    rest,
                });
            };
            value = with_digit(value, base, digit);
        } else if first != '_' {
            return Ok((value, rest));
        }
        rest = after;
    }
    Ok((value, rest))
}

/// What is wrong where no digit begins the digits.
fn no_digits(text: &str) -> NumeralError<'_>
    ensures fault { result.fault ≢ NumeralFault.OutOfBounds }
    ensures start { result.start.now ≡ text.now }
    ensures end { IsSuffix (chars result.rest.now) (chars text.now) }
{
    match strip_char(text, '_') {
        Some(after) => NumeralError {
            fault: NumeralFault::LeadingUnderscore,
            start: text,
            rest: skip_run(after, Class::HexDigits),
        },
        None => NumeralError {
            fault: NumeralFault::NoDigit,
            start: text,
            rest: split_suffix(text).1,
        },
    }
}

/// A number below this one fits 128 bits with one more digit of any base.
const ROOM_FOR_A_DIGIT: u128 = 1 << 123;

/// The number with one more digit, where it fits 128 bits.
fn with_digit(value: Option<u128>, base: u32, digit: u32) -> Option<u128>
    requires base { base ≤ 16 }
    requires digit { digit ≤ 16 }
    ensures { MatchOption value (result ≡ None)
        (λ n. SomeIff result (n * base + digit < 2 ^ 128) (n * base + digit)) }
{
    let value = value?;
    if value < ROOM_FOR_A_DIGIT {
        return Some(value * u128::from(base) + u128::from(digit));
    }
    let scaled = value.checked_mul(u128::from(base))?;
    scaled.checked_add(u128::from(digit))
}

/// The width that a suffix at the start of a text names, and what follows it.
#[tactic(auto, unfolding(ron_lex_text::proofs::StretchLemmas::literals))]
fn split_suffix(text: &str) -> (Option<Width>, &str)
    ensures value { opt_suffix (chars text.now) ≡ got (suffix_of result.0) (chars result.1.now) }
    ensures end { IsSuffix (chars result.1.now) (chars text.now) }
{
    if !(is_at(text, 'i') || is_at(text, 'u')) {
        return (None, text);
    }
    if let Some(rest) = strip_word(text, "i8") {
        return (Some(Width::I8), rest);
    }
    if let Some(rest) = strip_word(text, "i16") {
        return (Some(Width::I16), rest);
    }
    if let Some(rest) = strip_word(text, "i32") {
        return (Some(Width::I32), rest);
    }
    if let Some(rest) = strip_word(text, "i64") {
        return (Some(Width::I64), rest);
    }
    if let Some(rest) = strip_word(text, "i128") {
        return (Some(Width::I128), rest);
    }
    if let Some(rest) = strip_word(text, "u8") {
        return (Some(Width::U8), rest);
    }
    if let Some(rest) = strip_word(text, "u16") {
        return (Some(Width::U16), rest);
    }
    if let Some(rest) = strip_word(text, "u32") {
        return (Some(Width::U32), rest);
    }
    if let Some(rest) = strip_word(text, "u64") {
        return (Some(Width::U64), rest);
    }
    if let Some(rest) = strip_word(text, "u128") {
        return (Some(Width::U128), rest);
    }
    (None, text)
}
