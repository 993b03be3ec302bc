//! Where an integer begins, and integers that are no more than that, as most are: decimal digits, perhaps behind a sign,
//! with nothing else of a number right behind them.
ghost use Rattle.std.specs.Prelude.{◌≡◌, ◌+◌, ◌*◌, ◌<◌, ◌++◌, ℕ, false, chars, length, codes, is_some, IfSome};
ghost use Rattle.ron_spec_words.specs.Runs.{after_run, is_at, begins_with};
ghost use Rattle.ron_spec_words.specs.Reader.{got};
ghost use Rattle.ron_spec_words.specs.Number.{number};
ghost use Rattle.ron_spec_words.specs.AnyInteger.{past_sign, is_float};
ghost use Rattle.ron_lex.specs.Numeral.{base_at, digits_on, numeral_view};
ghost use Rattle.ron_lex.specs.Untyped.{passes_digits, in_both};
ghost use Rattle.ron_lex.specs.Plain.{IsBegun, is_plain, ends_plain, is_behind_plain};
ghost use Rattle.ron_lex_text.specs.Stretch.{IsSuffix, IsProperSuffix};

use crate::numeral::{Numeral, split_base, split_sign};
use ron_lex_text::text::{Class, before, is_at_class, split_first};

/// An integer that was begun: its sign, its base, and what its first digits come to.
#[derive(Clone, Copy)]
pub(crate) struct Begun<'a> {
    pub is_negative: bool,
    pub base: u32,
    /// The text from the digits on.
    pub digits: &'a str,
    /// What the digits before `behind` come to.
    pub start: u64,
    pub behind: &'a str,
}

/// Begins the integer at the start of a text. Of a decimal one as many digits are gone over as 64 bits have room for.
#[inline(always)]
pub(crate) fn begin(text: &str) -> Begun<'_>
    ensures { IsBegun (chars text.now) result }
{
    let (is_negative, unsigned) = split_sign(text);
    let (base, digits) = split_base(unsigned);
    let (start, behind) = split_first_digits(digits, base);
    Begun {
        is_negative,
        base,
        digits,
        start,
        behind,
    }
}

/// The integer at the start of a text, and what follows it, where what was begun is all of it: right behind its digits
/// stands a blank, a comma, a colon or a closing bracket, or nothing.
#[inline(always)]
pub(crate) fn plain_numeral<'a>(text: &'a str, begun: Begun<'a>) -> Option<(Numeral<'a>, &'a str)>
    requires { IsBegun (chars text.now) begun }
    ensures found { is_some result ≡ is_plain begun.entry }
    ensures value { IfSome result (λ p. number (chars text.now) ≡ got (numeral_view p.0) (chars p.1.now)) }
    ensures no_byte { IfSome result (λ _. begins_with (codes "b'") (chars text.now) ≡ false) }
    ensures no_float { IfSome result (λ _. is_float (chars text.now) ≡ false) }
    ensures sign { IfSome result (λ p. p.0.is_negative ≡ is_at 45 (chars text.now)) }
    ensures base { IfSome result (λ p. p.0.base ≡ base_at (past_sign (chars text.now))) }
    ensures literal { IfSome result (λ p. chars text.now ≡ chars p.0.literal.now ++ chars p.1.now) }
    ensures past { IfSome result (λ p. IsProperSuffix (chars p.1.now) (chars text.now)) }
{
    if !ends_plain(begun.behind) || !is_at_class(begun.digits, Class::HexDigit) {
        return None;
    }
    Some((
        Numeral {
            is_negative: begun.is_negative,
            base: begun.base,
            magnitude: u128::from(begun.start),
            suffix: None,
            literal: before(text, begun.behind),
        },
        begun.behind,
    ))
}

/// As many decimal digits at the start of a text as 64 bits have room for, as a number, and what follows them; in another
/// base none.
#[inline(always)]
fn split_first_digits(text: &str, base: u32) -> (u64, &str)
    ensures value { digits_on base result.0 (chars result.1.now) ≡ digits_on base 0 (chars text.now) }
    ensures float { base ≡ 10 → passes_digits (chars result.1.now) ≡ passes_digits (chars text.now) }
    ensures end { IsSuffix (chars result.1.now) (chars text.now) }
    ensures both { after_run in_both (chars result.1.now) ≡ after_run in_both (chars text.now) }
{
    if base == 10 {
        return split_decimals(text);
    }
    (0, text)
}

/// A number below this one has room for one more decimal digit in 64 bits.
const ROOM_FOR_A_DECIMAL: u64 = 1_000_000_000_000_000_000;

/// The decimal digits at the start of a text as a number, as many as 64 bits have room for, and what follows them.
#[inline(always)]
fn split_decimals(text: &str) -> (u64, &str)
    ensures value { digits_on 10 result.0 (chars result.1.now) ≡ digits_on 10 0 (chars text.now) }
    ensures float { passes_digits (chars result.1.now) ≡ passes_digits (chars text.now) }
    ensures end { IsSuffix (chars result.1.now) (chars text.now) }
    ensures both { after_run in_both (chars result.1.now) ≡ after_run in_both (chars text.now) }
{
    let mut value = 0u64;
    let mut rest = text;
    'digits: while value < ROOM_FOR_A_DECIMAL {
        let Some((digit, after)) = split_decimal(rest) else {
            break;
        };
        value = value * 10 + digit;
        rest = after;
    }
    (value, rest)
}

/// The decimal digit at the start of a text, and what follows it.
#[inline(always)]
fn split_decimal(text: &str) -> Option<(u64, &str)>
    ensures digit { IfSome result (λ p. p.0 < 10) }
    ensures value { IfSome result (λ p. (high : ℕ) →
        digits_on 10 (high * 10 + p.0) (chars p.1.now) ≡ digits_on 10 high (chars text.now)) }
    ensures float { IfSome result (λ p. passes_digits (chars p.1.now) ≡ passes_digits (chars text.now)) }
    ensures past { IfSome result (λ p. IsProperSuffix (chars p.1.now) (chars text.now)) }
    ensures shorter { IfSome result (λ p. length p.1.now < length text.now) }
    ensures both { IfSome result (λ p. after_run in_both (chars p.1.now) ≡ after_run in_both (chars text.now)) }
{
    // A byte shows it sooner than a character does.
    let byte = *text.as_bytes().first()?;
    if !byte.is_ascii_digit() {
        return None;
    }
    let (first, after) = split_first(text)?;
    if !first.is_ascii_digit() {
        return None;
    }
    Some((u64::from(u32::from(first) - 48), after))
}

/// Whether a text is at its end, or begins with what may follow a plain integer.
#[inline(always)]
fn ends_plain(text: &str) -> bool
    ensures { result ≡ ends_plain (chars text.now) }
{
    match split_first(text) {
        Some((first, _)) => is_behind_plain(first),
        None => true,
    }
}

/// Whether a character may stand right behind a plain integer.
#[inline(always)]
fn is_behind_plain(character: char) -> bool
    ensures { result ≡ is_behind_plain character }
{
    matches!(
        character,
        ',' | ')' | ']' | '}' | ':' | ' ' | '\n' | '\r' | '\t'
    )
}
