//! What stands where an integer is wanted: an integer, or a byte literal.
ghost use Rattle.std.specs.Prelude.{◌≡◌, ◌++◌, chars, IfOk, IfErr, MatchResult, Some};
ghost use Rattle.ron_spec_words.specs.AnyInteger.{any_integer, byte_numeral};
ghost use Rattle.ron_spec_words.specs.Reader.{got};
ghost use Rattle.ron_lex.specs.Numeral.{numeral_view};
ghost use Rattle.ron_lex.specs.AnyInteger.{RefusesAnyInteger};
ghost use Rattle.ron_lex_text.specs.Stretch.{IsSuffix, IsProperSuffix};

use crate::character::split_byte;
use crate::fault::QuotedFault;
use crate::numeral::{Numeral, NumeralFault, split_numeral};
use ron_lex_text::text::{before, begins_with};
use ron_value_number::width::Width;

/// Why neither an integer nor a byte literal is read.
#[derive(Clone, Copy)]
pub enum AnyIntegerFault {
    /// Of an integer.
    Integer(NumeralFault),
    /// Of a byte literal, where `b'` stands.
    Byte(QuotedFault),
}

/// A fault, where the stretch at fault begins, and what follows it.
#[derive(Clone, Copy)]
pub struct AnyIntegerError<'a> {
    pub fault: AnyIntegerFault,
    pub start: &'a str,
    pub rest: &'a str,
}

/// The integer, or the byte literal, at the start of a text, and what follows it. A byte literal is the integer that its
/// byte is with the suffix `u8`.
#[tactic(auto, unfolding(ron_lex_text::proofs::StretchLemmas::literals))]
#[inline(always)]
pub(crate) fn split_any_integer(text: &str) -> Result<(Numeral<'_>, &str), AnyIntegerError<'_>>
    ensures value { MatchResult result
        (λ p. any_integer (chars text.now) ≡ got (numeral_view p.0) (chars p.1.now))
        (λ e. RefusesAnyInteger (any_integer (chars text.now)) e.fault (chars e.rest.now)) }
    ensures literal { IfOk result (λ p. chars text.now ≡ chars p.0.literal.now ++ chars p.1.now) }
    ensures past { IfOk result (λ p. IsProperSuffix (chars p.1.now) (chars text.now)) }
    ensures err_start { IfErr result (λ e. IsSuffix (chars e.start.now) (chars text.now)) }
    ensures err_end { IfErr result (λ e. IsSuffix (chars e.rest.now) (chars e.start.now)) }
{
    if begins_with(text, "b'") {
        return match split_byte(text) {
            Ok((byte, rest)) => Ok((byte_numeral(byte, before(text, rest)), rest)),
            Err(refused) => Err(AnyIntegerError {
                fault: AnyIntegerFault::Byte(refused.fault),
                start: text,
                rest: refused.rest,
            }),
        };
    }
    match split_numeral(text) {
        Ok(found) => Ok(found),
        Err(refused) => Err(AnyIntegerError {
            fault: AnyIntegerFault::Integer(refused.fault),
            start: refused.start,
            rest: refused.rest,
        }),
    }
}

/// The integer that a byte literal stands for.
fn byte_numeral(byte: u8, literal: &str) -> Numeral<'_>
    ensures literal { result.literal.now ≡ literal.now }
    ensures value { Some (numeral_view result) ≡ byte_numeral byte }
{
    Numeral {
        is_negative: false,
        base: 10,
        magnitude: u128::from(byte),
        suffix: Some(Width::U8),
        literal,
    }
}
