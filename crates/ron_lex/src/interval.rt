//! Numbers where no type is given, and ranges of them.
ghost use Rattle.std.specs.Prelude.{◌≡◌, chars};
ghost use Rattle.ron_spec_words.specs.AnyInteger.{opens_integer};

use crate::numeral::Numeral;
use ron_lex_text::text::{begins_with, split_first};

/// A number where no type is given, or a range of such numbers.
#[derive(Clone, Copy)]
pub enum Interval<'a> {
    /// A number alone.
    One(Numeral<'a>),
    /// A range: the number before its two points and the one behind them, where there is one.
    Range {
        start: Option<Numeral<'a>>,
        /// Whether `=` stands behind the points.
        is_closed: bool,
        end: Option<Numeral<'a>>,
    },
}

/// Whether an integer or a byte literal begins at the start of a text.
#[tactic(auto, unfolding(ron_lex_text::proofs::StretchLemmas::literals))]
pub(crate) fn opens_integer(text: &str) -> bool
    ensures { result ≡ opens_integer (chars text.now) }
{
    if begins_with(text, "b'") {
        return true;
    }
    match split_first(text) {
        Some((first, _)) => first.is_ascii_digit() || matches!(first, '+' | '-'),
        None => false,
    }
}
