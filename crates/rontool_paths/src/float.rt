//! Words that are floats, by their digits.
use ron_lex_text::text::split_first;

/// A float, as its word spells it.
#[derive(Clone, Copy)]
pub struct Float<'t> {
    pub is_negative: bool,
    /// The digits before its point; none or more.
    pub whole: &'t str,
    /// The digits behind its point.
    pub fraction: &'t str,
    /// What stands behind the letter of its exponent, where it has one.
    pub exponent: Option<&'t str>,
}

/// A word as a float: digits with a point, an exponent or the suffix of a float. None where it is none, as an integer.
pub fn split_float(word: &str) -> Option<Float<'_>> {
    let unsigned = past_sign(word);
    let number = without_suffix(unsigned);
    let (mantissa, exponent) = match number.split_once('e').or(number.split_once('E')) {
        Some((mantissa, exponent)) => (mantissa, Some(exponent)),
        None => (number, None),
    };
    let (whole, fraction) = match mantissa.split_once('.') {
        Some(parts) => parts,
        None => (mantissa, ""),
    };
    let is_integer = exponent.is_none()
        && number.len() == unsigned.len()
        && mantissa.len() == whole.len();
    let has_digits = !whole.is_empty() || !fraction.is_empty();
    if is_integer
        || !has_digits
        || !are_digits(whole)
        || !are_digits(fraction)
        || !is_exponent(exponent)
    {
        return None;
    }
    Some(Float {
        is_negative: word.starts_with('-'),
        whole,
        fraction,
        exponent,
    })
}

/// Whether a word is infinite or no number, with or without a sign.
pub fn is_no_number(word: &str) -> bool {
    let name = without_suffix(past_sign(word));
    name == "inf" || name == "NaN"
}

/// A word without the suffix of a float.
fn without_suffix(word: &str) -> &str {
    match word.strip_suffix("f32").or(word.strip_suffix("f64")) {
        Some(number) => number,
        None => word,
    }
}

/// What follows the sign that may stand at the start of a text.
fn past_sign(text: &str) -> &str {
    match split_first(text) {
        Some(('+' | '-', behind)) => behind,
        _ => text,
    }
}

/// Whether a text is digits, with `_` behind them, or nothing.
fn are_digits(text: &str) -> bool {
    !text.starts_with('_') && text.chars().all(|c| c.is_ascii_digit() || c == '_')
}

/// Whether an exponent has digits, perhaps behind a sign, if it is there.
fn is_exponent(exponent: Option<&str>) -> bool {
    match exponent {
        Some(text) => !past_sign(text).is_empty() && are_digits(past_sign(text)),
        None => true,
    }
}
