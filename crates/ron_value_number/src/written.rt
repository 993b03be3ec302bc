//! A number in the width that it is written in.
ghost use Rattle.std.specs.Prelude.{◌≡◌, true, false, pos, Some};
ghost use Rattle.ron_value_number.specs.Number.{signed, number_width, number_value};
ghost use Rattle.ron_value_number.specs.Smallest.{smallest_width, written_width};
ghost use Rattle.ron_value_number.specs.Written.{IsNumberOf};

use crate::number::{Number, number_in};
use crate::width::Width;

/// The number that an integer stands for where no type is given: in its suffix's width, where that holds the value; else
/// in the smallest that does, with a sign where a minus stands before the digits.
pub fn written_number(suffix: Option<Width>, is_negative: bool, magnitude: u128) -> Option<Number>
    ensures { IsNumberOf (written_width suffix is_negative (signed is_negative magnitude)) (signed is_negative magnitude) result }
{
    match suffix {
        Some(width) => number_in(width, is_negative, magnitude),
        None => smallest_number(is_negative, magnitude),
    }
}

/// The number in the smallest width that holds its value, with a sign where a minus stands before the digits.
#[tactic(auto, unfolding(crate::specs::Smallest::smallest_width))]
fn smallest_number(is_negative: bool, magnitude: u128) -> Option<Number>
    ensures { IsNumberOf (smallest_width is_negative (signed is_negative magnitude)) (signed is_negative magnitude) result }
{
    if is_negative {
        let value = 0i128.checked_sub_unsigned(magnitude)?;
        return Some(smallest_signed(value));
    }
    Some(smallest_unsigned(magnitude))
}

/// The number in the smallest width with a sign.
#[tactic(auto, unfolding(crate::specs::Smallest::smallest_width))]
fn smallest_signed(value: i128) -> Number
    ensures width { smallest_width true value ≡ Some (number_width result) }
    ensures value { number_value result ≡ value }
{
    if let Ok(value) = i8::try_from(value) {
        return Number::I8(value);
    }
    if let Ok(value) = i16::try_from(value) {
        return Number::I16(value);
    }
    if let Ok(value) = i32::try_from(value) {
        return Number::I32(value);
    }
    match i64::try_from(value) {
        Ok(value) => Number::I64(value),
        Err(_) => Number::I128(value),
    }
}

/// The number in the smallest width without a sign.
#[tactic(auto, unfolding(crate::specs::Smallest::smallest_width))]
fn smallest_unsigned(value: u128) -> Number
    ensures width { smallest_width false (pos value) ≡ Some (number_width result) }
    ensures value { number_value result ≡ pos value }
{
    if let Ok(value) = u8::try_from(value) {
        return Number::U8(value);
    }
    if let Ok(value) = u16::try_from(value) {
        return Number::U16(value);
    }
    if let Ok(value) = u32::try_from(value) {
        return Number::U32(value);
    }
    match u64::try_from(value) {
        Ok(value) => Number::U64(value),
        Err(_) => Number::U128(value),
    }
}
