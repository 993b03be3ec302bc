//! An integer together with its width.

ghost use Rattle.std.specs.Prelude.{◌≡◌, ◌↔◌, IsTrue, true, false, pos, int_lt, unsigned_abs, MatchOption};
ghost use Rattle.ron_value_number.specs.Width.{fits};
ghost use Rattle.std.specs.Cmp.{IsTotalOrder};
ghost use Rattle.ron_value_number.specs.declared.number.Number.{Number};
ghost use Rattle.ron_value_number.specs.Number.{number_width, number_value, number_cmp, signed, IsNumberIn};

use crate::width::Width;
use std::hash::Hash;

/// An integer of one of ten widths. Numbers are ordered by their width's place in this list, then by value.
#[derive(Clone, Copy, Debug, PartialEq, Eq, PartialOrd, Ord, Hash)]
pub enum Number {
    I8(i8),
    I16(i16),
    I32(i32),
    I64(i64),
    I128(i128),
    U8(u8),
    U16(u16),
    U32(u32),
    U64(u64),
    U128(u128),
}

impl Number {
    /// The number of this integer, in its own width.
    pub fn new<T: Into<Number>>(value: T) -> Number
        ensures { T.converts value result }
    {
        value.into()
    }

    /// The width that its value is of.
    pub fn width(&self) -> Width
        ensures { result ≡ number_width self.now }
    {
        match self {
            Number::I8(_) => Width::I8,
            Number::I16(_) => Width::I16,
            Number::I32(_) => Width::I32,
            Number::I64(_) => Width::I64,
            Number::I128(_) => Width::I128,
            Number::U8(_) => Width::U8,
            Number::U16(_) => Width::U16,
            Number::U32(_) => Width::U32,
            Number::U64(_) => Width::U64,
            Number::U128(_) => Width::U128,
        }
    }

    /// Whether its value is below zero, and the value without its sign.
    pub fn sign_and_magnitude(&self) -> (bool, u128)
        ensures sign { result.0 ≡ int_lt (number_value self.now) (pos 0) }
        ensures magnitude { result.1 ≡ unsigned_abs (number_value self.now) }
        ensures value { signed result.0 result.1 ≡ number_value self.now }
    {
        let value = match *self {
            Number::I8(n) => i128::from(n),
            Number::I16(n) => i128::from(n),
            Number::I32(n) => i128::from(n),
            Number::I64(n) => i128::from(n),
            Number::I128(n) => n,
            Number::U8(n) => i128::from(n),
            Number::U16(n) => i128::from(n),
            Number::U32(n) => i128::from(n),
            Number::U64(n) => i128::from(n),
            Number::U128(n) => return (false, n),
        };
        (value < 0, value.unsigned_abs())
    }
}

/// The number of this width that a sign and a magnitude stand for, where the value lies in the width. A minus before
/// zero changes nothing.
pub fn number_in(width: Width, is_negative: bool, magnitude: u128) -> Option<Number>
    ensures { IsNumberIn width (signed is_negative magnitude) result }
{
    let signed = i128_of(is_negative, magnitude);
    let unsigned = u128_of(is_negative, magnitude);
    match width {
        Width::I8 => i8::try_from(signed?).ok().map(Number::I8),
        Width::I16 => i16::try_from(signed?).ok().map(Number::I16),
        Width::I32 => i32::try_from(signed?).ok().map(Number::I32),
        Width::I64 => i64::try_from(signed?).ok().map(Number::I64),
        Width::I128 => signed.map(Number::I128),
        Width::U8 => u8::try_from(unsigned?).ok().map(Number::U8),
        Width::U16 => u16::try_from(unsigned?).ok().map(Number::U16),
        Width::U32 => u32::try_from(unsigned?).ok().map(Number::U32),
        Width::U64 => u64::try_from(unsigned?).ok().map(Number::U64),
        Width::U128 => unsigned.map(Number::U128),
    }
}

/// The value, where it fits 128 bits with a sign.
fn i128_of(is_negative: bool, magnitude: u128) -> Option<i128>
    ensures { MatchOption result (fits Width.I128 (signed is_negative magnitude) ≡ false)
        (λ n. (fits Width.I128 (signed is_negative magnitude) ≡ true) × (n ≡ signed is_negative magnitude)) }
{
    if is_negative {
        0i128.checked_sub_unsigned(magnitude)
    } else {
        i128::try_from(magnitude).ok()
    }
}

/// The value, where it isn't below zero.
fn u128_of(is_negative: bool, magnitude: u128) -> Option<u128>
    ensures { MatchOption result (fits Width.U128 (signed is_negative magnitude) ≡ false)
        (λ n. (fits Width.U128 (signed is_negative magnitude) ≡ true) × (pos n ≡ signed is_negative magnitude)) }
{
    if is_negative && magnitude != 0 {
        None
    } else {
        Some(magnitude)
    }
}

/// Numbers are ordered by width and then by value, a number is equal to itself alone, and equal numbers hash alike.
pub fn numbers_are_ordered()
    ensures order { (a b : Number) → ⟦<Number as Ord>⟧.cmp a b ≡ number_cmp a b }
    ensures total { IsTotalOrder number_cmp }
    ensures equal { (a b : Number) → IsTrue (⟦<Number as PartialEq>⟧.eq a b) ↔ (a ≡ b) }
    ensures hash { (a b : Number) → IsTrue (⟦<Number as PartialEq>⟧.eq a b) →
        ⟦<Number as Hash>⟧.hash_input a ≡ ⟦<Number as Hash>⟧.hash_input b }
{}
