//! Integers as numbers of their own width.

ghost use Rattle.std.specs.Prelude.{◌≡◌};
ghost use Rattle.ron_value_number.specs.declared.number.Number.TheVariants as number;

use crate::number::Number;

impl From<i8> for Number {
    ghost from_gives = { λ value result. result ≡ number.I8 value };

    fn from(value: i8) -> Number {
        Number::I8(value)
    }
}

impl From<i16> for Number {
    ghost from_gives = { λ value result. result ≡ number.I16 value };

    fn from(value: i16) -> Number {
        Number::I16(value)
    }
}

impl From<i32> for Number {
    ghost from_gives = { λ value result. result ≡ number.I32 value };

    fn from(value: i32) -> Number {
        Number::I32(value)
    }
}

impl From<i64> for Number {
    ghost from_gives = { λ value result. result ≡ number.I64 value };

    fn from(value: i64) -> Number {
        Number::I64(value)
    }
}

impl From<i128> for Number {
    ghost from_gives = { λ value result. result ≡ number.I128 value };

    fn from(value: i128) -> Number {
        Number::I128(value)
    }
}

impl From<u8> for Number {
    ghost from_gives = { λ value result. result ≡ number.U8 value };

    fn from(value: u8) -> Number {
        Number::U8(value)
    }
}

impl From<u16> for Number {
    ghost from_gives = { λ value result. result ≡ number.U16 value };

    fn from(value: u16) -> Number {
        Number::U16(value)
    }
}

impl From<u32> for Number {
    ghost from_gives = { λ value result. result ≡ number.U32 value };

    fn from(value: u32) -> Number {
        Number::U32(value)
    }
}

impl From<u64> for Number {
    ghost from_gives = { λ value result. result ≡ number.U64 value };

    fn from(value: u64) -> Number {
        Number::U64(value)
    }
}

impl From<u128> for Number {
    ghost from_gives = { λ value result. result ≡ number.U128 value };

    fn from(value: u128) -> Number {
        Number::U128(value)
    }
}
