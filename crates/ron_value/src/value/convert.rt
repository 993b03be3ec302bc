//! Values from what they hold. None of these takes memory.

ghost use Rattle.std.specs.Prelude.{◌≡◌};
ghost use Rattle.ron_value_number.specs.declared.number.Number.TheVariants as number;
ghost use Rattle.ron_value.specs.declared.value.Value.TheVariants as value;

use super::Value;
use crate::map::Map;
use ron_value_number::Number;

impl From<bool> for Value {
    ghost from_gives = { λ held result. result ≡ value.Bool held };

    fn from(held: bool) -> Value {
        Value::Bool(held)
    }
}

impl From<char> for Value {
    ghost from_gives = { λ held result. result ≡ value.Char held };

    fn from(held: char) -> Value {
        Value::Char(held)
    }
}

impl From<()> for Value {
    ghost from_gives = { λ _ result. result ≡ value.Unit };

    fn from(_held: ()) -> Value {
        Value::Unit
    }
}

impl From<String> for Value {
    ghost from_gives = { λ held result. result ≡ value.String held };

    fn from(held: String) -> Value {
        Value::String(held)
    }
}

impl From<Map> for Value {
    ghost from_gives = { λ held result. result ≡ value.Map held };

    fn from(held: Map) -> Value {
        Value::Map(held)
    }
}

impl From<Vec<Value>> for Value {
    ghost from_gives = { λ held result. result ≡ value.Seq held };

    fn from(held: Vec<Value>) -> Value {
        Value::Seq(held)
    }
}

impl From<Number> for Value {
    ghost from_gives = { λ held result. result ≡ value.Number held };

    fn from(held: Number) -> Value {
        Value::Number(held)
    }
}

impl From<i8> for Value {
    ghost from_gives = { λ held result. result ≡ value.Number (number.I8 held) };

    fn from(held: i8) -> Value {
        Value::Number(Number::I8(held))
    }
}

impl From<i16> for Value {
    ghost from_gives = { λ held result. result ≡ value.Number (number.I16 held) };

    fn from(held: i16) -> Value {
        Value::Number(Number::I16(held))
    }
}

impl From<i32> for Value {
    ghost from_gives = { λ held result. result ≡ value.Number (number.I32 held) };

    fn from(held: i32) -> Value {
        Value::Number(Number::I32(held))
    }
}

impl From<i64> for Value {
    ghost from_gives = { λ held result. result ≡ value.Number (number.I64 held) };

    fn from(held: i64) -> Value {
        Value::Number(Number::I64(held))
    }
}

impl From<i128> for Value {
    ghost from_gives = { λ held result. result ≡ value.Number (number.I128 held) };

    fn from(held: i128) -> Value {
        Value::Number(Number::I128(held))
    }
}

impl From<u8> for Value {
    ghost from_gives = { λ held result. result ≡ value.Number (number.U8 held) };

    fn from(held: u8) -> Value {
        Value::Number(Number::U8(held))
    }
}

impl From<u16> for Value {
    ghost from_gives = { λ held result. result ≡ value.Number (number.U16 held) };

    fn from(held: u16) -> Value {
        Value::Number(Number::U16(held))
    }
}

impl From<u32> for Value {
    ghost from_gives = { λ held result. result ≡ value.Number (number.U32 held) };

    fn from(held: u32) -> Value {
        Value::Number(Number::U32(held))
    }
}

impl From<u64> for Value {
    ghost from_gives = { λ held result. result ≡ value.Number (number.U64 held) };

    fn from(held: u64) -> Value {
        Value::Number(Number::U64(held))
    }
}

impl From<u128> for Value {
    ghost from_gives = { λ held result. result ≡ value.Number (number.U128 held) };

    fn from(held: u128) -> Value {
        Value::Number(Number::U128(held))
    }
}
