//! Types that may be keys of maps.
ghost use Rattle.std.specs.Prelude.{refl};
ghost use Rattle.ron_types.specs.KeyLaws.{unsigned_alike, texts_alike, strings_alike};
ghost use Rattle.ron_types.specs.Keys.{bool_key_cmp, number_key_cmp, char_key_cmp, text_key_cmp, unit_key_cmp, value_key_cmp};

use crate::traits::MapKey;
use ron_value::value::Value;

impl MapKey for bool {
    ghost key_cmp = { bool_key_cmp };

    ghost alike = { λ x y. refl };
}

impl MapKey for char {
    ghost key_cmp = { char_key_cmp };

    ghost alike = { λ x y. refl };
}

impl MapKey for String {
    ghost key_cmp = { text_key_cmp };

    ghost alike = { strings_alike };
}

impl MapKey for &str {
    ghost key_cmp = { text_key_cmp };

    ghost alike = { λ x y. texts_alike x.now y.now };
}

impl MapKey for () {
    ghost key_cmp = { unit_key_cmp };

    ghost alike = { λ x y. refl };
}

impl MapKey for Value {
    ghost key_cmp = { value_key_cmp };

    ghost alike = { λ x y. refl };
}

impl MapKey for i8 {
    ghost key_cmp = { number_key_cmp };

    ghost alike = { λ x y. refl };
}

impl MapKey for i16 {
    ghost key_cmp = { number_key_cmp };

    ghost alike = { λ x y. refl };
}

impl MapKey for i32 {
    ghost key_cmp = { number_key_cmp };

    ghost alike = { λ x y. refl };
}

impl MapKey for i64 {
    ghost key_cmp = { number_key_cmp };

    ghost alike = { λ x y. refl };
}

impl MapKey for i128 {
    ghost key_cmp = { number_key_cmp };

    ghost alike = { λ x y. refl };
}

impl MapKey for u8 {
    ghost key_cmp = { number_key_cmp };

    ghost alike = { unsigned_alike };
}

impl MapKey for u16 {
    ghost key_cmp = { number_key_cmp };

    ghost alike = { unsigned_alike };
}

impl MapKey for u32 {
    ghost key_cmp = { number_key_cmp };

    ghost alike = { unsigned_alike };
}

impl MapKey for u64 {
    ghost key_cmp = { number_key_cmp };

    ghost alike = { unsigned_alike };
}

impl MapKey for u128 {
    ghost key_cmp = { number_key_cmp };

    ghost alike = { unsigned_alike };
}
