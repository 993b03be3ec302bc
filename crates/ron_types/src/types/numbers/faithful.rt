//! Of integers: data tells their values.
ghost use Rattle.ron_value_number.specs.declared.width.Width.TheVariants as width;
ghost use Rattle.ron_types.specs.RecoveryLaws.{signed_recover, unsigned_recover};

use crate::faithful::Faithful;

impl Faithful for i8 {
    type Parts = ();

    ghost recovers = { λ _. signed_recover width.I8 };
}

impl Faithful for i16 {
    type Parts = ();

    ghost recovers = { λ _. signed_recover width.I16 };
}

impl Faithful for i32 {
    type Parts = ();

    ghost recovers = { λ _. signed_recover width.I32 };
}

impl Faithful for i64 {
    type Parts = ();

    ghost recovers = { λ _. signed_recover width.I64 };
}

impl Faithful for i128 {
    type Parts = ();

    ghost recovers = { λ _. signed_recover width.I128 };
}

impl Faithful for u8 {
    type Parts = ();

    ghost recovers = { λ _. unsigned_recover width.U8 };
}

impl Faithful for u16 {
    type Parts = ();

    ghost recovers = { λ _. unsigned_recover width.U16 };
}

impl Faithful for u32 {
    type Parts = ();

    ghost recovers = { λ _. unsigned_recover width.U32 };
}

impl Faithful for u64 {
    type Parts = ();

    ghost recovers = { λ _. unsigned_recover width.U64 };
}

impl Faithful for u128 {
    type Parts = ();

    ghost recovers = { λ _. unsigned_recover width.U128 };
}
