//! The widths of integers.

ghost use Rattle.std.specs.Prelude.{◌≡◌};
ghost use Rattle.ron_value_number.specs.Smallest.{FindsSmallest};
ghost use Rattle.ron_value_number.specs.Width.{bits, is_signed, width_word};

/// The width of an integer: its bits, and whether its values have a sign.
#[derive(Clone, Copy, Debug, PartialEq, Eq)]
pub enum Width {
    I8,
    I16,
    I32,
    I64,
    I128,
    U8,
    U16,
    U32,
    U64,
    U128,
}

impl Width {
    /// How many bits a value takes.
    pub fn bits(self) -> u32
        ensures { result ≡ bits self }
    {
        match self {
            Width::I8 | Width::U8 => 8,
            Width::I16 | Width::U16 => 16,
            Width::I32 | Width::U32 => 32,
            Width::I64 | Width::U64 => 64,
            Width::I128 | Width::U128 => 128,
        }
    }

    /// Whether values below zero belong to it.
    pub fn is_signed(self) -> bool
        ensures { result ≡ is_signed self }
    {
        matches!(
            self,
            Width::I8 | Width::I16 | Width::I32 | Width::I64 | Width::I128
        )
    }

    /// The word that names it, which is also its suffix.
    pub fn name(self) -> &'static str
        ensures { result.now ≡ width_word self }
    {
        match self {
            Width::I8 => "i8",
            Width::I16 => "i16",
            Width::I32 => "i32",
            Width::I64 => "i64",
            Width::I128 => "i128",
            Width::U8 => "u8",
            Width::U16 => "u16",
            Width::U32 => "u32",
            Width::U64 => "u64",
            Width::U128 => "u128",
        }
    }
}

/// The smallest width that holds a value, of those with a sign or of those without, is found exactly where it is one.
pub fn smallest_widths_are_found()
    ensures { FindsSmallest }
{}
