//! Faults of which there are only so many, each with its text.
ghost use Rattle.std.specs.Prelude.{◌≡◌};
ghost use Rattle.ron_base.specs.Fault.{escape_text, schema_text};

/// Why an escape is refused.
#[derive(Clone, Copy, Debug, PartialEq, Eq)]
pub enum EscapeFault {
    /// No escape has this character behind its backslash.
    UnknownCharacter,
    /// Another character stands where a hexadecimal digit is wanted.
    NonHexDigit,
    /// Bytes, each as `\xHH`, that form no character, or none in ASCII where one is wanted.
    BytesOfNoCharacter,
    /// `\u` with no `{` behind it.
    MissingBrace,
    /// `\u{}`.
    NoDigits,
    /// No `}` behind the sixth digit.
    MissingClosingBrace,
    /// The digits name no character.
    NoCharacter,
    /// `\u` in a byte literal.
    UnicodeInByte,
}

impl EscapeFault {
    /// What an error says of the fault.
    pub fn text(self) -> &'static str
        ensures { result.now ≡ escape_text self }
    {
        match self {
            EscapeFault::UnknownCharacter => "Unknown escape character",
            EscapeFault::NonHexDigit => "Non-hex digit found",
            EscapeFault::BytesOfNoCharacter => "Not a valid byte-escaped Unicode character",
            EscapeFault::MissingBrace => "Missing { in Unicode escape",
            EscapeFault::NoDigits => "Expected 1-6 digits, got 0 digits in Unicode escape",
            EscapeFault::MissingClosingBrace => "No } at the end of Unicode escape",
            EscapeFault::NoCharacter => "Not a valid Unicode-escaped character",
            EscapeFault::UnicodeInByte => "Unexpected Unicode escape in byte literal",
        }
    }
}

/// Why a table of shapes is refused.
#[derive(Clone, Copy, Debug, PartialEq, Eq)]
pub enum SchemaFault {
    /// An index lies outside the table.
    IndexOutOfRange,
    /// Options and newtypes alone lead from one of them back to itself.
    Cycle,
    /// A name stands twice among the fields of a struct, or the variants of an enum.
    DuplicateName,
    /// A field of a range struct may be missing.
    MissingRangeField,
}

impl SchemaFault {
    /// What an error says of the fault.
    pub fn text(self) -> &'static str
        ensures { result.now ≡ schema_text self }
    {
        match self {
            SchemaFault::IndexOutOfRange => "index out of range",
            SchemaFault::Cycle => "options and newtypes form a cycle",
            SchemaFault::DuplicateName => "a name stands twice",
            SchemaFault::MissingRangeField => "a range field may be missing",
        }
    }
}
