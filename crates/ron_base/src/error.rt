//! The errors of reading and writing, and the places in a text where they stand.

mod fault;
mod make;
mod message;
mod place;

pub use fault::{EscapeFault, SchemaFault};
pub use place::position_after;
use std::str::Utf8Error;

/// What a call answers that may fail.
pub type Result<T> = std::result::Result<T, Error>;

/// What a call answers whose failure stands at a place of a text.
pub type SpannedResult<T> = std::result::Result<T, SpannedError>;

/// What went wrong.
#[derive(Debug, PartialEq, Eq, Drop)]
pub enum Error {
    /// Writing text failed.
    Fmt,
    /// A device failed; the text says how.
    Io(String),
    /// A text of the caller's own.
    Message(String),
    /// The text ended where more was wanted.
    Eof,
    /// A list does not begin with `[`.
    ExpectedArray,
    /// A list does not end with `]`.
    ExpectedArrayEnd,
    /// `#` begins no attribute.
    ExpectedAttribute,
    /// An attribute is not closed.
    ExpectedAttributeEnd,
    /// Neither `true` nor `false`.
    ExpectedBoolean,
    /// No comma between two items.
    ExpectedComma,
    /// No character in quotes.
    ExpectedChar,
    /// No byte in quotes behind `b`.
    ExpectedByteLiteral,
    /// No floating-point number.
    ExpectedFloat,
    /// An underscore where a floating-point number takes none.
    FloatUnderscore,
    /// No digit where an integer is wanted.
    ExpectedInteger,
    /// Neither `None` nor `Some`.
    ExpectedOption,
    /// A `Some` is not closed.
    ExpectedOptionEnd,
    /// A map does not begin with `{`.
    ExpectedMap,
    /// No colon between a name or key and its value.
    ExpectedMapColon,
    /// A map does not end with `}`.
    ExpectedMapEnd,
    /// A struct is called by another name than its type's.
    ExpectedDifferentStructName {
        expected: String,
        found: String,
    },
    /// Something that is told in parentheses does not begin with `(`.
    ExpectedStructLike,
    /// The struct of this name does not begin with `(`.
    ExpectedNamedStructLike(String),
    /// Something that is told in parentheses does not end with `)`.
    ExpectedStructLikeEnd,
    /// No `()`.
    ExpectedUnit,
    /// No string in quotes.
    ExpectedString,
    /// No byte string in quotes.
    ExpectedByteString,
    /// A string is not closed.
    ExpectedStringEnd,
    /// No identifier where a name is wanted.
    ExpectedIdentifier,
    /// An escape that a string does not have.
    InvalidEscape(EscapeFault),
    /// An integer that its width does not hold.
    IntegerOutOfBounds,
    /// A digit that its base does not have.
    InvalidIntegerDigit {
        digit: char,
        base: u8,
    },
    /// No extension has this name.
    NoSuchExtension(String),
    /// A comment `/*` is not closed.
    UnclosedBlockComment,
    /// A raw value ends in a comment `//`.
    UnclosedLineComment,
    /// A number begins with an underscore.
    UnderscoreAtBeginning,
    /// A character that nothing begins with here.
    UnexpectedChar(char),
    /// Bytes that are no text.
    Utf8Error(Utf8Error),
    /// Another character behind the whole value.
    TrailingCharacters,
    /// A value that its type does not have.
    InvalidValueForType {
        expected: String,
        found: String,
    },
    /// Another number of elements than expected.
    ExpectedDifferentLength {
        expected: String,
        found: usize,
    },
    /// A variant that its enum does not have. `outer` names the enum, where it is known.
    NoSuchEnumVariant {
        expected: Vec<String>,
        found: String,
        outer: Option<String>,
    },
    /// A field that its struct does not have. `outer` names the struct, where it is known.
    NoSuchStructField {
        expected: Vec<String>,
        found: String,
        outer: Option<String>,
    },
    /// A field that has to be there and is not.
    MissingStructField {
        field: String,
        outer: Option<String>,
    },
    /// A field that is there twice.
    DuplicateStructField {
        field: String,
        outer: Option<String>,
    },
    /// A name that no identifier spells.
    InvalidIdentifier(String),
    /// What stands here only a raw identifier spells. It holds the whole run.
    SuggestRawIdentifier(String),
    /// A raw value where none is read.
    ExpectedRawValue,
    /// Deeper than the limit.
    ExceededRecursionLimit,
    /// A struct without its name, where an extension requires names.
    ExpectedStructName(String),
    /// Neither `..` nor `..=` between two ends.
    ExpectedRangeSyntax,
    /// A floating-point number, which this crate leaves out.
    UnsupportedFloat,
    /// An allocation failed.
    OutOfMemory,
    /// An earlier call of this reader has failed.
    Failed,
    /// A table of shapes that is not well formed.
    InvalidSchema(SchemaFault),
}

/// A place in a text: its line, and its column in characters, both counted from one.
#[derive(Clone, Copy, Debug, PartialEq, Eq, PartialOrd, Ord)]
pub struct Position {
    pub line: usize,
    pub col: usize,
}

/// The stretch of a text that an error speaks of: `start` is before its first character, `end` behind its last, and
/// they are equal where it is empty.
#[derive(Clone, Copy, Debug, PartialEq, Eq)]
pub struct Span {
    pub start: Position,
    pub end: Position,
}

/// An error and where it stands.
#[derive(Debug, PartialEq, Eq, Drop)]
pub struct SpannedError {
    pub code: Error,
    pub span: Span,
}
