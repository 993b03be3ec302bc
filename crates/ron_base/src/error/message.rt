//! What errors say.
// Messages by subject. `Error`'s `fmt` asks `expectation_text` and `fault_text` for a text that stands for itself,
// tells the errors with parts of their own. It hands on those about a name (`write_named`) and about what stands in
// another (`write_member`). Which error is of which subject are tests over all cases (`ron_base/specs/Subject.antt`):
// a function's catch-all arm is what its test rules out, so no case is left without its message.

ghost use Rattle.std.specs.Prelude.{◌≡◌, ◌++◌, true, false, Some, MatchOption, codes};
ghost use Rattle.std.specs.Fmt.{WritesOnOk};
ghost use Rattle.ron_base.specs.Alternatives.{alternatives, further, in_struct, shown};
ghost use Rattle.ron_base.specs.Subject.{is_expectation, is_fault, is_named, is_member};
ghost use Rattle.ron_base.specs.Message.{message, promised, spanned_text, elements, named_struct, unknown_variant};

use super::{Error, SpannedError};
use crate::escape::{Quoted, QuotedChar};
use crate::name::Name;
use std::{error, fmt};

impl error::Error for Error {}

impl error::Error for SpannedError {}

impl fmt::Display for SpannedError {
    ghost output = { spanned_text };

    fn fmt<W: fmt::Write>(&self, f: &mut fmt::Formatter<W>) -> fmt::Result {
        write!(f, "{}: ", self.span)?;
        fmt::Display::fmt(&self.code, f)
    }
}

impl fmt::Display for Error {
    ghost output = { promised };

    fn fmt<W: fmt::Write>(&self, f: &mut fmt::Formatter<W>) -> fmt::Result {
        if let Some(text) = expectation_text(self) {
            return f.write_str(text);
        }
        if let Some(text) = fault_text(self) {
            return f.write_str(text);
        }
        match self {
            Error::Io(text) | Error::Message(text) => f.write_str(text.as_str()),
            Error::InvalidEscape(fault) => f.write_str(fault.text()),
            Error::Utf8Error(fault) => fmt::Display::fmt(fault, f),
            Error::InvalidSchema(fault) => write!(f, "Invalid schema: {}", fault.text()),
            Error::UnexpectedChar(c) => write!(f, "Unexpected char {}", QuotedChar(*c)),
            Error::InvalidIntegerDigit { digit, base } => {
                write!(
                    f,
                    "Invalid digit {} for base {base} integers",
                    QuotedChar(*digit)
                )
            }
            Error::InvalidValueForType { expected, found } => {
                write!(f, "Expected {expected} but found {found} instead")
            }
            Error::ExpectedDifferentLength { expected, found } => {
                write!(
                    f,
                    "Expected {expected} but found {} instead",
                    Elements(*found)
                )
            }
            _ => write_named(f, self),
        }
    }
}

// What was expected, where an error says that and nothing more.
fn expectation_text(error: &Error) -> Option<&'static str>
    ensures { MatchOption result (is_expectation error.now ≡ false) (λ text. promised error.now ≡ Some text.now) }
{
    let text = match error {
        Error::ExpectedArray => "Expected opening `[`",
        Error::ExpectedArrayEnd => "Expected closing `]`",
        Error::ExpectedAttribute => "Expected an `#![enable(...)]` attribute",
        Error::ExpectedAttributeEnd => "Expected closing `)]` after the enable attribute",
        Error::ExpectedBoolean => "Expected boolean",
        Error::ExpectedComma => "Expected comma",
        Error::ExpectedChar => "Expected char",
        Error::ExpectedByteLiteral => "Expected byte literal",
        Error::ExpectedFloat => "Expected float",
        Error::ExpectedInteger => "Expected integer",
        Error::ExpectedOption => "Expected option",
        Error::ExpectedOptionEnd | Error::ExpectedStructLikeEnd => "Expected closing `)`",
        Error::ExpectedMap => "Expected opening `{`",
        Error::ExpectedMapColon => "Expected colon",
        Error::ExpectedMapEnd => "Expected closing `}`",
        Error::ExpectedStructLike => "Expected opening `(`",
        Error::ExpectedUnit => "Expected unit",
        Error::ExpectedString => "Expected string",
        Error::ExpectedByteString => "Expected byte string",
        Error::ExpectedStringEnd => "Expected end of string",
        Error::ExpectedIdentifier => "Expected identifier",
        Error::ExpectedRawValue => "Expected a `ron::value::RawValue`",
        Error::ExpectedRangeSyntax => "Expected `..` or `..=` for range syntax",
        _ => return None,
    };
    Some(text)
}

// What went wrong, where an error says that and nothing more.
fn fault_text(error: &Error) -> Option<&'static str>
    ensures { MatchOption result (is_fault error.now ≡ false) (λ text. promised error.now ≡ Some text.now) }
{
    let text = match error {
        Error::Fmt => "Formatting RON failed",
        Error::Eof => "Unexpected end of RON",
        Error::FloatUnderscore => "Unexpected underscore in float",
        Error::IntegerOutOfBounds => "Integer is out of bounds",
        Error::UnclosedBlockComment => "Unclosed block comment",
        Error::UnclosedLineComment => {
            "`ron::value::RawValue` cannot end in unclosed line comment, try using a block comment or adding a newline"
        }
        Error::UnderscoreAtBeginning => "Unexpected leading underscore in a number",
        Error::TrailingCharacters => "Non-whitespace trailing characters",
        Error::ExceededRecursionLimit => {
            "Exceeded recursion limit, try increasing `ron::Options::recursion_limit` and using `serde_stacker` to protect against a stack overflow"
        }
        Error::UnsupportedFloat => "Floating-point numbers are not supported",
        Error::OutOfMemory => "Out of memory",
        Error::Failed => "An earlier call has failed",
        _ => return None,
    };
    Some(text)
}

// The message of an error about a name.
fn write_named<W: fmt::Write>(f: &mut fmt::Formatter<W>, error: &Error) -> fmt::Result
    requires { is_named error.now ≡ true }
    ensures { WritesOnOk W.write_str_gives f.old result (message error.now) f.new }
{
    match error {
        Error::ExpectedDifferentStructName { expected, found } => {
            write!(
                f,
                "Expected struct {} but found {}",
                Name(expected.as_str()),
                Name(found.as_str())
            )
        }
        Error::ExpectedNamedStructLike(name) => write!(f, "{}", NamedStruct(name)),
        Error::ExpectedStructName(name) => {
            write!(
                f,
                "Expected the explicit struct name {}, but none was found",
                Name(name.as_str())
            )
        }
        Error::NoSuchExtension(name) => write!(f, "No RON extension named {}", Name(name.as_str())),
        Error::InvalidIdentifier(name) => write!(f, "Invalid identifier {}", Quoted(name.as_str())),
        Error::SuggestRawIdentifier(name) => {
            let quoted = Quoted(name.as_str());
            write!(
                f,
                "Found invalid std identifier {quoted}, try the raw identifier `r#{name}` instead"
            )
        }
        _ => write_member(f, error),
    }
}

// The message of an error about a variant of an enum or a field of a struct.
fn write_member<W: fmt::Write>(f: &mut fmt::Formatter<W>, error: &Error) -> fmt::Result
    requires { is_member error.now ≡ true }
    ensures { WritesOnOk W.write_str_gives f.old result (message error.now) f.new }
{
    match error {
        Error::NoSuchEnumVariant {
            expected,
            found,
            outer,
        } => write_unknown_variant(f, expected.as_slice(), found, outer),
        Error::NoSuchStructField {
            expected,
            found,
            outer,
        } => write_unknown_field(f, expected.as_slice(), found, outer),
        Error::MissingStructField { field, outer } => {
            write!(
                f,
                "Unexpected missing field named {}{}",
                Name(field.as_str()),
                InStruct(outer)
            )
        }
        Error::DuplicateStructField { field, outer } => {
            write!(
                f,
                "Unexpected duplicate field named {}{}",
                Name(field.as_str()),
                InStruct(outer)
            )
        }
        _ => unreachable!(),
    }
}

// The message about a variant that its enum does not have.
fn write_unknown_variant<W: fmt::Write>(
    f: &mut fmt::Formatter<W>,
    expected: &[String],
    found: &String,
    outer: &Option<String>,
) -> fmt::Result
    ensures { WritesOnOk W.write_str_gives f.old result
        (unknown_variant found.now outer.now ++ (codes ", " ++ alternatives (codes "variants") expected.now)) f.new }
{
    let none = "variants";
    write!(
        f,
        "{}, {}",
        UnknownVariant { found, outer },
        Alternatives {
            none,
            names: expected
        }
    )
}

// The message about a field that its struct does not have.
fn write_unknown_field<W: fmt::Write>(
    f: &mut fmt::Formatter<W>,
    expected: &[String],
    found: &String,
    outer: &Option<String>,
) -> fmt::Result
    ensures { WritesOnOk W.write_str_gives f.old result
        (codes "Unexpected field named " ++ (shown found.now ++ (in_struct outer.now ++ (codes ", " ++ alternatives (codes "fields") expected.now)))) f.new }
{
    let found = Name(found.as_str());
    let none = "fields";
    write!(
        f,
        "Unexpected field named {found}{}, {}",
        InStruct(outer),
        Alternatives {
            none,
            names: expected
        }
    )
}

// The struct whose opening bracket is missing.
#[derive(Clone, Copy)]
struct NamedStruct<'a>(&'a String);

impl fmt::Display for NamedStruct<'_> {
    ghost output = { λ s. Some (named_struct s.0.now) };

    fn fmt<W: fmt::Write>(&self, f: &mut fmt::Formatter<W>) -> fmt::Result {
        let name = self.0.as_str();
        if name.is_empty() {
            f.write_str("Expected only opening `(`, no name, for un-nameable struct")
        } else {
            write!(f, "Expected opening `(` for struct {}", Name(name))
        }
    }
}

// A number of elements.
#[derive(Clone, Copy)]
struct Elements(usize);

impl fmt::Display for Elements {
    ghost output = { λ n. Some (elements n.0) };

    fn fmt<W: fmt::Write>(&self, f: &mut fmt::Formatter<W>) -> fmt::Result {
        match self.0 {
            0 => f.write_str("zero elements"),
            1 => f.write_str("one element"),
            n => write!(f, "{n} elements"),
        }
    }
}

// A variant that its enum does not have.
#[derive(Clone, Copy)]
struct UnknownVariant<'a> {
    found: &'a String,
    outer: &'a Option<String>,
}

impl fmt::Display for UnknownVariant<'_> {
    ghost output = { λ v. Some (unknown_variant v.found.now v.outer.now) };

    fn fmt<W: fmt::Write>(&self, f: &mut fmt::Formatter<W>) -> fmt::Result {
        let found = Name(self.found.as_str());
        match self.outer {
            None => write!(f, "Unexpected enum variant named {found}"),
            Some(outer) => write!(
                f,
                "Unexpected variant named {found} in enum {}",
                Name(outer.as_str())
            ),
        }
    }
}

// The struct around a field, where it is known.
#[derive(Clone, Copy)]
struct InStruct<'a>(&'a Option<String>);

impl fmt::Display for InStruct<'_> {
    ghost output = { λ o. Some (in_struct o.0.now) };

    fn fmt<W: fmt::Write>(&self, f: &mut fmt::Formatter<W>) -> fmt::Result {
        match self.0 {
            None => Ok(()),
            Some(outer) => write!(f, " in {}", Name(outer.as_str())),
        }
    }
}

// What was expected in place of a name.
#[derive(Clone, Copy)]
struct Alternatives<'a> {
    none: &'a str,
    names: &'a [String],
}

impl fmt::Display for Alternatives<'_> {
    ghost output = { λ a. Some (alternatives a.none.now a.names.now) };

    fn fmt<W: fmt::Write>(&self, f: &mut fmt::Formatter<W>) -> fmt::Result {
        match self.names {
            [] => write!(f, "there are no {}", self.none),
            [a] => write!(f, "expected {} instead", Name(a.as_str())),
            [a, b] => write!(
                f,
                "expected either {} or {} instead",
                Name(a.as_str()),
                Name(b.as_str())
            ),
            [a, _, _, ..] => {
                write!(f, "expected one of {}", Name(a.as_str()))?;
                write_further(f, &self.names[1..])?;
                f.write_str(" instead")
            }
        }
    }
}

// The names after the first of three or more.
fn write_further<W: fmt::Write>(f: &mut fmt::Formatter<W>, names: &[String]) -> fmt::Result
    ensures { WritesOnOk W.write_str_gives f.old result (further names.now) f.new }
{
    match names {
        [] => Ok(()),
        [last] => write!(f, ", or {}", Name(last.as_str())),
        [name, rest @ ..] => {
            write!(f, ", {}", Name(name.as_str()))?;
            write_further(f, rest)
        }
    }
}
