//! Errors made by a caller's own code, and from the errors of std.

ghost use Rattle.std.specs.Prelude.{◌≡◌, None};
ghost use Rattle.ron_base.specs.declared.error.Error.TheVariants as error;
ghost use Rattle.ron_base.specs.Class.{IsIoOrMemory};

use super::{Error, SpannedError};
use std::alloc::{AllocError, AllocFailed, Global};
use std::str::Utf8Error;
use std::{fmt, io};

impl Error {
    /// An error with a text of its own.
    pub fn custom(text: String) -> Error
        ensures { result ≡ Error.Message text }
    {
        Error::Message(text)
    }

    /// A value that its type does not have.
    pub fn invalid_value(expected: String, found: String) -> Error
        ensures { result ≡ Error.InvalidValueForType expected found }
    {
        Error::InvalidValueForType { expected, found }
    }

    /// A value of another type: told in the same words as a wrong value.
    pub fn invalid_type(expected: String, found: String) -> Error
        ensures { result ≡ Error.InvalidValueForType expected found }
    {
        Error::invalid_value(expected, found)
    }

    /// Another number of elements than expected.
    pub fn invalid_length(found: usize, expected: String) -> Error
        ensures { result ≡ Error.ExpectedDifferentLength expected found }
    {
        Error::ExpectedDifferentLength { expected, found }
    }

    /// A variant that its enum does not have.
    pub fn unknown_variant(found: String, expected: Vec<String>) -> Error
        ensures { result ≡ Error.NoSuchEnumVariant expected found None }
    {
        Error::NoSuchEnumVariant {
            expected,
            found,
            outer: None,
        }
    }

    /// A field that its struct does not have.
    pub fn unknown_field(found: String, expected: Vec<String>) -> Error
        ensures { result ≡ Error.NoSuchStructField expected found None }
    {
        Error::NoSuchStructField {
            expected,
            found,
            outer: None,
        }
    }

    /// A field that has to be there and is not.
    pub fn missing_field(field: String) -> Error
        ensures { result ≡ Error.MissingStructField field None }
    {
        Error::MissingStructField { field, outer: None }
    }

    /// A field that is there twice.
    pub fn duplicate_field(field: String) -> Error
        ensures { result ≡ Error.DuplicateStructField field None }
    {
        Error::DuplicateStructField { field, outer: None }
    }

    /// `Io` with the text of the error of a device, which is not promised; `OutOfMemory` where that text finds no
    /// memory.
    pub fn io(alloc: Global, fault: io::Error) -> Error
        ensures { IsIoOrMemory result }
    {
        match fault.to_string(alloc) {
            Ok(text) => Error::Io(text),
            Err(refused) => Error::from(refused),
        }
    }
}

impl From<AllocError> for Error {
    ghost from_gives = { λ _ e. e ≡ error.OutOfMemory };

    fn from(_refused: AllocError) -> Error {
        Error::OutOfMemory
    }
}

impl<T: Drop> From<AllocFailed<T>> for Error {
    ghost from_gives = { λ _ e. e ≡ error.OutOfMemory };

    fn from(_refused: AllocFailed<T>) -> Error {
        Error::OutOfMemory
    }
}

impl From<SpannedError> for Error {
    ghost from_gives = { λ e code. code ≡ e.code };

    fn from(e: SpannedError) -> Error {
        let SpannedError { code, span: _ } = e;
        code
    }
}

impl From<Utf8Error> for Error {
    ghost from_gives = { λ fault e. e ≡ error.Utf8Error fault };

    fn from(fault: Utf8Error) -> Error {
        Error::Utf8Error(fault)
    }
}

impl From<fmt::Error> for Error {
    ghost from_gives = { λ _ e. e ≡ error.Fmt };

    fn from(_fault: fmt::Error) -> Error {
        Error::Fmt
    }
}
