//! Why no literal is read.
ghost use Rattle.std.specs.Prelude.{◌≡◌};

use ron_base::error::EscapeFault;
use std::alloc::AllocError;

/// Why no char or byte literal, string or byte string is read where one is required.
#[derive(Clone, Copy)]
pub enum QuotedFault {
    /// The text has ended.
    Eof,
    /// No char literal begins here.
    NoChar,
    /// No byte literal begins here, or a character that is none of ASCII stands in one.
    NoByteLiteral,
    /// No string begins here, or only hashes behind an `r`.
    NoString,
    /// No byte string begins here, or only hashes behind `br`.
    NoByteString,
    /// No `'` closes a char or byte literal.
    MissingQuote,
    /// Nothing closes a string or byte string.
    MissingStringEnd,
    /// An escape is refused.
    InvalidEscape(EscapeFault),
}

/// A fault, and what follows the stretch at fault.
#[derive(Clone, Copy)]
pub struct QuotedError<'a> {
    pub fault: QuotedFault,
    pub rest: &'a str,
}

impl<'a> QuotedError<'a> {
    /// A fault, and what follows the stretch at fault.
    pub fn new(fault: QuotedFault, rest: &'a str) -> Self
        ensures fault { result.fault ≡ fault }
        ensures rest { result.rest.now ≡ rest.now }
    {
        QuotedError { fault, rest }
    }

    /// An escape at fault, and what follows the stretch at fault.
    pub fn escape(fault: EscapeFault, rest: &'a str) -> Self
        ensures fault { result.fault ≡ QuotedFault.InvalidEscape fault }
        ensures rest { result.rest.now ≡ rest.now }
    {
        QuotedError::new(QuotedFault::InvalidEscape(fault), rest)
    }
}

/// Why no string or byte string is handed out.
#[derive(Clone, Copy)]
pub enum StringRefusal<'a> {
    /// An allocation failed.
    OutOfMemory,
    /// None is read.
    Refused(QuotedError<'a>),
}

impl From<AllocError> for StringRefusal<'_> {
    ghost use Rattle.std.specs.Prelude.{◌≡◌};
    ghost use Rattle.ron_lex.specs.declared.fault.StringRefusal.TheVariants.{OutOfMemory};

    ghost from_gives = { λ _ refusal. refusal ≡ OutOfMemory };

    fn from(_: AllocError) -> Self {
        StringRefusal::OutOfMemory
    }
}

impl<'a> From<QuotedError<'a>> for StringRefusal<'a> {
    ghost use Rattle.std.specs.Prelude.{◌≡◌};
    ghost use Rattle.ron_lex.specs.declared.fault.StringRefusal.TheVariants.{Refused};

    ghost from_gives = { λ error refusal. refusal ≡ Refused error };

    fn from(error: QuotedError<'a>) -> Self {
        StringRefusal::Refused(error)
    }
}
