//! What is reported of the faults of words.
ghost use Rattle.std.specs.Prelude.{◌≡◌, MatchResult};
ghost use Rattle.ron_base.specs.declared.error.Error.TheVariants.{OutOfMemory};
ghost use Rattle.ron_de_steps.specs.Errors.{IsOfText, TellsRefusal};

use ron_base::error::{Error, Result};
use ron_lex::any_integer::AnyIntegerFault;
use ron_lex::fault::{QuotedFault, StringRefusal};
use ron_lex::identifier::IdentifierFault;
use ron_lex::numeral::NumeralFault;
use ron_lex::untyped::UntypedIntegerFault;
use std::alloc::Global;

/// What is reported where neither an integer nor a byte literal is read.
pub fn integer_error(fault: AnyIntegerFault) -> Error
    ensures { IsOfText result }
{
    match fault {
        AnyIntegerFault::Integer(NumeralFault::Eof) => Error::Eof,
        AnyIntegerFault::Integer(NumeralFault::NoDigit) => Error::ExpectedInteger,
        AnyIntegerFault::Integer(NumeralFault::LeadingUnderscore) => Error::UnderscoreAtBeginning,
        AnyIntegerFault::Integer(NumeralFault::InvalidDigit { digit, base }) => {
            Error::InvalidIntegerDigit { digit, base }
        }
        AnyIntegerFault::Integer(NumeralFault::OutOfBounds) => Error::IntegerOutOfBounds,
        AnyIntegerFault::Byte(QuotedFault::MissingQuote) => Error::ExpectedByteLiteral,
        AnyIntegerFault::Byte(fault) => quoted_error(fault),
    }
}

/// What is reported where no number is read and no type is given.
pub fn number_error(fault: UntypedIntegerFault) -> Error
    ensures { IsOfText result }
{
    match fault {
        UntypedIntegerFault::UnsupportedFloat => Error::UnsupportedFloat,
        UntypedIntegerFault::Integer(fault) => integer_error(fault),
    }
}

/// What is reported where no literal between quotes is read.
pub fn quoted_error(fault: QuotedFault) -> Error
    ensures { IsOfText result }
{
    match fault {
        QuotedFault::Eof => Error::Eof,
        QuotedFault::NoChar | QuotedFault::MissingQuote => Error::ExpectedChar,
        QuotedFault::NoByteLiteral => Error::ExpectedByteLiteral,
        QuotedFault::NoString => Error::ExpectedString,
        QuotedFault::NoByteString => Error::ExpectedByteString,
        QuotedFault::MissingStringEnd => Error::ExpectedStringEnd,
        QuotedFault::InvalidEscape(escape) => Error::InvalidEscape(escape),
    }
}

/// What is reported where a string or a byte string is refused.
pub fn string_error(refusal: StringRefusal<'_>) -> Error
    ensures { TellsRefusal refusal.entry result }
{
    match refusal {
        StringRefusal::OutOfMemory => Error::OutOfMemory,
        StringRefusal::Refused(refused) => quoted_error(refused.fault),
    }
}

/// What is reported where no name is read: where only a raw identifier could spell it, that is suggested.
#[cold]
#[inline(never)]
pub fn identifier_error(alloc: Global, fault: IdentifierFault<'_>) -> Result<Error>
    ensures { MatchResult result IsOfText (λ e. e ≡ OutOfMemory) }
{
    Ok(match fault {
        IdentifierFault::Eof => Error::Eof,
        IdentifierFault::NoIdentifier => Error::ExpectedIdentifier,
        IdentifierFault::OnlyRaw(run) => Error::SuggestRawIdentifier(String::from_str(alloc, run)?),
    })
}
