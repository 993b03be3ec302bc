//! Why a text is not laid out.
ghost use Rattle.std.specs.Prelude.{◌≡◌, None, IfSome, chars};
ghost use Rattle.ron_lex.specs.Place.{IsPositionBefore};
ghost use Rattle.ron_lex_text.specs.Stretch.{IsSuffix};
ghost use Rattle.ron_format.specs.Fault.{found_open, IsTold};
ghost use Rattle.ron_format.specs.Refused.{IsSpanIn};
ghost use Rattle.ron_base.specs.declared.error.Error.TheVariants as error;
ghost use Rattle.ron_format.specs.declared.refusal.BracketFault.TheVariants.{OutOfMemory};

use ron_base::error::{Error, Position, Span, SpannedError, position_after};
use ron_lex_text::text::{before, split_first};
use std::alloc::{AllocError, AllocFailed};

/// Why a text is not cut into words.
#[derive(Debug, PartialEq, Eq, Drop)]
pub struct Refusal {
    /// What is wrong, and where that stands.
    pub error: SpannedError,
    /// Where the bracket was opened that is closed by one of another kind, or not at all.
    pub opened: Option<Position>,
}

impl From<Refusal> for SpannedError {
    ghost from_gives = { λ refusal error. error ≡ refusal.error };

    fn from(refusal: Refusal) -> SpannedError {
        let Refusal { error, opened: _ } = refusal;
        error
    }
}

/// What is wrong with a bracket.
#[derive(Clone, Copy)]
pub enum BracketFault<'a> {
    /// An allocation failed.
    OutOfMemory,
    /// None is open that it could close.
    ClosesNone,
    /// The innermost that is open, with which this text begins, is of another kind; or the text ends.
    NotClosed(&'a str),
}

impl From<AllocError> for BracketFault<'_> {
    ghost from_gives = { λ _ fault. fault ≡ OutOfMemory };

    fn from(_: AllocError) -> Self {
        BracketFault::OutOfMemory
    }
}

impl<T: Drop> From<AllocFailed<T>> for BracketFault<'_> {
    ghost from_gives = { λ _ fault. fault ≡ OutOfMemory };

    fn from(_: AllocFailed<T>) -> Self {
        BracketFault::OutOfMemory
    }
}

impl Refusal {
    /// An error of the stretch between two places of a text.
    pub(crate) fn of(text: &str, rest: &str, after: &str, code: Error) -> Refusal
        requires start { IsSuffix (chars rest.now) (chars text.now) }
        requires end { IsSuffix (chars after.now) (chars rest.now) }
        ensures code { result.error.code ≡ code }
        ensures place { IsSpanIn (chars text.now) result.error.span }
        ensures start { IsPositionBefore (chars text.now) (chars rest.now) result.error.span.start }
        ensures opened { result.opened ≡ None }
    {
        let start = place_of(text, rest);
        let end = place_of(text, after);
        Refusal {
            error: SpannedError {
                code,
                span: Span { start, end },
            },
            opened: None,
        }
    }

    /// A bracket at fault, which stands between two places of a text.
    #[cold]
    pub(crate) fn of_bracket(
        text: &str,
        rest: &str,
        after: &str,
        fault: BracketFault<'_>,
    ) -> Refusal
        requires start { IsSuffix (chars rest.now) (chars text.now) }
        requires end { IsSuffix (chars after.now) (chars rest.now) }
        requires bracket { IfSome (found_open fault) (λ bracket. IsSuffix bracket (chars text.now)) }
        ensures memory { fault.entry ≡ OutOfMemory → result.error.code ≡ error.OutOfMemory }
        ensures place { IsSpanIn (chars text.now) result.error.span }
        ensures start { IsPositionBefore (chars text.now) (chars rest.now) result.error.span.start }
        ensures opened { IsTold (chars text.now) (found_open fault.entry) result.opened }
    {
        match fault {
            BracketFault::OutOfMemory => Refusal::of(text, rest, after, Error::OutOfMemory),
            BracketFault::ClosesNone => Refusal::of(text, rest, after, closes_none(rest)),
            BracketFault::NotClosed(bracket) => {
                let Refusal { error, opened: _ } = Refusal::of(
                    text,
                    rest,
                    after,
                    wants_end(bracket),
                );
                Refusal {
                    error,
                    opened: Some(place_of(text, bracket)),
                }
            }
        }
    }
}

/// The position of the place where `rest` begins.
fn place_of(text: &str, rest: &str) -> Position
    requires { IsSuffix (chars rest.now) (chars text.now) }
    ensures { IsPositionBefore (chars text.now) (chars rest.now) result }
{
    position_after(before(text, rest))
}

/// What is reported of a closing bracket where none is open.
fn closes_none(rest: &str) -> Error {
    match split_first(rest) {
        Some((bracket, _)) => Error::UnexpectedChar(bracket),
        None => Error::Eof,
    }
}

/// What is reported where the end of the group is missing that the bracket opens with which a text begins.
fn wants_end(bracket: &str) -> Error {
    match split_first(bracket) {
        Some(('[', _)) => Error::ExpectedArrayEnd,
        Some(('{', _)) => Error::ExpectedMapEnd,
        _ => Error::ExpectedStructLikeEnd,
    }
}
