//! Faults of texts.
ghost use Rattle.std.specs.Prelude.{◌≡◌, ◌≤◌, true, false, chars, IfOk, MatchOption, OnOk};
ghost use Rattle.ron_format.specs.Refused.{IsRefused};
ghost use Rattle.ron_format.specs.Whole.{IsWhole};
ghost use Rattle.rontool_command.specs.Told.{TellsAll};

use crate::report::Report;
use ron_base::error::{Error, Position, Span, SpannedError, position_after};
use ron_format::Refusal;
use ron_format::document::Document;
use rontool_check::check;
use rontool_faults::{Fault, Format, Note, tell};
use std::alloc::{AllocError, Global};

/// A text, the name of its file, and how its faults are told.
#[derive(Clone, Copy)]
pub(crate) struct Named<'a> {
    pub file: &'a str,
    pub text: &'a str,
    pub told: Format,
}

/// Tells why a text isn't laid out.
pub(crate) fn tell_refusal(
    report: &mut Report,
    named: Named<'_>,
    error: &SpannedError,
) -> Result<(), AllocError>
    ensures { OnOk result (1 ≤ report.new.status) }
{
    let message = format!(in report.alloc; "{}", error.code)?;
    let Some(start) = opened(report.alloc, named.text) else {
        let fault = plain(named.file, error.span, message.as_str());
        return report.accuse(named.text, &fault, named.told);
    };
    let fault = opened_at(start, plain(named.file, error.span, message.as_str()));
    report.accuse(named.text, &fault, named.told)
}

/// A fault without a note.
fn plain<'f>(file: &'f str, span: Span, message: &'f str) -> Fault<'f> {
    Fault {
        file,
        span,
        message,
        note: None,
    }
}

/// A fault of a bracket that was opened there.
fn opened_at<'f>(start: Position, fault: Fault<'f>) -> Fault<'f> {
    Fault {
        file: fault.file,
        span: fault.span,
        message: fault.message,
        note: Some(Note {
            span: bracket_at(start),
            message: "opened here",
        }),
    }
}

/// The span of a bracket.
fn bracket_at(start: Position) -> Span {
    Span {
        start,
        end: Position {
            line: start.line,
            col: start.col.saturating_add(1),
        },
    }
}

/// Where the bracket was opened that is closed by one of another kind or not at all.
fn opened(alloc: Global, text: &str) -> Option<Position> {
    match Document::of(alloc, text) {
        Ok(_) => None,
        Err(refusal) => refusal.opened,
    }
}

/// Tells that bytes are no text, of which this is the valid front.
pub(crate) fn tell_bytes(report: &mut Report, front: Named<'_>) -> Result<(), AllocError>
    ensures { OnOk result (1 ≤ report.new.status) }
{
    let start = position_after(front.text);
    let fault = Fault {
        file: front.file,
        span: Span { start, end: start },
        message: "no UTF-8 from here on",
        note: None,
    };
    report.accuse(front.text, &fault, front.told)
}

/// Whether each token of a text is whole and each bracket is closed by one of its kind. Where not, that is told.
pub(crate) fn is_whole(report: &mut Report, named: Named<'_>) -> Result<bool, AllocError>
    ensures whole { IfOk result (λ whole. whole ≡ true → IsWhole (chars named.entry.text.now)) }
    ensures fault { IfOk result (λ whole. whole ≡ false → 1 ≤ report.new.status) }
    ensures tells { TellsAll report.old → OnOk result (TellsAll report.new) }
{
    match refusal_of(report.alloc, named.text) {
        None => Ok(true),
        Some(refusal) if refusal.error.code == Error::OutOfMemory => Err(AllocError),
        Some(refusal) => {
            tell_refusal(report, named, &refusal.error)?;
            Ok(false)
        }
    }
}

/// Why a text isn't cut into words.
fn refusal_of(alloc: Global, text: &str) -> Option<Refusal>
    ensures { MatchOption result (IsWhole (chars text.now)) (λ refusal. IsRefused (chars text.now) refusal.error) }
{
    match Document::of(alloc, text) {
        Ok(_) => None,
        Err(refusal) => Some(refusal),
    }
}

/// Whether a text is one of the grammar; where not, that is told.
pub(crate) fn is_fine(report: &mut Report, named: Named<'_>) -> Result<bool, AllocError>
    ensures tells { TellsAll report.old → OnOk result (TellsAll report.new) }
{
    if !is_whole(report, named)? {
        return Ok(false);
    }
    let found = check(report.alloc, named.text)?;
    match &found.fault {
        Some(error) => {
            tell_fault(report, named, error)?;
            Ok(false)
        }
        None => Ok(true),
    }
}

/// Tells a fault of a text.
pub(crate) fn tell_fault(
    report: &mut Report,
    named: Named<'_>,
    error: &SpannedError,
) -> Result<(), AllocError>
    ensures { OnOk result (1 ≤ report.new.status) }
{
    let message = format!(in report.alloc; "{}", error.code)?;
    tell_at(report, named, error.span, message.as_str())
}

/// Tells what is wrong at a place of a text.
pub(crate) fn tell_at(
    report: &mut Report,
    named: Named<'_>,
    span: Span,
    message: &str,
) -> Result<(), AllocError>
    ensures { OnOk result (1 ≤ report.new.status) }
{
    let fault = plain(named.file, span, message);
    report.accuse(named.text, &fault, named.told)
}

/// Tells a warning of a text, which may be a fault. One that is none goes to standard output.
pub(crate) fn tell_warning(
    report: &mut Report,
    named: Named<'_>,
    warning: (Span, &str),
    is_fault: bool,
) -> Result<(), AllocError>
    ensures tells { TellsAll report.old → OnOk result (TellsAll report.new) }
{
    let (span, why) = warning;
    let message = format!(in report.alloc; "warning: {why}")?;
    let fault = plain(named.file, span, message.as_str());
    if is_fault {
        return report.accuse(named.text, &fault, named.told);
    }
    let told = tell(report.alloc, named.text, &fault, named.told)?;
    report.output.push_str(told.as_str())
}
