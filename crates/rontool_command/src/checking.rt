//! Files gone over.
ghost use Rattle.std.specs.Prelude.{◌≡◌, ◌≤◌, ◌⊎◌, chars, IfOk, OnOk};
ghost use Rattle.ron_format.specs.Whole.{IsWhole};
ghost use Rattle.rontool_command.specs.Told.{TellsAll};

use crate::ask::Checking;
use crate::opening::{MARK, behind_mark, is_stream, open_file, tell_all, text_of};
use crate::report::Report;
use crate::told::{Named, is_whole, tell_fault, tell_warning};
use ron_base::error::{Position, Span};
use ron_lex_text::text::is_at;
use rontool_check::{Warned, check};
use rontool_files::find::find;
use rontool_files::store::Store;
use std::alloc::{AllocError, Global};
use std::io::Read;

/// Goes over files, or standard input, as words ask for.
pub(crate) fn check_all<S: Store, R: Read>(
    alloc: Global,
    asked: &Checking,
    store: &mut S,
    input: &mut R,
) -> Result<Report, AllocError>
    ensures same { S.told → S.stands store.new ≡ S.stands store.old }
    ensures untouched { S.changes store.new ≡ S.changes store.old }
    ensures tells { IfOk result TellsAll }
{
    let mut report = Report::new(alloc);
    if is_stream(asked.paths.as_slice()) {
        check_stream(&mut report, asked, input)?;
        return Ok(report);
    }
    let found = find(
        alloc,
        store,
        asked.paths.as_slice(),
        asked.excludes.as_slice(),
    )?;
    tell_all(&mut report, store, found.unopened.as_slice())?;
    check_files(&mut report, asked, store, found.files.as_slice())?;
    Ok(report)
}

/// Goes over files, one after another.
fn check_files<S: Store>(
    report: &mut Report,
    asked: &Checking,
    store: &mut S,
    paths: &[String],
) -> Result<(), AllocError>
    ensures same { S.told → S.stands store.new ≡ S.stands store.old }
    ensures untouched { S.changes store.new ≡ S.changes store.old }
    ensures tells { TellsAll report.old → OnOk result (TellsAll report.new) }
{
    'paths: for path in paths {
        check_file(report, asked, store, path.as_str())?;
    }
    Ok(())
}

/// Goes over a file.
fn check_file<S: Store>(
    report: &mut Report,
    asked: &Checking,
    store: &mut S,
    path: &str,
) -> Result<(), AllocError>
    ensures same { S.told → S.stands store.new ≡ S.stands store.old }
    ensures untouched { S.changes store.new ≡ S.changes store.old }
    ensures tells { TellsAll report.old → OnOk result (TellsAll report.new) }
{
    match open_file(report, store, path)? {
        Some(held) => check_bytes(report, asked, path, held.bytes.as_slice()),
        None => Ok(()),
    }
}

/// Goes over standard input.
fn check_stream<R: Read>(
    report: &mut Report,
    asked: &Checking,
    input: &mut R,
) -> Result<(), AllocError>
    ensures tells { TellsAll report.old → OnOk result (TellsAll report.new) }
{
    let mut bytes = Vec::new(report.alloc);
    match input.read_to_end(&mut bytes) {
        Ok(_) => check_bytes(report, asked, "-", bytes.as_slice()),
        Err(error) => report.fail("-", error),
    }
}

/// Goes over the bytes of a file.
fn check_bytes(
    report: &mut Report,
    asked: &Checking,
    file: &str,
    bytes: &[u8],
) -> Result<(), AllocError>
    ensures tells { TellsAll report.old → OnOk result (TellsAll report.new) }
{
    let told = asked.told;
    let Some(whole) = text_of(report, told, file, bytes)? else {
        return Ok(());
    };
    let text = behind_mark(whole);
    let named = Named { file, text, told };
    warn_of_mark(report, asked, named, whole)?;
    check_text(report, asked, named)
}

/// Warns of the mark that may stand before a text.
fn warn_of_mark(
    report: &mut Report,
    asked: &Checking,
    named: Named<'_>,
    whole: &str,
) -> Result<(), AllocError>
    ensures tells { TellsAll report.old → OnOk result (TellsAll report.new) }
{
    if !is_at(whole, MARK) {
        return Ok(());
    }
    let start = Position { line: 1, col: 1 };
    let span = Span { start, end: start };
    let why = "a mark of UTF-8 stands before the text, which needs none";
    tell_warning(report, named, (span, why), asked.denies)
}

/// Goes over a text. Where it isn't whole, that is a fault.
fn check_text(report: &mut Report, asked: &Checking, named: Named<'_>) -> Result<(), AllocError>
    ensures tells { TellsAll report.old → OnOk result (TellsAll report.new) }
    ensures whole { OnOk result (IsWhole (chars named.entry.text.now) ⊎ (1 ≤ report.new.status)) }
{
    if !is_whole(report, named)? {
        return Ok(());
    }
    let found = check(report.alloc, named.text)?;
    tell_warnings(report, asked, named, found.warnings.as_slice())?;
    match &found.fault {
        Some(error) => tell_fault(report, named, error),
        None => Ok(()),
    }
}

/// Tells what a text is warned of.
fn tell_warnings(
    report: &mut Report,
    asked: &Checking,
    named: Named<'_>,
    warnings: &[Warned],
) -> Result<(), AllocError>
    ensures tells { TellsAll report.old → OnOk result (TellsAll report.new) }
{
    'warnings: for one in warnings {
        let warning = (one.span, one.warning.message());
        tell_warning(report, named, warning, asked.denies)?;
    }
    Ok(())
}
