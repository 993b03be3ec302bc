//! Files opened, and what is told of those that can't be.
ghost use Rattle.std.specs.Prelude.{◌≡◌, ◌≤◌, chars, IfOk, IfSome, OnOk};
ghost use Rattle.rontool_command.specs.Kept.{IsHeld, IsBehindMark};
ghost use Rattle.rontool_command.specs.Told.{TellsAll};

use crate::near::near_path;
use crate::report::Report;
use crate::told::{Named, tell_bytes};
use ron_lex_text::text::strip_char;
use rontool_faults::Format;
use rontool_files::find::Unopened;
use rontool_files::replace::{LINKS, follow};
use rontool_files::store::Store;
use std::alloc::AllocError;
use std::io;
use std::io::ErrorKind;

/// What may stand before a text: it says that what follows is UTF-8.
pub(crate) const MARK: char = '\u{feff}';

/// Tells that paths can't be opened.
pub(crate) fn tell_all<S: Store>(
    report: &mut Report,
    store: &mut S,
    unopened: &[Unopened],
) -> Result<(), AllocError>
    ensures same { S.told → S.stands store.new ≡ S.stands store.old }
    ensures untouched { S.changes store.new ≡ S.changes store.old }
    ensures tells { TellsAll report.old → OnOk result (TellsAll report.new) }
{
    'paths: for one in unopened {
        tell_unopened(report, store, one.path.as_str(), one.error)?;
    }
    Ok(())
}

/// Whether standard input is asked for.
pub(crate) fn is_stream(paths: &[String]) -> bool {
    match paths {
        [] => true,
        [path] => is_stream_name(path.as_str()),
        _ => false,
    }
}

/// Whether a path is the name of standard input.
pub(crate) fn is_stream_name(path: &str) -> bool {
    path == "-"
}

/// Tells that a path can't be opened, with one near it where there is none of its name.
fn tell_unopened<S: Store>(
    report: &mut Report,
    store: &mut S,
    path: &str,
    error: io::Error,
) -> Result<(), AllocError>
    ensures same { S.told → S.stands store.new ≡ S.stands store.old }
    ensures untouched { S.changes store.new ≡ S.changes store.old }
    ensures told { OnOk result (2 ≤ report.new.status) }
{
    report.fail(path, error)?;
    if error.kind() != ErrorKind::NotFound {
        return Ok(());
    }
    let Some(near) = near_path(report.alloc, store, path)? else {
        return Ok(());
    };
    let help = format!(in report.alloc; "help: there is `{near}`\n")?;
    report.faults.push_str(help.as_str())
}

/// A file's own path, behind all links, and what it holds.
#[derive(Drop)]
pub(crate) struct Held {
    pub file: String,
    pub bytes: Vec<u8>,
}

/// A file that a path leads to; none where it can't be opened, which is told.
pub(crate) fn open_file<S: Store>(
    report: &mut Report,
    store: &mut S,
    path: &str,
) -> Result<Option<Held>, AllocError>
    ensures same { S.told → S.stands store.new ≡ S.stands store.old }
    ensures untouched { S.changes store.new ≡ S.changes store.old }
    ensures held { S.told → IfOk result (IsHeld (S.stands store.old)) }
    ensures tells { TellsAll report.old → OnOk result (TellsAll report.new) }
{
    let file = match follow(report.alloc, store, path, LINKS) {
        Ok(file) => file,
        Err(error) => {
            tell_unopened(report, store, path, error)?;
            return Ok(None);
        }
    };
    match store.read(report.alloc, file.as_str()) {
        Ok(bytes) => Ok(Some(Held { file, bytes })),
        Err(error) => {
            report.fail(path, error)?;
            Ok(None)
        }
    }
}

/// The text that the bytes of a file are; none where they are no UTF-8, which is told.
pub(crate) fn text_of<'b>(
    report: &mut Report,
    told: Format,
    file: &str,
    bytes: &'b [u8],
) -> Result<Option<&'b str>, AllocError>
    ensures text { IfOk result (λ found. IfSome found (λ text. text.now ≡ bytes.now)) }
    ensures tells { TellsAll report.old → OnOk result (TellsAll report.new) }
{
    match str::from_utf8(bytes) {
        Ok(text) => Ok(Some(text)),
        Err(error) => {
            let text = valid_front(bytes, error.valid_up_to());
            tell_bytes(report, Named { file, text, told })?;
            Ok(None)
        }
    }
}

/// The first of these bytes, as a text.
fn valid_front(bytes: &[u8], many: usize) -> &str {
    let front = match bytes.split_at_checked(many) {
        Some((front, _)) => front,
        None => bytes,
    };
    str::from_utf8(front).unwrap_or("")
}

/// A text without the mark that may stand before it.
pub(crate) fn behind_mark(text: &str) -> &str
    ensures { IsBehindMark (chars text.now) (chars result.now) }
{
    match strip_char(text, MARK) {
        Some(behind) => behind,
        None => text,
    }
}
