//! Files laid out.
ghost use Rattle.std.specs.Prelude.{◌≡◌, ◌≤◌, ◌∷◌, ℕ, List, Some, true, chars, string_bytes, IfOk, OnOk};
ghost use Rattle.rontool_command.specs.Kept.{KeepsAll, Relaid, only_looks, IsLaidOut, MarksAs, utf8_mark};
ghost use Rattle.rontool_files.specs.Thing.{bytes_of};
ghost use Rattle.rontool_command.specs.Told.{TellsAll};

use crate::ask::Formatting;
use crate::diff::push_diff;
use crate::opening::{MARK, behind_mark, is_stream, open_file, tell_all, text_of};
use crate::report::Report;
use crate::told::{Named, tell_refusal};
use ron_base::error::{Error, Position, Span, SpannedError, SpannedResult};
use ron_format::format;
use ron_format::layout::Layout;
use ron_lex_text::text::strip_char;
use rontool_files::find::find;
use rontool_files::replace::{NEW, Refused, replace_file};
use rontool_files::store::Store;
use std::alloc::{AllocError, Global};
use std::io::{ErrorKind, Read};

/// Lays out files, or standard input, as words ask for.
#[tactic(auto, using(crate::proofs::KeptLemmas::kept_same, crate::proofs::KeptLemmas::kept_from))]
pub(crate) fn format_all<S: Store, R: Read>(
    alloc: Global,
    asked: &Formatting,
    store: &mut S,
    input: &mut R,
) -> Result<Report, AllocError>
    ensures kept { S.told → KeepsAll Relaid (S.stands store.old) (S.stands store.new) }
    ensures same { S.told → only_looks asked.now ≡ true → S.stands store.new ≡ S.stands store.old }
    ensures untouched { only_looks asked.now ≡ true → S.changes store.new ≡ S.changes store.old }
    ensures tells { IfOk result TellsAll }
{
    let mut report = Report::new(alloc);
    if is_stream(asked.paths.as_slice()) {
        format_stream(&mut report, asked, input)?;
        return Ok(report);
    }
    let found = find(
        alloc,
        store,
        asked.paths.as_slice(),
        asked.excludes.as_slice(),
    )?;
    tell_all(&mut report, store, found.unopened.as_slice())?;
    format_files(&mut report, asked, store, found.files.as_slice())?;
    Ok(report)
}

/// Lays out files, one after another.
#[tactic(auto, using(crate::proofs::KeptLemmas::kept_same, crate::proofs::KeptLemmas::kept_again))]
fn format_files<S: Store>(
    report: &mut Report,
    asked: &Formatting,
    store: &mut S,
    paths: &[String],
) -> Result<(), AllocError>
    ensures kept { S.told → KeepsAll Relaid (S.stands store.old) (S.stands store.new) }
    ensures same { S.told → only_looks asked.now ≡ true → S.stands store.new ≡ S.stands store.old }
    ensures untouched { only_looks asked.now ≡ true → S.changes store.new ≡ S.changes store.old }
    ensures tells { TellsAll report.old → OnOk result (TellsAll report.new) }
{
    'paths: for path in paths {
        format_file(report, asked, store, path.as_str())?;
    }
    Ok(())
}

/// Lays out standard input to standard output.
fn format_stream<R: Read>(
    report: &mut Report,
    asked: &Formatting,
    input: &mut R,
) -> Result<(), AllocError>
    ensures tells { TellsAll report.old → OnOk result (TellsAll report.new) }
{
    let mut bytes = Vec::new(report.alloc);
    if let Err(error) = input.read_to_end(&mut bytes) {
        return report.fail("-", error);
    }
    let Some((text, laid)) = lay_out_bytes(report, asked, "-", bytes.as_slice())? else {
        return Ok(());
    };
    if asked.only_looks() {
        show(report, asked, "-", (text, laid.as_str()))
    } else {
        report.output.push_str(laid.as_str())
    }
}

/// Lays out a file.
#[tactic(auto, using(crate::proofs::KeptLemmas::kept_same, crate::proofs::KeptLemmas::kept_from))]
fn format_file<S: Store>(
    report: &mut Report,
    asked: &Formatting,
    store: &mut S,
    path: &str,
) -> Result<(), AllocError>
    ensures kept { S.told → KeepsAll Relaid (S.stands store.old) (S.stands store.new) }
    ensures same { S.told → only_looks asked.now ≡ true → S.stands store.new ≡ S.stands store.old }
    ensures untouched { only_looks asked.now ≡ true → S.changes store.new ≡ S.changes store.old }
    ensures tells { TellsAll report.old → OnOk result (TellsAll report.new) }
{
    let Some(held) = open_file(report, store, path)? else {
        return Ok(());
    };
    let Some((text, laid)) = lay_out_bytes(report, asked, path, held.bytes.as_slice())? else {
        return Ok(());
    };
    if asked.only_looks() {
        return show(report, asked, path, (text, laid.as_str()));
    }
    let file = held.file.as_str();
    put_in_place(report, store, Target { path, file }, laid.as_bytes())
}

/// A path as it was given, and the path of the file that it leads to.
#[derive(Clone, Copy)]
pub(crate) struct Target<'a> {
    pub path: &'a str,
    pub file: &'a str,
}

/// Replaces a file by its text laid out.
fn put_in_place<S: Store>(
    report: &mut Report,
    store: &mut S,
    target: Target<'_>,
    laid: &[u8],
) -> Result<(), AllocError>
    ensures kept { S.told → (old : List ℕ) → bytes_of (S.stands store.old target.entry.file.now) ≡ Some old → Relaid (chars old) (chars laid.now)
        → KeepsAll Relaid (S.stands store.old) (S.stands store.new) }
    ensures tells { TellsAll report.old → OnOk result (TellsAll report.new) }
{
    match replace_file(report.alloc, store, target.file, laid) {
        Ok(_) => Ok(()),
        Err(refused) => tell_refused(report, target.path, &refused),
    }
}

/// The text that bytes are, and the same laid out; none after a fault, which is told.
fn lay_out_bytes<'b>(
    report: &mut Report,
    asked: &Formatting,
    file: &str,
    bytes: &'b [u8],
) -> Result<Option<(&'b str, String)>, AllocError>
    ensures laid { IfOk result (IsLaidOut bytes.now) }
    ensures tells { TellsAll report.old → OnOk result (TellsAll report.new) }
{
    let told = asked.told;
    let Some(text) = text_of(report, told, file, bytes)? else {
        return Ok(None);
    };
    match lay_out(report.alloc, text, &asked.layout) {
        Ok(laid) => Ok(Some((text, laid))),
        Err(error) if error.code == Error::OutOfMemory => Err(AllocError),
        Err(error) => {
            let text = behind_mark(text);
            tell_refusal(report, Named { file, text, told }, &error)?;
            Ok(None)
        }
    }
}

/// A text laid out. A mark before it stays.
fn lay_out(alloc: Global, text: &str, layout: &Layout) -> SpannedResult<String>
    ensures { IfOk result (λ laid. Relaid (chars text.now) (chars (string_bytes laid))) }
{
    let laid = format(alloc, behind_mark(text), layout)?;
    match marked_as(alloc, text, laid) {
        Ok(marked) => Ok(marked),
        Err(_) => {
            let start = Position { line: 1, col: 1 };
            Err(SpannedError {
                code: Error::OutOfMemory,
                span: Span { start, end: start },
            })
        }
    }
}

/// A text laid out, behind a mark where the text is.
fn marked_as(alloc: Global, text: &str, laid: String) -> Result<String, AllocError>
    ensures { IfOk result (λ marked. MarksAs (chars text.now) (chars (string_bytes laid)) (chars (string_bytes marked))) }
{
    match strip_char(text, MARK) {
        Some(_) => marked(alloc, laid.as_str()),
        None => Ok(laid),
    }
}

/// A text behind a mark.
fn marked(alloc: Global, text: &str) -> Result<String, AllocError>
    ensures { IfOk result (λ marked. chars (string_bytes marked) ≡ utf8_mark ∷ chars text.now) }
{
    let mut marked = String::new(alloc);
    marked.push(MARK)?;
    marked.push_str(text)?;
    Ok(marked)
}

/// Names a file or shows what would change in it, if anything would.
fn show(
    report: &mut Report,
    asked: &Formatting,
    file: &str,
    texts: (&str, &str),
) -> Result<(), AllocError>
    ensures tells { TellsAll report.old → OnOk result (TellsAll report.new) }
{
    let (text, laid) = texts;
    if text == laid {
        return Ok(());
    }
    if asked.checks {
        report.raise(1);
    }
    if asked.shows {
        push_diff(report.alloc, &mut report.output, file, (text, laid))
    } else {
        report.say(file)
    }
}

/// Tells why a file isn't replaced.
pub(crate) fn tell_refused(
    report: &mut Report,
    path: &str,
    refused: &Refused,
) -> Result<(), AllocError>
    ensures { OnOk result (2 ≤ report.new.status) }
{
    match refused {
        Refused::Find(error) | Refused::Read(error) | Refused::Write(error) => {
            report.fail(path, *error)
        }
        Refused::Create(error) if error.kind() == ErrorKind::AlreadyExists => {
            let stray = format!(in report.alloc; "{path}{NEW}")?;
            report.complain(
                stray.as_str(),
                "left by a run that was cut off, or another is at work: remove it",
            )
        }
        Refused::Create(error) => report.fail(path, *error),
    }
}
