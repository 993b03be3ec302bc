//! The value at a path told.
ghost use Rattle.std.specs.Prelude.{◌≡◌, ◌≤◌, true, chars, IfOk, IfSome, OnOk};
ghost use Rattle.rontool_paths.specs.Stretch.{IsStretch};
ghost use Rattle.rontool_command.specs.Told.{TellsAll};

use crate::ask::Getting;
use crate::opening::{behind_mark, is_stream_name, open_file, text_of};
use crate::report::Report;
use crate::told::{Named, is_whole, tell_at};
use ron_base::error::Span;
use rontool_files::store::Store;
use rontool_paths::find::{Astray, Why, find, is_path};
use rontool_paths::place::span_between;
use rontool_paths::value::Value;
use rontool_paths::word::next_word;
use std::alloc::{AllocError, Global};
use std::io::Read;

/// Tells the value at a path in a file or in standard input, as words ask for.
pub(crate) fn get_value<S: Store, R: Read>(
    alloc: Global,
    asked: &Getting,
    store: &mut S,
    input: &mut R,
) -> Result<Report, AllocError>
    ensures same { S.told → S.stands store.new ≡ S.stands store.old }
    ensures untouched { S.changes store.new ≡ S.changes store.old }
    ensures tells { IfOk result TellsAll }
{
    let mut report = Report::new(alloc);
    if !is_right(&mut report, asked.path.as_str())? {
        return Ok(report);
    }
    let Some(bytes) = bytes_of(&mut report, store, input, asked.file.as_str())? else {
        return Ok(report);
    };
    tell_value(&mut report, asked, bytes.as_slice())?;
    Ok(report)
}

/// Whether words are a path; where not, that is told.
pub(crate) fn is_right(report: &mut Report, path: &str) -> Result<bool, AllocError>
    ensures tells { TellsAll report.old → OnOk result (TellsAll report.new) }
{
    if is_path(path) {
        return Ok(true);
    }
    report.complain(
        path,
        "no path: a path is `.`, or steps as in `name.list[3].map[\"key\"]`",
    )?;
    Ok(false)
}

/// What a file or standard input holds; none where it can't be opened, which is told.
pub(crate) fn bytes_of<S: Store, R: Read>(
    report: &mut Report,
    store: &mut S,
    input: &mut R,
    file: &str,
) -> Result<Option<Vec<u8>>, AllocError>
    ensures same { S.told → S.stands store.new ≡ S.stands store.old }
    ensures untouched { S.changes store.new ≡ S.changes store.old }
    ensures tells { TellsAll report.old → OnOk result (TellsAll report.new) }
{
    if !is_stream_name(file) {
        return match open_file(report, store, file)? {
            Some(held) => Ok(Some(held.bytes)),
            None => Ok(None),
        };
    }
    let mut bytes = Vec::new(report.alloc);
    match input.read_to_end(&mut bytes) {
        Ok(_) => Ok(Some(bytes)),
        Err(error) => {
            report.fail(file, error)?;
            Ok(None)
        }
    }
}

/// Tells the value at a path in the bytes of a file.
fn tell_value(report: &mut Report, asked: &Getting, bytes: &[u8]) -> Result<(), AllocError>
    ensures tells { TellsAll report.old → OnOk result (TellsAll report.new) }
{
    let told = asked.told;
    let file = asked.file.as_str();
    let Some(whole) = text_of(report, told, file, bytes)? else {
        return Ok(());
    };
    let text = behind_mark(whole);
    match value_at(report, Named { file, text, told }, asked.path.as_str())? {
        Some(value) => report.say(value.text()),
        None => Ok(()),
    }
}

/// The value at a path in a text; none where the text isn't whole or the path leads nowhere, which is told.
pub(crate) fn value_at<'t>(
    report: &mut Report,
    named: Named<'t>,
    path: &str,
) -> Result<Option<Value<'t>>, AllocError>
    ensures value { IfOk result (λ found. IfSome found (IsStretch (chars named.entry.text.now))) }
    ensures tells { TellsAll report.old → OnOk result (TellsAll report.new) }
{
    if !is_whole(report, named)? {
        return Ok(None);
    }
    match find(named.text, path) {
        Ok(value) => Ok(Some(value)),
        Err(astray) => {
            tell_astray(report, named, astray)?;
            Ok(None)
        }
    }
}

/// Tells where a path ends that leads nowhere.
fn tell_astray(
    report: &mut Report,
    named: Named<'_>,
    astray: Astray<'_, '_>,
) -> Result<(), AllocError>
    ensures { OnOk result (1 ≤ report.new.status) }
{
    let left = astray.left;
    let message = match astray.why {
        Why::NoStep => format!(in report.alloc; "`{left}` is no step of a path"),
        Why::NoValue => format!(in report.alloc; "there is no value here"),
        Why::NoGroup => format!(in report.alloc; "`{left}` leads nowhere: this has no items"),
        Why::NoField => format!(in report.alloc; "`{left}` leads nowhere: this has no such field"),
        Why::NoItem => format!(in report.alloc; "`{left}` leads nowhere: this has no such item"),
        Why::NoKey => format!(in report.alloc; "`{left}` leads nowhere: this has no such key"),
    }?;
    let span = span_at(named.text, astray.at.from);
    tell_at(report, named, span, message.as_str())
}

/// The span of the word with which `rest` begins, in a text that ends with that.
fn span_at(text: &str, rest: &str) -> Span {
    let after = match next_word(rest) {
        Some(word) => word.after,
        None => rest,
    };
    span_between(text, rest, after)
}
