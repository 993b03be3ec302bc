//! A value told as JSON.
ghost use Rattle.std.specs.Prelude.{◌≡◌, IfOk, OnOk};
ghost use Rattle.rontool_command.specs.Told.{TellsAll};

use crate::ask::Rendering;
use crate::getting::bytes_of;
use crate::opening::{behind_mark, text_of};
use crate::report::Report;
use crate::told::{Named, is_fine, tell_at};
use rontool_files::store::Store;
use rontool_json::{Refusal, to_json};
use std::alloc::{AllocError, Global};
use std::io::Read;

/// Tells the value of a file or of standard input as JSON, as words ask for.
pub(crate) fn render<S: Store, R: Read>(
    alloc: Global,
    asked: &Rendering,
    store: &mut S,
    input: &mut R,
) -> Result<Report, AllocError>
    ensures same { S.told → S.stands store.new ≡ S.stands store.old }
    ensures untouched { S.changes store.new ≡ S.changes store.old }
    ensures tells { IfOk result TellsAll }
{
    let mut report = Report::new(alloc);
    let Some(bytes) = bytes_of(&mut report, store, input, asked.file.as_str())? else {
        return Ok(report);
    };
    render_bytes(&mut report, asked, bytes.as_slice())?;
    Ok(report)
}

/// Tells the value that the bytes of a file spell.
fn render_bytes(report: &mut Report, asked: &Rendering, bytes: &[u8]) -> Result<(), AllocError>
    ensures tells { TellsAll report.old → OnOk result (TellsAll report.new) }
{
    let told = asked.told;
    let file = asked.file.as_str();
    let Some(whole) = text_of(report, told, file, bytes)? else {
        return Ok(());
    };
    let text = behind_mark(whole);
    let named = Named { file, text, told };
    if !is_fine(report, named)? {
        return Ok(());
    }
    match to_json(report.alloc, text, asked.large_as_text) {
        Ok(json) => report.say(json.as_str()),
        Err(Refusal::OutOfMemory) => Err(AllocError),
        Err(Refusal::Unfit(unfit)) => tell_at(report, named, unfit.span, unfit.why.message()),
    }
}
