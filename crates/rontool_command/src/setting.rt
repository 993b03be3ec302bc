//! Another value put in the place of one.
ghost use Rattle.std.specs.Prelude.{◌≡◌, ◌≤◌, List, ℕ, Some, true, chars, string_bytes, IfOk, IfSome, OnOk};
ghost use Rattle.rontool_files.specs.Thing.{bytes_of};
ghost use Rattle.rontool_command.specs.Kept.{KeepsAll, HasPut};
ghost use Rattle.rontool_command.specs.Told.{TellsAll};

use crate::ask::Setting;
use crate::formatting::{Target, tell_refused};
use crate::getting::{is_right, value_at};
use crate::opening::{behind_mark, open_file, text_of};
use crate::report::Report;
use crate::told::{Named, is_fine};
use rontool_files::replace::replace_file;
use rontool_files::store::Store;
use rontool_paths::put::put;
use rontool_paths::value::next_value;
use std::alloc::{AllocError, Global};

/// Puts another value in the place of the one at a path in a file, as words ask for.
#[tactic(auto, using(crate::proofs::KeptLemmas::kept_same))]
pub(crate) fn set_value<S: Store>(
    alloc: Global,
    asked: &Setting,
    store: &mut S,
) -> Result<Report, AllocError>
    ensures kept { S.told → KeepsAll (HasPut (chars (string_bytes asked.now.value))) (S.stands store.old) (S.stands store.new) }
    ensures tells { IfOk result TellsAll }
{
    let mut report = Report::new(alloc);
    if !is_right(&mut report, asked.path.as_str())? {
        return Ok(report);
    }
    if !is_value(&mut report, asked)? {
        return Ok(report);
    }
    set_in_file(&mut report, asked, store)?;
    Ok(report)
}

/// Whether words are one value; where not, that is told.
fn is_value(report: &mut Report, asked: &Setting) -> Result<bool, AllocError>
    ensures tells { TellsAll report.old → OnOk result (TellsAll report.new) }
{
    let told = asked.told;
    let text = asked.value.as_str();
    let file = "VALUE";
    if !is_fine(report, Named { file, text, told })? {
        return Ok(false);
    }
    let is_alone = match next_value(text) {
        Some(value) => value.from.len() == text.len() && value.behind.is_empty(),
        None => false,
    };
    if is_alone {
        return Ok(true);
    }
    report.complain(
        text,
        "no value by itself: nothing may stand before it or behind it",
    )?;
    Ok(false)
}

/// Puts another value in the place of one in a file.
#[tactic(auto, using(crate::proofs::KeptLemmas::kept_same, crate::proofs::KeptLemmas::kept_from))]
fn set_in_file<S: Store>(
    report: &mut Report,
    asked: &Setting,
    store: &mut S,
) -> Result<(), AllocError>
    ensures kept { S.told → KeepsAll (HasPut (chars (string_bytes asked.now.value))) (S.stands store.old) (S.stands store.new) }
    ensures tells { TellsAll report.old → OnOk result (TellsAll report.new) }
{
    let path = asked.file.as_str();
    let Some(held) = open_file(report, store, path)? else {
        return Ok(());
    };
    let Some(new) = text_with(report, asked, held.bytes.as_slice())? else {
        return Ok(());
    };
    let file = held.file.as_str();
    put_in_place(report, store, Target { path, file }, new.as_bytes())
}

/// The text of a file with another value in the place of one; none after a fault, which is told.
#[tactic(auto, using(crate::proofs::PutLemmas::stretch_behind_mark, crate::proofs::PutLemmas::has_put_in))]
fn text_with(
    report: &mut Report,
    asked: &Setting,
    bytes: &[u8],
) -> Result<Option<String>, AllocError>
    ensures put { IfOk result (λ found. IfSome found (λ new. HasPut (chars (string_bytes asked.now.value)) (chars bytes.now) (chars (string_bytes new)))) }
    ensures tells { TellsAll report.old → OnOk result (TellsAll report.new) }
{
    let told = asked.told;
    let file = asked.file.as_str();
    let Some(whole) = text_of(report, told, file, bytes)? else {
        return Ok(None);
    };
    let text = behind_mark(whole);
    let named = Named { file, text, told };
    let Some(old) = value_at(report, named, asked.path.as_str())? else {
        return Ok(None);
    };
    let new = put(report.alloc, whole, old, asked.value.as_str())?;
    let text = behind_mark(new.as_str());
    if is_fine(report, Named { file, text, told })? {
        Ok(Some(new))
    } else {
        Ok(None)
    }
}

/// Has a file hold these bytes.
fn put_in_place<S: Store>(
    report: &mut Report,
    store: &mut S,
    target: Target<'_>,
    new: &[u8],
) -> Result<(), AllocError>
    ensures kept { S.told → (old value : List ℕ) → bytes_of (S.stands store.old target.entry.file.now) ≡ Some old
        → HasPut value (chars old) (chars new.now)
        → KeepsAll (HasPut value) (S.stands store.old) (S.stands store.new) }
    ensures tells { TellsAll report.old → OnOk result (TellsAll report.new) }
{
    match replace_file(report.alloc, store, target.file, new) {
        Ok(_) => Ok(()),
        Err(refused) => tell_refused(report, target.path, &refused),
    }
}
