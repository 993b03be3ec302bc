//! The program over any store of files.
ghost use Rattle.std.specs.Prelude.{IfOk};
ghost use Rattle.rontool_command.specs.Kept.{KeepsText};
ghost use Rattle.rontool_command.specs.Told.{TellsAll};

use crate::ask::{Asked, read_words};
use crate::checking::check_all;
use crate::formatting::format_all;
use crate::getting::get_value;
use crate::rendering::render;
pub use crate::report::Report;
use crate::setting::set_value;
use rontool_files::store::Store;
use std::alloc::{AllocError, Global};
use std::io::Read;

/// Runs the program with these words, its own name left out, over a store of files and standard input. It fails where no
/// memory is found. Status 0 says that nothing went wrong, and nothing is told then on standard error. Whatever happens, a
/// file holds what it held, or under the same permissions a text of the same words and comments, or of one value put in
/// the place of another; all others stay, but for a new file beside it.
#[tactic(auto, using(crate::proofs::KeptLemmas::text_relaid, crate::proofs::KeptLemmas::text_put, crate::proofs::KeptLemmas::text_same))]
pub fn run<S: Store, R: Read>(
    alloc: Global,
    words: &[String],
    store: &mut S,
    input: &mut R,
) -> Result<Report, AllocError>
    ensures tells { IfOk result TellsAll }
    ensures kept { S.told → KeepsText (S.stands store.old) (S.stands store.new) }
{
    match read_words(alloc, words) {
        Ok(Asked::Format(wanted)) => format_all(alloc, &wanted, store, input),
        Ok(Asked::Check(wanted)) => check_all(alloc, &wanted, store, input),
        Ok(Asked::Get(wanted)) => get_value(alloc, &wanted, store, input),
        Ok(Asked::Set(wanted)) => set_value(alloc, &wanted, store),
        Ok(Asked::Json(wanted)) => render(alloc, &wanted, store, input),
        Ok(Asked::Nothing) => Ok(Report::new(alloc)),
        Err(error) => explain(alloc, &error),
    }
}

/// What is said of words that ask for nothing, or for help.
fn explain(alloc: Global, error: &clap::Error) -> Result<Report, AllocError>
    ensures { IfOk result TellsAll }
{
    let mut report = Report::new(alloc);
    let text = format!(in alloc; "{error}")?;
    if error.use_stderr() {
        report.raise(2);
        report.faults.push_str(text.as_str())?;
    } else {
        report.output.push_str(text.as_str())?;
    }
    Ok(report)
}
