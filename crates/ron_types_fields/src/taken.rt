//! Fields of data, taken one by one from the front.
ghost use Rattle.std.specs.Prelude.{◌≡◌, chars, IfErr, MatchResult};
ghost use Rattle.ron_base.specs.declared.error.Error.TheVariants.{OutOfMemory};
ghost use Rattle.ron_types.specs.Faults.{IsRefusal};
ghost use Rattle.ron_types_fields.specs.Names.{names_in};
ghost use Rattle.ron_types_fields.specs.Spelled.{front_of, behind_of, is_called_first, NoneSpelled};

use ron_base::error::Result;
use ron_data::data::Data;
use ron_lex_text::text::is_same;
use ron_types::refuse::{missing_field, unexpected_field};
use std::alloc::Global;
use std::collections::VecDeque;

/// Takes the first field, where it has this name.
pub(crate) fn take_called<'de>(
    name: &str,
    fields: &mut VecDeque<(String, Data<'de>)>,
) -> Option<Data<'de>>
    ensures taken { result ≡ front_of (chars name.now) fields.old.items }
    ensures left { fields.new.items ≡ behind_of (chars name.now) fields.old.items }
{
    if !is_called(name, fields) {
        return None;
    }
    let (_, held) = fields.pop_front()?;
    Some(held)
}

/// Whether the first field has this name.
fn is_called(name: &str, fields: &VecDeque<(String, Data)>) -> bool
    ensures { result ≡ is_called_first (chars name.now) fields.now.items }
{
    match fields.front() {
        Some((found, _)) => is_same(found.as_str(), name),
        None => false,
    }
}

/// That there are neither names nor fields left.
pub(crate) fn no_further(
    alloc: Global,
    names: &[(&str, &[&str])],
    fields: VecDeque<(String, Data)>,
) -> Result<()>
    ensures accepted { MatchResult result (λ _. NoneSpelled (names_in names.now) fields.entry.items)
        (λ e. NoneSpelled (names_in names.now) fields.entry.items → e ≡ OutOfMemory) }
    ensures refused { IfErr result IsRefusal }
{
    if let Some(name) = names.first() {
        return Err(missing_field(alloc, name.0));
    }
    if fields.is_empty() {
        return Ok(());
    }
    Err(unexpected_field(alloc))
}
