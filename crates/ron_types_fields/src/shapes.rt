//! The shapes of fields, with their aliases.
ghost use Rattle.std.specs.Prelude.{◌≡◌, map, chars, MatchResult};
ghost use Rattle.ron_base.specs.declared.error.Error.TheVariants.{OutOfMemory};
ghost use Rattle.ron_data_schema.specs.Shapes.{field_view, text_view};
ghost use Rattle.ron_types.specs.FieldNames.{texts_of};
ghost use Rattle.ron_types_fields.specs.Names.{name_in};
ghost use Rattle.ron_types_fields.specs.Rows.{field_of};

use ron_base::error::Result;
use ron_data_schema::schema::FieldShape;
use std::alloc::Global;

/// The shape of a field, by its name and aliases, the index of what it holds, and whether a text may leave it out. Refused
/// by `OutOfMemory` alone.
pub(crate) fn shape_of(
    alloc: Global,
    name: &(&str, &[&str]),
    shape: usize,
    may_be_missing: bool,
) -> Result<FieldShape>
    ensures { MatchResult result (λ f. field_view f ≡ field_of (name_in name.now) shape may_be_missing) (λ e. e ≡ OutOfMemory) }
{
    let (own, others) = *name;
    let aliases = copies_of(alloc, others)?;
    Ok(FieldShape {
        name: String::from_str(alloc, own)?,
        aliases,
        shape,
        may_be_missing,
    })
}

/// Copies of the texts.
fn copies_of(alloc: Global, texts: &[&str]) -> Result<Vec<String>>
    ensures { MatchResult result (λ copies. map text_view copies.items ≡ map chars (texts_of texts.now)) (λ e. e ≡ OutOfMemory) }
{
    let mut copies = Vec::with_capacity(alloc, texts.len())?;
    for text in texts {
        copies.push(String::from_str(alloc, text)?)?;
    }
    Ok(copies)
}
