//! The names of variants.
ghost use Rattle.std.specs.Prelude.{◌≡◌, ◌<◌, map, length, chars, IfOk, OnOk, IfErr, MatchResult};
ghost use Rattle.std.specs.List.{position};
ghost use Rattle.ron_spec_grammar.specs.Schema.{is_variant};
ghost use Rattle.ron_base.specs.declared.error.Error.TheVariants.{OutOfMemory};
ghost use Rattle.ron_data_schema.specs.Shapes.{variant_view};
ghost use Rattle.ron_lex.specs.Turns.{Moves};
ghost use Rattle.ron_de_steps.specs.Spends.{Nears};
ghost use Rattle.ron_de_parts.specs.Turns.{LeadsOn};
ghost use Rattle.ron_de_parts.specs.Errors.{IsOfReading, IsOfText};
ghost use Rattle.ron_de_parts.specs.Variants.{ReadsVariantName};

use ron_base::error::{Error, Result};
use ron_data::slots::outer_name;
use ron_data_schema::schema::VariantShape;
use ron_de_steps::faults::identifier_error;
use ron_lex::cursor::Cursor;
use ron_lex_text::text::is_same;
use std::alloc::Global;

/// Goes past the name of one of the variants, and answers the variant's index.
pub fn read_variant_name(
    alloc: Global,
    cursor: &mut Cursor<'_>,
    outer: &str,
    variants: &[(String, VariantShape)],
) -> Result<usize>
    ensures text { cursor.new.text ≡ cursor.old.text }
    ensures index { IfOk result (λ index. index < length variants.now) }
    ensures value { ReadsVariantName (map variant_view variants.now) cursor.old.rest result cursor.new.rest }
    ensures shorter { OnOk result (length cursor.new.rest < length cursor.old.rest) }
    ensures fault { IfErr result IsOfReading }
    ensures turns { Moves 1 cursor.old result cursor.new }
    ensures near { OnOk result (Nears cursor.old cursor.new) }
    ensures leads { LeadsOn cursor.old result cursor.new }
{
    let name = match cursor.identifier() {
        Ok(name) => name,
        Err(fault) => return Err(identifier_error(alloc, fault)?),
    };
    let Some(index) = index_of(variants, name) else {
        return Err(unknown_variant(alloc, outer, variants, name)?);
    };
    Ok(index)
}

/// The index of the variant of this name.
fn index_of(variants: &[(String, VariantShape)], name: &str) -> Option<usize>
    ensures { result ≡ position (λ v. is_variant (chars name.now) (variant_view v)) variants.now }
{
    variants
        .iter()
        .position(|variant| is_same(variant.0.as_str(), name))
}

/// What is reported where the enum has no variant of this name.
#[cold]
#[inline(never)]
fn unknown_variant(
    alloc: Global,
    outer: &str,
    variants: &[(String, VariantShape)],
    found: &str,
) -> Result<Error>
    ensures { MatchResult result IsOfText (λ e. e ≡ OutOfMemory) }
{
    let mut expected = Vec::with_capacity(alloc, variants.len())?;
    for variant in variants {
        expected.push(String::from_str(alloc, variant.0.as_str())?)?;
    }
    Ok(Error::NoSuchEnumVariant {
        expected,
        found: String::from_str(alloc, found)?,
        outer: outer_name(alloc, outer)?,
    })
}
