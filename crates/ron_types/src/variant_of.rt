//! What variants of enums hold, of data.
ghost use Rattle.std.specs.Prelude.{◌≡◌, ◌<◌, length, chars, IfOk, IfErr, IfSome, MatchOption, MatchResult};
ghost use Rattle.ron_base.specs.declared.error.Error.TheVariants.{OutOfMemory};
ghost use Rattle.ron_spec_grammar.specs.Data.{datas};
ghost use Rattle.ron_data.specs.Datum.{data_view, no_content, one_of, items_of, named_of};
ghost use Rattle.ron_types.specs.Faults.{IsRefusal, OwnOr, PartOr, NoPart};
ghost use Rattle.ron_types.specs.FieldNames.{texts_of};
ghost use Rattle.ron_types.specs.Kinds.{HasVariantAt, IsOneOf, EachAt, IsVariantAt, IsFirst, IsNone};
ghost use Rattle.ron_types.specs.Kinds.{enum_normal, variant_data, name_at, names_in, unit, newtype, tuple, named};
ghost use Rattle.ron_types.specs.Rows.{named_fields};

use crate::items::row_of;
use crate::refuse::{another_content, another_kind, another_name, no_variant};
use crate::rows::FromRow;
use crate::traits::Deserialize;
use crate::variants::Enum;
use ron_base::error::Result;
use ron_data::data::{Data, VariantData};
use ron_lex_text::text::is_same;
use std::alloc::Global;

/// Which of these variants of the enum of this name the data is, by its place among them, and what it holds. Refused by
/// `InvalidValueForType` where it is no variant, by `ExpectedDifferentStructName` where it is one of another enum, by
/// `NoSuchEnumVariant` where it is none of these, or by `OutOfMemory`.
pub fn variant_of<'de, E: Enum>(
    alloc: Global,
    name: &str,
    variants: &[&str],
    from: Data<'de>,
) -> Result<(usize, VariantData<'de>)>
    requires { texts_of variants.now ≡ names_in E.variants }
    ensures found { IfOk result (λ r. IsVariantAt name.now (names_in E.variants) r.0 r.1 from.entry) }
    ensures below { IfOk result (λ r. r.0 < length variants.now) }
    ensures accepted { IfErr result (λ e. IsOneOf name.now E.variants from.entry → e ≡ OutOfMemory) }
    ensures refused { IfErr result IsRefusal }
{
    match from {
        Data::Variant {
            name: found,
            variant,
            content,
        } => {
            if !is_same(found.as_str(), name) {
                return Err(another_name(alloc, name, found.as_str()));
            }
            match place_of(variants, variant.as_str()) {
                Some(place) => Ok((place, content)),
                None => Err(no_variant(alloc, variants, variant.as_str())),
            }
        }
        other => Err(another_kind(alloc, "an enum", other)),
    }
}

/// Nothing, where the variant at this place holds nothing. Other content is refused by `InvalidValueForType`, or
/// `OutOfMemory`; so likewise below, and what is held as its type refuses it.
pub fn unit_in<'de, E: Enum>(alloc: Global, place: usize, content: VariantData<'de>) -> Result<()>
    requires { HasVariantAt E.variants place unit }
    ensures value { EachAt E.variants place content.entry (λ name d.
        IfOk result (λ _. variant_data name (name_at E.variants place) no_content ≡ enum_normal E.variants (data_view d))) }
    ensures accepted { EachAt E.variants place content.entry (λ name d.
        MatchResult result (λ _. IsOneOf name E.variants d) (λ e. IsOneOf name E.variants d → e ≡ OutOfMemory)) }
    ensures refused { IfErr result IsRefusal }
{
    match content {
        VariantData::Unit => Ok(()),
        other => Err(another_content(alloc, "a unit variant", other)),
    }
}

/// The value that the variant at this place holds.
pub fn newtype_in<'de, E: Enum, T: Deserialize<'de>>(
    alloc: Global,
    place: usize,
    content: VariantData<'de>,
) -> Result<T>
    requires { HasVariantAt E.variants place (newtype T.schema_is T.accepts T.normal) }
    ensures value { EachAt E.variants place content.entry (λ name d.
        IfOk result (λ x. variant_data name (name_at E.variants place) (one_of (T.data x)) ≡ enum_normal E.variants (data_view d))) }
    ensures accepted { EachAt E.variants place content.entry (λ name d.
        MatchResult result (λ _. IsOneOf name E.variants d) (λ e. IsOneOf name E.variants d → e ≡ OutOfMemory)) }
    ensures refused { IfErr result (OwnOr (PartOr T.refuses NoPart)) }
{
    match content {
        VariantData::Newtype(held) => T::from_data(alloc, Box::into_inner(held)),
        other => Err(another_content(alloc, "a newtype variant", other)),
    }
}

/// The values in a row that the variant at this place holds.
pub fn tuple_in<'de, E: Enum, R: FromRow<'de>>(
    alloc: Global,
    place: usize,
    content: VariantData<'de>,
) -> Result<R>
    requires { HasVariantAt E.variants place (tuple R.tables R.accepts R.normals) }
    ensures value { EachAt E.variants place content.entry (λ name d.
        IfOk result (λ r. variant_data name (name_at E.variants place) (items_of (datas (R.datas r)))
        ≡ enum_normal E.variants (data_view d))) }
    ensures accepted { EachAt E.variants place content.entry (λ name d.
        MatchResult result (λ _. IsOneOf name E.variants d) (λ e. IsOneOf name E.variants d → e ≡ OutOfMemory)) }
    ensures refused { IfErr result (OwnOr R.refuses) }
{
    match content {
        VariantData::Tuple(items) => row_of(alloc, items),
        other => Err(another_content(alloc, "a tuple variant", other)),
    }
}

/// The values in a row that the variant at this place holds under these names.
pub fn fields_in<'de, E: Enum, R: FromRow<'de>>(
    alloc: Global,
    place: usize,
    names: &[&str],
    content: VariantData<'de>,
) -> Result<R>
    requires { HasVariantAt E.variants place (named (texts_of names.now) R.tables R.accepts_named R.normals) }
    ensures value { EachAt E.variants place content.entry (λ name d.
        IfOk result (λ r. variant_data name (name_at E.variants place) (named_of (named_fields (texts_of names.now) (R.datas r)))
        ≡ enum_normal E.variants (data_view d))) }
    ensures accepted { EachAt E.variants place content.entry (λ name d.
        MatchResult result (λ _. IsOneOf name E.variants d) (λ e. IsOneOf name E.variants d → e ≡ OutOfMemory)) }
    ensures refused { IfErr result (OwnOr R.refuses) }
{
    match content {
        VariantData::Struct(fields) => R::from_fields(alloc, names, fields.into_iter()),
        other => Err(another_content(alloc, "a struct variant", other)),
    }
}

/// The place of the first of the names that is this one.
fn place_of(names: &[&str], name: &str) -> Option<usize>
    ensures first { MatchOption result (IsNone (texts_of names.now) (chars name.now))
        (λ i. IsFirst (texts_of names.now) i (chars name.now)) }
    ensures below { IfSome result (λ i. i < length names.now) }
{
    let (first, others) = names.split_first()?;
    if is_same(first, name) {
        return Some(0);
    }
    let place = place_of(others, name)?;
    Some(place + 1)
}
