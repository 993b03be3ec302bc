//! Variants of enums as data.
ghost use Rattle.std.specs.Prelude.{◌≡◌, chars, string_bytes, IfOk, OnOk, MatchResult};
ghost use Rattle.ron_base.specs.declared.error.Error.TheVariants.{OutOfMemory};
ghost use Rattle.ron_spec_grammar.specs.Data.{datas};
ghost use Rattle.ron_data.specs.Datum.{data_view, no_content, one_of, items_of, named_of};
ghost use Rattle.ron_types.specs.FieldNames.{texts_of};
ghost use Rattle.ron_types.specs.Kinds.{HasVariant, IsOneOf, IsVariantWith, enum_normal, table_of_enum, variant_data, unit, newtype, tuple, named};
ghost use Rattle.ron_types.specs.OfTables.{IsOfOrdered};
ghost use Rattle.ron_types.specs.Rows.{AreNames, named_fields};

use crate::rows::BorrowedRow;
use crate::traits::Serialize;
use crate::variants::Enum;
use ron_base::error::Result;
use ron_data::data::{Data, VariantData};
use std::alloc::Global;

/// A variant that holds nothing, of the enum of this name. Refused by `OutOfMemory` alone, as the others are.
pub fn unit_variant<'a, E: Enum>(alloc: Global, name: &str, variant: &str) -> Result<Data<'a>>
    requires { HasVariant E.variants (chars variant.now) unit }
    ensures value { MatchResult result (λ d. data_view d ≡ variant_data name.now variant.now no_content) (λ e. e ≡ OutOfMemory) }
    ensures accepted { IfOk result (IsOneOf name.now E.variants) }
    ensures kept { OnOk result (enum_normal E.variants (variant_data name.now variant.now no_content)
        ≡ variant_data name.now variant.now no_content) }
    ensures of_schema { OnOk result (IsOfOrdered (table_of_enum name.now E.variants) (variant_data name.now variant.now no_content)) }
{
    let own = Names::copied(alloc, name, variant)?;
    Ok(own.into_variant(VariantData::Unit))
}

/// A variant that holds this value.
pub fn newtype_variant<'a, E: Enum, T: Serialize>(
    alloc: Global,
    name: &str,
    variant: &str,
    value: &'a T,
) -> Result<Data<'a>>
    requires { HasVariant E.variants (chars variant.now) (newtype T.schema_is T.accepts T.normal) }
    ensures value { MatchResult result (λ d. data_view d ≡ variant_data name.now variant.now (one_of (T.data value.now)))
        (λ e. e ≡ OutOfMemory) }
    ensures accepted { IfOk result (IsOneOf name.now E.variants) }
    ensures kept { OnOk result (enum_normal E.variants (variant_data name.now variant.now (one_of (T.data value.now)))
        ≡ variant_data name.now variant.now (one_of (T.data value.now))) }
    ensures of_schema { OnOk result (IsOfOrdered (table_of_enum name.now E.variants)
        (variant_data name.now variant.now (one_of (T.data value.now)))) }
{
    let own = Names::copied(alloc, name, variant)?;
    let held = Box::new(alloc, value.to_data(alloc)?)?;
    Ok(own.into_variant(VariantData::Newtype(held)))
}

/// A variant that holds the values of a row.
pub fn tuple_variant<'a, E: Enum, R: BorrowedRow<'a>>(
    alloc: Global,
    name: &str,
    variant: &str,
    row: R,
) -> Result<Data<'a>>
    requires { HasVariant E.variants (chars variant.now) (tuple R.tables R.accepts R.normals) }
    ensures value { MatchResult result
        (λ d. data_view d ≡ variant_data name.now variant.now (items_of (datas (R.datas row)))) (λ e. e ≡ OutOfMemory) }
    ensures accepted { IfOk result (IsOneOf name.now E.variants) }
    ensures kept { OnOk result (enum_normal E.variants (variant_data name.now variant.now (items_of (datas (R.datas row))))
        ≡ variant_data name.now variant.now (items_of (datas (R.datas row)))) }
    ensures of_schema { OnOk result (IsOfOrdered (table_of_enum name.now E.variants)
        (variant_data name.now variant.now (items_of (datas (R.datas row))))) }
{
    let own = Names::copied(alloc, name, variant)?;
    let items = row.push_items(alloc, Vec::with_capacity(alloc, R::size())?)?;
    Ok(own.into_variant(VariantData::Tuple(items)))
}

/// A variant that holds the values of a row under these names.
pub fn struct_variant<'a, E: Enum, R: BorrowedRow<'a>>(
    alloc: Global,
    name: &str,
    variant: &str,
    names: &[&str],
    row: R,
) -> Result<Data<'a>>
    requires kind { HasVariant E.variants (chars variant.now) (named (texts_of names.now) R.tables R.accepts_named R.normals) }
    requires names { AreNames (texts_of names.now) R.tables }
    ensures value { MatchResult result
        (λ d. data_view d ≡ variant_data name.now variant.now (named_of (named_fields (texts_of names.now) (R.datas row))))
        (λ e. e ≡ OutOfMemory) }
    ensures accepted { IfOk result (IsOneOf name.now E.variants) }
    ensures kept { OnOk result (enum_normal E.variants
        (variant_data name.now variant.now (named_of (named_fields (texts_of names.now) (R.datas row))))
        ≡ variant_data name.now variant.now (named_of (named_fields (texts_of names.now) (R.datas row)))) }
    ensures of_schema { OnOk result (IsOfOrdered (table_of_enum name.now E.variants)
        (variant_data name.now variant.now (named_of (named_fields (texts_of names.now) (R.datas row))))) }
{
    let own = Names::copied(alloc, name, variant)?;
    let fields = row.push_fields(alloc, names, Vec::with_capacity(alloc, names.len())?)?;
    Ok(own.into_variant(VariantData::Struct(fields)))
}

/// The names of an enum and of its variant.
#[derive(Drop)]
struct Names {
    name: String,
    variant: String,
}

impl Names {
    /// Copies of these names.
    fn copied(alloc: Global, name: &str, variant: &str) -> Result<Names>
        ensures { MatchResult result (λ own. (string_bytes own.name ≡ name.now) × (string_bytes own.variant ≡ variant.now))
            (λ e. e ≡ OutOfMemory) }
    {
        let name = String::from_str(alloc, name)?;
        let variant = String::from_str(alloc, variant)?;
        Ok(Names { name, variant })
    }

    /// The variant of these names with this content.
    fn into_variant<'a>(self, content: VariantData<'a>) -> Data<'a>
        ensures { IsVariantWith (chars (string_bytes self.name)) (chars (string_bytes self.variant)) content.entry result }
    {
        let Names { name, variant } = self;
        Data::Variant {
            name,
            variant,
            content,
        }
    }
}
