//! Pieces of which types of one's own are made: rows of types, structs, tuples and enums over them, schemas put together
//! from those of parts, and refusals of data. Structs as configurations have them are made of rows of fields; newtypes,
//! tuple structs and unit structs have three calls each. Bytes, the ranges and raw texts that own their text are types.
pub use ron_types::faithful::{FaithfulParts, PartClaims};
pub use ron_types::fields::{field_shape, from_struct, struct_data, struct_schema};
pub use ron_types::items::{from_tuple, tuple_data, tuple_schema};
pub use ron_types::refuse::{
    Lengths, another_kind, another_length, another_name, another_width, missing_field,
    unexpected_field,
};
pub use ron_types::rows::{BorrowedRow, FromRow, Row};
pub use ron_types::tables::{Parts, leaf};
pub use ron_types::types::borrowed_text;
pub use ron_types::variant_data::{newtype_variant, struct_variant, tuple_variant, unit_variant};
pub use ron_types::variant_of::{fields_in, newtype_in, tuple_in, unit_in, variant_of};
pub use ron_types::variants::{Enum, Variants};
pub use ron_types_fields::field_types::{
    DefaultOf, FieldFromData, FieldToData, FieldType, May, Must, Or, OrNone, TheNone,
};
pub use ron_types_fields::fields::{fields_data, fields_schema, from_fields};
pub use ron_types_fields::newtypes::{from_newtype, newtype_data, newtype_schema};
pub use ron_types_fields::rows::{FieldNames, FieldRow, FieldsFromData, FieldsToData, Others};
pub use ron_types_fields::tuple_structs::{
    from_tuple_struct, tuple_struct_data, tuple_struct_schema,
};
pub use ron_types_fields::unit_structs::{from_unit_struct, unit_struct_data, unit_struct_schema};
pub use ron_types_more::bytes::Bytes;
pub use ron_types_more::range::Range;
pub use ron_types_more::range_from::RangeFrom;
pub use ron_types_more::range_full::RangeFull;
pub use ron_types_more::range_inclusive::RangeInclusive;
pub use ron_types_more::range_to::RangeTo;
pub use ron_types_more::range_to_inclusive::RangeToInclusive;
pub use ron_types_more::raw_texts::OwnedRaw;
