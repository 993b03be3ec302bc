//! Schemas and the data that they govern.
pub use ron_data::any_value::AnyValue;
pub use ron_data::data::{Data, VariantData};
pub use ron_data_schema::schema::{FieldList, FieldShape, Schema, Shape, VariantShape, Width};
pub use ron_lex_text::parsed::{ParsedByteStr, ParsedStr};
pub use ron_types::faithful::{Faithful, made_again};
pub use ron_types::traits::{Deserialize, MapKey, Schematic, Serialize};
