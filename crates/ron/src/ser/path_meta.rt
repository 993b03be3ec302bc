//! Doc comments by the names of fields.
pub use ron_ser_config::path_meta::{Field, Fields};
