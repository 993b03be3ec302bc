//! Errors, and the places in a text where they stand.
pub use ron_base::error::{
    Error, EscapeFault, Position, Result, SchemaFault, Span, SpannedError, SpannedResult,
};
