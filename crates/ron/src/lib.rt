//! Rusty Object Notation: reading and writing by a checked schema.
//!
//! What it promises its callers stands in `docs/CONTRACTS.md`, clause by clause: a text is read as the one data that
//! the grammar relates to it within the limit, or refused by an error with a span in it; data is written as its layout,
//! which reads back; want of memory is an error, and nothing panics. `specs/Lib.antt` passes on what these clauses
//! cite, so a caller whose own clauses speak of no `Data` names this crate alone.
#![tactic(auto)]

pub mod de;
pub mod error;
pub mod extensions;
pub mod format;
pub mod laws;
pub mod options;
pub mod raw;
pub mod schema;
pub mod ser;
pub mod types;
pub mod value;

pub use crate::de::{Deserializer, from_str};
pub use crate::error::{Error, Result};
pub use crate::options::Options;
pub use crate::ser::{Serializer, to_string};
pub use crate::value::{Map, Number, Value};
