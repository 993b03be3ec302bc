//! Reading by a schema what holds no other data: leaves, names, values without a schema and raw texts, and what stands
//! around data in data.
//!
//! It promises the reading cycle above (`ron_de`) that each call answers what the reader function answers of its part,
//! wherever in the table the shape stands, and that a name of a struct, a field or a variant is gone past where it is
//! that one.
#![tactic(auto)]

pub mod bytes;
pub mod content;
pub mod context;
pub mod fields;
mod kept;
pub mod leaves;
pub mod names;
pub mod options;
mod range_faults;
pub mod ranges;
pub mod raw;
pub mod tuples;
pub mod untyped;
pub mod variants;
