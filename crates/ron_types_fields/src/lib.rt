//! Structs as configurations have them: fields that may be left out, that have a default or further names, and structs
//! that skip unknown fields.
//!
//! It promises the crates above what `ron_types` promises of its structs: one schema, data of it that makes an equal value
//! again, and that want of memory alone is in the way. A type of one's own finds its calls in `fields.rt`, and of what a
//! row of fields is made in `field_types.rt`.
#![tactic(auto)]

pub mod field_types;
pub mod fields;
pub mod laws;
pub mod newtypes;
pub mod rows;
mod shapes;
mod taken;
pub mod tuple_structs;
pub mod unit_structs;
