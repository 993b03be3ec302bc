//! Raw texts: values that are kept as they are written, and reading them.
//!
//! It promises the crates above that a `RawValue` is a value by itself, by the type's invariant, and that `read_raw`
//! answers what the reader function of raw texts answers.
#![tactic(auto)]

mod alone;
pub mod raw;
pub mod reading;
mod stretch;
