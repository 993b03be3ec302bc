//! Values without a schema, made into data of one.
//!
//! It promises the crate above that `into_data` answers the data that the definition of the conversion gives; or want
//! of memory; or, where it gives none, the error of the first part that doesn't fit.
#![tactic(auto)]

mod bytes;
mod convert;
mod fields;
mod leaves;
mod places;
mod refuse;

pub use convert::into_data;
