//! Data, by schemas.
//!
//! It promises the crates above that the order of data is total and calls equal what the grammar does, that
//! `fold_pairs` keeps each key once as the grammar does, that `Slots` gives the fields in the schema's order, and that
//! `into_owned` is equal data which borrows nothing.
#![tactic(auto)]

pub mod any_value;
pub mod data;
pub mod kinds;
mod laws;
mod order;
pub mod owned;
pub mod pairs;
pub mod slots;

pub use laws::equal_data_are_the_same;
