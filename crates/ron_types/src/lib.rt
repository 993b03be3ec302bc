//! Types that tell their schema: how their values become data, and are made of it.
//!
//! It promises the crates above that a type has one schema, that the data of a value is of it and is kept, that it makes
//! an equal value again where the type is `Faithful`, and that want of memory alone is in the way. Whoever writes a type
//! of one's own finds what it owes in `traits.rt` and `faithful.rt`, and its pieces in `rows.rt` and `variants.rt`.
#![tactic(auto)]

pub mod faithful;
pub mod fields;
pub mod items;
pub mod laws;
pub mod refuse;
pub mod rows;
pub mod tables;
pub mod traits;
pub mod types;
pub mod variant_data;
pub mod variant_of;
pub mod variants;
