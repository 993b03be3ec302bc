//! Reading values without a schema.
//!
//! It promises the crates above that `read_any` answers what the reader function of values answers, bare or not, within
//! the limit, and that each map in the value has its keys in order.
#![tactic(auto)]

mod entries;
mod form;
mod groups;
mod items;
mod leaves;
mod ranges;
mod somes;
pub mod value;
mod words;
