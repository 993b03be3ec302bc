//! What a text is laid out by: the configuration of writing, and doc comments of fields.
//!
//! It promises the crates above what each configuration is (`config_view`), that a setter changes its field alone, and
//! of each call of fields the whole of them afterwards.
#![tactic(auto)]

pub mod config;
mod laws;
pub mod path_meta;

pub use laws::equal_fields_are_the_same;
