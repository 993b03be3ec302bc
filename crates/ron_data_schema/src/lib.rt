//! Schemas: tables of shapes, which of them are well formed, and how one is put behind another.
//!
//! It promises the crates above that a `Schema` is well formed, so that from an option or a newtype to its content the
//! chain gets shorter (`falls`), by which reading ends; and that shapes put behind others keep their meaning, with
//! their indices moved (`import`).
#![tactic(auto)]

pub mod schema;
