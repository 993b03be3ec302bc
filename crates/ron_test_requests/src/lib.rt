//! The parts of requests and of answers in JSON: schemas, data, values, raw texts, errors and configurations.
//!
//! It promises `ron_test_rows` that a schema's root is the one asked for, and that a refusal tells no more than it is asked;
//! the rest is shown by the stored run of `ron_test_rows`.
//!
//! A new shape is an arm in `shape_of` (`schema.rt`), one in a function below `data_of` (`data.rt`), and arms in
//! `kind_of` and `push_parts` (`shown/data.rt`).
#![tactic(auto)]

pub mod config;
pub mod data;
pub mod error;
pub mod extensions;
pub mod json;
pub mod raw;
pub mod refusal;
pub mod schema;
pub mod shown;
pub mod untyped;
