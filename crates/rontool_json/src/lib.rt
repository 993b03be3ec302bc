//! A text's value as JSON, by its words: floats keep their digits, and no schema is asked for.
//!
//! It promises that what it answers is a text of JSON.
#![tactic(auto)]

mod frame;
pub mod json;
mod scalar;
mod walk;

pub use json::{Refusal, Unfit, Why, to_json};
