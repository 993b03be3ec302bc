//! Whether a text is one of the grammar, by its words: floats are words like all others, and no schema is asked for.
//!
//! It promises that it ends and is safe. What it finds is tested.
#![tactic(auto)]

mod found;
mod frame;
mod scalar;
mod walk;
mod warning;

pub use found::{Found, check};
pub use warning::{Warned, Warning};
