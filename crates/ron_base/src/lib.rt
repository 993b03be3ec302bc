//! What every crate above speaks of: errors with their messages, places in a text, names, escapes, extensions and the
//! limit on depth.
//!
//! It promises them each error's exact message, the line and column of a place by their definition, which names can be
//! spelled and how, sets of extensions as sets, and the limit one level deeper.
#![tactic(auto)]

pub mod error;
pub mod escape;
pub mod extensions;
mod laws;
pub mod limit;
pub mod name;

pub use laws::{extensions_are_ordered, positions_are_ordered};
