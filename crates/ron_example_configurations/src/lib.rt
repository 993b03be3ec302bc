//! Types as configurations have them: fields that may be left out, defaults, and aliases.
//!
//! It promises that each type here keeps the law of the traits, to show how such types are written. Only tests stand on it.
#![tactic(auto)]

pub mod assets;
pub mod settings;
