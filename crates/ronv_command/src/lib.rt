//! What `ronv` does, over any three streams: a text of the format is read and written anew.
#![tactic(auto)]

pub mod command;
pub mod flags;
mod point;
pub mod run;
