//! Reading by a schema.
//!
//! It promises the crate above that `read_value`, and `read_here` where the cursor stands, answer what the reader
//! function answers, within the limit; which strings are slices of the text; and what reading goes over. It is one
//! cycle of functions, and so has no must-fail edits: those stand in `ron_de_parts`.
#![tactic(auto)]

mod bare;
mod content;
mod elements;
mod enums;
pub mod first;
mod lists;
mod maps;
mod newtypes;
mod options;
mod structs;
mod tuples;
pub mod value;
