//! Values at paths: the stretch of a text in which one stands, and another value put in its place.
//!
//! It promises that what is found is a stretch of the text, and that putting another value there changes that alone.
#![tactic(auto)]

pub mod find;
pub mod float;
pub mod place;
pub mod put;
pub mod value;
pub mod word;
