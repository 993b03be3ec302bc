//! Writing data.
//!
//! It promises the crate above that the text is the layout's, by the configuration and under the extensions that it is
//! given, in a writer, a `String` or a sink; and after an error that a beginning of it was put, and whether the data is
//! refused or a put failed.
#![tactic(auto)]

mod around;
mod container;
mod docs;
mod escapes;
pub mod head;
mod layout;
mod leaves;
pub mod lines;
mod names;
pub mod put;
pub mod quoted;
mod ranges;
mod refusal;
pub mod settings;
pub mod sink;
mod somes;
pub mod text;
mod unescaped;
mod value;
mod values;
mod writing;
