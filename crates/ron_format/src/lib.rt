//! A text laid out anew: what stands between its words changes, and last commas come and go; each word and each comment
//! stays.
//!
//! It promises the crates above that a text and what is made of it have the same words and the same comments.
#![tactic(auto)]

mod brackets;
mod broken;
mod cut;
pub mod document;
mod edge;
mod flat;
mod formatting;
mod gap;
mod grant;
mod laying;
pub mod layout;
mod place;
mod plan;
mod refusal;
mod widths;
mod wish;
mod word;

pub use formatting::{format, is_formatted};
pub use refusal::Refusal;
