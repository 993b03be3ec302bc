//! Texts by their characters: pieces of a text, classes of characters and their runs, searches, and what is read of
//! strings.
//!
//! It promises the crates above each call by the list of characters, and that a cut is at the end of a part: no other
//! crate cuts a text by bytes.
#![tactic(auto)]

pub mod parsed;
pub mod search;
pub mod text;
