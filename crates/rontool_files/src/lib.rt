//! Files by path: a store of files as a trait, a file replaced so that it is the old or the new one, whole, and the
//! files that paths and folders name.
//!
//! It promises, of each store that tells what its paths hold: whatever call fails, the file that is replaced holds what
//! it held or the new bytes, and all others stay but for the new file beside it.
#![tactic(auto)]

pub mod disk;
pub mod find;
pub mod glob;
pub mod memory;
pub mod replace;
pub mod store;
