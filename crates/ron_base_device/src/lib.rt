//! Devices: what gives bytes, what takes bytes, and what text is put into.
//!
//! It promises the crates above that all that a source has left comes out of it, and all of a piece, or a beginning of
//! it, goes into a sink; that an output keeps the first fault and leaves its writer alone from then on; and that bytes
//! which are no UTF-8 are told with the end of their valid front.
#![tactic(auto)]

pub mod adapters;
pub mod gathered;
pub mod output;
pub mod puts;
pub mod sink;
pub mod source;
pub mod utf8;
