//! Types that Rust's world has and `ron_types` doesn't give a schema: bytes, the ranges, and raw texts that own their
//! text.
//!
//! It promises that they keep the law of the traits and are told by their data, a range over every type that does.
#![tactic(auto)]

pub mod bytes;
pub mod range;
pub mod range_from;
pub mod range_full;
pub mod range_inclusive;
pub mod range_to;
pub mod range_to_inclusive;
pub mod raw_texts;
