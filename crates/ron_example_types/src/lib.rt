//! The library in use: callers of `ron`, and types of one's own as patterns.
//!
//! It promises what follows from the public clauses of `ron`, to show that they suffice: `round_trip` and `documented`
//! answer a text that was read back, and each type keeps the law of the traits. Only programs and tests stand on it.
#![tactic(auto)]

pub mod documented;
pub mod point;
pub mod round_trip;
pub mod types;
