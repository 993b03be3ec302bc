//! What every reader does: what it hands on, gaps, the marks between values, and what it reports of the faults of
//! words.
//!
//! It promises the crates above that each step goes where its definition leads, and is refused exactly where that leads
//! nowhere; what every call of reading does (`Advances`); and how counts of turns compose (`Spends`).
#![tactic(auto)]

pub mod attributes;
pub mod context;
pub mod faults;
pub mod gap;
pub mod steps;
pub mod strings;
