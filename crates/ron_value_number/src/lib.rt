//! Numbers: integers with their widths.
//!
//! It promises the crates above which values fit a width, the smallest width that holds a value, and one total order of
//! numbers (`numbers_are_ordered`).
#![tactic(auto)]

mod convert;
pub mod number;
pub mod width;
pub mod written;

pub use number::{Number, number_in};
pub use width::Width;
