//! Untyped values and maps of them, with one order of all values.
//!
//! It promises the crates above that this order is total (`values_are_ordered`), that an ordered map's keys ascend
//! (`ordered_maps_ascend`), and of each call of an ordered map all its entries afterwards.
#![tactic(auto)]

mod compare;
mod copy;
mod hash;
mod laws;
pub mod map;
pub mod value;

pub use laws::{ordered_maps_ascend, values_are_ordered};
pub use map::Map;
pub use map::walk::{IntoIter, Iter, Keys, Values};
pub use ron_value_number::Number;
