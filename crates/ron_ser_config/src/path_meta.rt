//! Doc comments, which are written before fields, by the fields' names.

mod compare;
mod copy;
mod field;
mod fields;

pub use field::Field;
pub use fields::Fields;
