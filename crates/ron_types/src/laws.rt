//! Laws of types: which refuse no data of their schemas, all but `&str`; and that values are told by their data.
//!
//! They are for whoever proves that a type of one's own is made of all data of its schema: of leaves outright, of types
//! that hold others where those refuse none. No code calls them, and their bodies are empty.

pub mod enums;
pub mod faithful;
pub mod leaves;
pub mod parts;
pub mod refusals;
pub mod rows;
