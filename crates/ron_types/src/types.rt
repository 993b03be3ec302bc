//! The types of std, values without a schema, and raw texts.

mod compound_keys;
mod faithful;
mod keys;
mod leaves;
mod lists;
mod maps;
mod numbers;
mod options;
mod texts;
mod tuples;
mod values;
mod widths;

pub use texts::borrowed_text;
