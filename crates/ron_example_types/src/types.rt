//! Types of one's own: patterns for structs and enums, each with what its proofs need.
pub mod borrowed;
pub mod point;
pub mod shape;
pub mod window;
