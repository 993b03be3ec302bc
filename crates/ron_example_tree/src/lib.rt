//! A type that holds itself: a tree of numbers, with its schema written by hand.
#![tactic(auto)]

pub mod tree;
mod tree_fields;
