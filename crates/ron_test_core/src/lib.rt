//! Tests of the crates below `ron`, of what neither a clause nor a row of `ron_test_rows` says, and that calls which no row
//! reaches find memory where there is some. It promises nothing, and no crate stands on it: it is run.
//!
//! They stand in a crate of their own, since the gate proves a crate once more for its tests, and beside those of
//! `ron`, so that they wait for no reader.
#![tactic(auto)]

#[cfg(test)]
mod base;
#[cfg(test)]
mod config;
#[cfg(test)]
mod data;
#[cfg(test)]
mod path_meta;
#[cfg(test)]
mod raw;
#[cfg(test)]
mod ser;
#[cfg(test)]
mod types;
#[cfg(test)]
mod value;
