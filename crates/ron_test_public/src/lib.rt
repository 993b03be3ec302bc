//! Tests of `ron` and of its callers, of what neither a clause nor a row of `ron_test_rows` says; those of the crates below
//! are in `ron_test_core`. It promises nothing, and no crate stands on it: it is run.
#![tactic(auto)]

#[cfg(test)]
mod command;
#[cfg(test)]
mod configurations;
#[cfg(test)]
mod devices;
#[cfg(test)]
mod failing;
#[cfg(test)]
mod options;
#[cfg(test)]
mod refusals;
#[cfg(test)]
mod serializer;
#[cfg(test)]
mod types;
#[cfg(test)]
mod uses;
