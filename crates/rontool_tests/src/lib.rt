//! Tests of `rontool_files` and `rontool_faults`, of what no clause says. It promises nothing, and no crate stands on it: it
//! is run.
#![tactic(auto)]

#[cfg(test)]
mod faults;
#[cfg(test)]
mod files;
