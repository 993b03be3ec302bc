//! What `rontool` does, over any store of files: files of the format are laid out in place and gone over, values in them
//! are told and put, and faults are told with their places.
//!
//! It promises, of each store that tells what its paths hold: whatever happens, a file holds what it held, or under the
//! same permissions a text of the same words and comments, or of one value put in the place of another. All others stay
//! but for a new file beside it.
#![tactic(auto)]

mod ask;
mod checking;
mod diff;
mod formatting;
mod getting;
mod near;
mod opening;
mod rendering;
mod report;
pub mod run;
mod setting;
mod told;
mod words;
