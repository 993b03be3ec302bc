//! The words of a text: a cursor that hands out slices of the source, gaps with comments, identifiers, fixed words,
//! integers and ranges of them, char and byte literals, strings and byte strings.
//!
//! It promises the crates above that each call of the cursor takes the longest word at its place and answers its
//! meaning, or refuses by a fault that takes no memory; the gap directly before the place, where the last word began,
//! and a span; and how many bytes it counts. Readers go over a text by these calls. What `ron_de_raw` walks besides it
//! counts on the cursor, and what is handed out as a slice counts once more, for who keeps it.
#![tactic(auto)]

pub mod any_integer;
mod byte_string;
mod character;
mod content;
pub mod cursor;
mod escape;
pub mod fault;
pub mod gap;
pub mod identifier;
pub mod interval;
pub mod kinds;
mod lookahead;
pub mod numeral;
mod plain;
mod raw;
mod searches;
mod string;
pub mod token;
mod turns;
pub mod untyped;
mod word;
