//! Passes of reading and of writing types, by the calls that take them.
ghost use Rattle.std.specs.Prelude.{⊤};

use crate::passes::{BenchFault, Pass, Timed, ended, passes};
use ron::schema::{Deserialize, Serialize};
use ron::{from_str, to_string};
use ron_example_types::types::point::Point;
use ron_example_types::types::shape::Shape;
use ron_example_types::types::window::Window;
use std::alloc::Global;
use std::collections::BTreeMap;
use std::time::{Clock, Duration, Instant};

/// Which type a text is read as.
#[derive(Clone, Copy)]
pub enum Kind {
    /// A list of names with two numbers.
    Pairs,
    /// A map from names to lists of numbers.
    Lists,
    /// A window, a few shapes and some named points: some 300 bytes.
    Configuration,
}

type Pairs = Vec<(String, (u32, i64))>;

type Lists = BTreeMap<String, Vec<u32>>;

type Configuration = (Window, Vec<Shape>, BTreeMap<String, Point>);

/// Whether what was read is written as the text, and the quickest pass of reading and of writing.
#[derive(Clone, Copy)]
pub struct TypeFindings {
    pub is_same: bool,
    pub read: Duration,
    pub write: Duration,
}

/// A text, and how often it is read and written.
#[derive(Clone, Copy)]
pub struct Repeated<'t> {
    pub text: &'t str,
    pub count: u32,
}

/// Reads the text as this type, and writes what was read, as often as is asked.
pub fn measured_as<C: Clock>(
    alloc: Global,
    clock: &C,
    kind: Kind,
    repeated: Repeated,
) -> Result<TypeFindings, BenchFault> {
    match kind {
        Kind::Pairs => measured::<Pairs, C>(alloc, clock, repeated),
        Kind::Lists => measured::<Lists, C>(alloc, clock, repeated),
        Kind::Configuration => measured::<Configuration, C>(alloc, clock, repeated),
    }
}

fn measured<'t, T: Deserialize<'t> + Serialize, C: Clock>(
    alloc: Global,
    clock: &C,
    repeated: Repeated<'t>,
) -> Result<TypeFindings, BenchFault> {
    let reading = TypeReading {
        text: repeated.text,
    };
    let read: Timed<T> = passes(alloc, clock, &reading, repeated.count)?;
    let least = read.least;
    let writing = TypeWriting { value: &read.made };
    let written = passes(alloc, clock, &writing, repeated.count);
    drop(read);
    let Timed { made, least: write } = written?;
    Ok(TypeFindings {
        is_same: made.as_str() == repeated.text,
        read: least,
        write,
    })
}

/// Reading a text as a type. What is made of it the contract of `from_str` says.
#[derive(Clone, Copy)]
struct TypeReading<'t> {
    text: &'t str,
}

impl<'t, T: Deserialize<'t>> Pass<T> for TypeReading<'t> {
    ghost makes = { λ _ _. ⊤ };

    fn once<C: Clock>(&self, alloc: Global, clock: &C) -> Result<Timed<T>, BenchFault> {
        let start = Instant::now(clock).map_err(BenchFault::Outside)?;
        let made = from_str::<T>(alloc, self.text);
        ended(clock, start, made.map_err(BenchFault::Text))
    }
}

/// Writing a value of a type, compact.
#[derive(Clone, Copy)]
pub struct TypeWriting<'v, T> {
    pub value: &'v T,
}

impl<T: Serialize> Pass<String> for TypeWriting<'_, T> {
    ghost makes = { λ _ _. ⊤ };

    fn once<C: Clock>(&self, alloc: Global, clock: &C) -> Result<Timed<String>, BenchFault> {
        let start = Instant::now(clock).map_err(BenchFault::Outside)?;
        let made = to_string(alloc, self.value);
        ended(clock, start, made.map_err(BenchFault::Data))
    }
}
