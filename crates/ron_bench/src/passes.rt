//! Passes of reading, of writing, of reading without a schema and of conversion, each timed on its own.
ghost use Rattle.std.specs.Prelude.{◌≡◌, chars, string_bytes, Ok, Some, IfOk};
ghost use Rattle.ron.specs.Whole.{DocumentWithin};
ghost use Rattle.ron.specs.Layout.{full_layout};
ghost use Rattle.ron.specs.Table.{shapes_of, root_of, table_of};
ghost use Rattle.ron.specs.Conversion.{into};
ghost use Rattle.ron.specs.Datum.{data_view};
ghost use Rattle.ron.specs.Extensions.{no_extensions};
ghost use Rattle.ron.specs.ValueText.{IsValueDocument};
ghost use Rattle.ron.specs.ValueView.{tree_of};
ghost use Rattle.ron_bench.specs.Layout.{configuration};

use crate::layout::Layout;
use ron::error::{Error, SpannedError};
use ron::options::Options;
use ron::schema::{Data, Schema};
use ron::value::{Value, from_str};
use ron_data_convert::into_data;
use std::alloc::Global;
use std::io;
use std::time::{Clock, Duration, Instant};

/// Why a pass fails.
#[derive(Drop)]
pub enum BenchFault {
    /// A stream or the clock that fails, or input that isn't UTF-8.
    Outside(io::Error),
    /// A text that doesn't read.
    Text(SpannedError),
    /// A schema that isn't one, or data that can't be written.
    Data(Error),
}

/// What the passes made, and how long the quickest of them took. Letting go of what a pass made isn't timed.
#[derive(Drop)]
pub struct Timed<T> {
    pub made: T,
    pub least: Duration,
}

/// What is done in a pass.
pub trait Pass<T: Drop> {
    /// What it makes.
    ghost makes: { Self → T → Type 0 };

    /// Does it once.
    fn once<C: Clock>(&self, alloc: Global, clock: &C) -> Result<Timed<T>, BenchFault>
        ensures made { IfOk result (λ t. makes self.now t.made) };
}

/// Makes one pass, and then others until `count` were made.
pub fn passes<T: Drop, P: Pass<T>, C: Clock>(
    alloc: Global,
    clock: &C,
    pass: &P,
    count: u32,
) -> Result<Timed<T>, BenchFault>
    ensures made { IfOk result (λ t. P.makes pass.now t.made) }
{
    let first = pass.once(alloc, clock)?;
    let mut least = first.least;
    for _ in 1..count {
        let again = pass.once(alloc, clock)?;
        least = least.min(again.least);
    }
    Ok(Timed {
        made: first.made,
        least,
    })
}

/// What was made since the start, and how long that took.
pub fn ended<T: Drop, C: Clock>(
    clock: &C,
    start: Instant,
    made: Result<T, BenchFault>,
) -> Result<Timed<T>, BenchFault>
    ensures made { IfOk result (λ t. made ≡ Ok t.made) }
{
    let least = start.elapsed(clock).map_err(BenchFault::Outside)?;
    Ok(Timed { made: made?, least })
}

/// Reading a text by a schema.
#[derive(Clone, Copy)]
pub struct Reading<'t, 's> {
    pub text: &'t str,
    pub schema: &'s Schema,
}

impl<'t> Pass<Data<'t>> for Reading<'t, '_> {
    ghost makes = { λ p d. DocumentWithin no_extensions (Some 128) (table_of p.schema.now) (chars p.text.now) (data_view d) };

    fn once<C: Clock>(&self, alloc: Global, clock: &C) -> Result<Timed<Data<'t>>, BenchFault> {
        let options = Options::default();
        let start = Instant::now(clock).map_err(BenchFault::Outside)?;
        let made = options.from_str_seed(alloc, self.text, self.schema);
        ended(clock, start, made.map_err(BenchFault::Text))
    }
}

/// Writing data in a layout.
#[derive(Clone, Copy)]
pub struct Writing<'t, 'd> {
    pub data: &'t Data<'d>,
    pub layout: Layout,
}

impl Pass<String> for Writing<'_, '_> {
    ghost makes = { λ p t. chars (string_bytes t) ≡ full_layout no_extensions (configuration p.layout) (data_view p.data.now) };

    fn once<C: Clock>(&self, alloc: Global, clock: &C) -> Result<Timed<String>, BenchFault> {
        let options = Options::default();
        let config = self.layout.config();
        let start = Instant::now(clock).map_err(BenchFault::Outside)?;
        let made = options.to_string_data(alloc, self.data, config);
        ended(clock, start, made.map_err(BenchFault::Data))
    }
}

/// Reading a text as a value, without a schema.
#[derive(Clone, Copy)]
pub struct Untyped<'t> {
    pub text: &'t str,
}

impl Pass<Value> for Untyped<'_> {
    ghost makes = { λ p v. IsValueDocument (chars p.text.now) (tree_of v) };

    fn once<C: Clock>(&self, alloc: Global, clock: &C) -> Result<Timed<Value>, BenchFault> {
        let start = Instant::now(clock).map_err(BenchFault::Outside)?;
        let made = from_str(alloc, self.text);
        ended(clock, start, made.map_err(BenchFault::Text))
    }
}

/// Making data of a copy of a value. Copying isn't timed.
#[derive(Clone, Copy)]
pub struct Converting<'v, 's> {
    pub value: &'v Value,
    pub schema: &'s Schema,
}

impl<'o> Pass<Data<'o>> for Converting<'_, '_> {
    ghost makes = { λ p d. into (shapes_of p.schema.now) (root_of p.schema.now) (tree_of p.value.now) ≡ Some (data_view d) };

    fn once<C: Clock>(&self, alloc: Global, clock: &C) -> Result<Timed<Data<'o>>, BenchFault> {
        let copy = self.value.try_clone().map_err(BenchFault::Data)?;
        let start = Instant::now(clock).map_err(BenchFault::Outside)?;
        let made = into_data(alloc, copy, self.schema);
        ended(clock, start, made.map_err(BenchFault::Data))
    }
}
