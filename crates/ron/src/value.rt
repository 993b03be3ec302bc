//! Untyped values, with their numbers and maps, and reading them.
ghost use Rattle.std.specs.Prelude.{◌≡◌, chars, Err, IfOk, IfErr, MatchResult};
ghost use Rattle.ron_base.specs.declared.error.Error.TheVariants.{OutOfMemory};
ghost use Rattle.ron_value.specs.Ordered.{IsOrdered};
ghost use Rattle.ron_value.specs.View.{tree_of};
ghost use Rattle.ron_data_schema.specs.Table.{table_of};
ghost use Rattle.ron_data_convert.specs.Becomes.{Converts};
ghost use Rattle.ron_data.specs.AnyValue.{held_value};
ghost use Rattle.ron.specs.Types.{MakesOf};
ghost use Rattle.ron.specs.ValueText.{value_table, IsValueDocument, IsOnlyValue, RefusesValue, RefusesDeepValue, TellsValueErrors};

use crate::de::from_value;
use crate::options::Options;
use ron_base::error::{Result, SpannedError, SpannedResult};
use ron_data::any_value::AnyValue;
use ron_data::data::Data;
use ron_data_schema::schema::{Schema, Shape};
pub use ron_de_raw::raw::RawValue;
use ron_lex::cursor::Cursor;
use ron_types::traits::Deserialize;
pub use ron_value::value::Value;
pub use ron_value::{IntoIter, Iter, Keys, Map, Values};
pub use ron_value_number::Number;
use std::alloc::Global;

/// Reads a whole text as a value: a gap, attributes that announce extensions, one value and a gap. No extension is in
/// force by default. What nests deeper than 128 levels is refused by `ExceededRecursionLimit`, a literal that would be
/// a float by `UnsupportedFloat`, another character behind the value by `TrailingCharacters`, and any other text by an
/// error of reading; the span lies in the text. A refusal leaves nothing behind.
pub fn from_str(alloc: Global, s: &str) -> SpannedResult<Value>
    ensures ok { IfOk result (λ v. IsValueDocument (chars s.now) (tree_of v)) }
    ensures only { IfOk result (λ v. IsOnlyValue (chars s.now) (tree_of v)) }
    ensures maps { IfOk result (λ v. IsOrdered (tree_of v)) }
    ensures err { IfErr result (RefusesValue (chars s.now)) }
    ensures deep { RefusesDeepValue (chars s.now) result }
    ensures errors { TellsValueErrors (chars s.now) result }
{
    let schema = match value_schema(alloc) {
        Ok(schema) => schema,
        Err(code) => {
            let span = Cursor::new(s).span();
            return Err(SpannedError { code, span });
        }
    };
    let data = Options::default().from_str_seed(alloc, s, &schema)?;
    let Data::Value(held) = data else {
        unreachable!()
    };
    let value = on_its_own(s, held)?;
    Ok(value)
}

/// The value that data held, on its own. Where no memory is found for that, it is told of the text's beginning.
fn on_its_own(s: &str, held: AnyValue) -> SpannedResult<Value>
    ensures value { IfOk result (λ v. tree_of v ≡ tree_of (held_value held.entry)) }
    ensures memory { IfErr result (λ refused. refused.code ≡ OutOfMemory) }
    ensures errors { IfErr result (λ refused. TellsValueErrors (chars s.now) (Err refused)) }
{
    match held.into_value() {
        Ok(value) => Ok(value),
        Err(code) => {
            let span = Cursor::new(s).span();
            Err(SpannedError { code, span })
        }
    }
}

/// The schema of any value.
fn value_schema(alloc: Global) -> Result<Schema>
    ensures { MatchResult result (λ s. table_of s ≡ value_table) (λ e. e ≡ OutOfMemory) }
{
    let mut shapes = Vec::with_capacity(alloc, 1)?;
    shapes.push(Shape::Value)?;
    Schema::new(shapes, 0)
}

/// A value of the type, made of this one, which is given up, as by `de::from_value`.
pub fn into_rust<'a, T: Deserialize<'a>>(alloc: Global, value: Value) -> Result<T>
    ensures { MakesOf T.data T.normal T.accepts T.refuses (λ e. e)
        (Converts T.schema_is.shapes T.schema_is.root (tree_of value)) result }
{
    from_value(alloc, value)
}
