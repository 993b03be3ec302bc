//! Copies of values and maps, in the memory that each of them stands in.

ghost use Rattle.std.specs.Prelude.{◌≡◌, map, MatchResult};
ghost use Rattle.ron_base.specs.declared.error.Error.TheVariants.{OutOfMemory};
ghost use Rattle.ron_value.specs.View.{tree_of, pair_tree, map_tree, entries};

use crate::map::Map;
use crate::value::Value;
use ron_base::error::Result;
use std::alloc::Global;

impl Value {
    /// A value that is equal to this one and shares nothing with it. Refused by `OutOfMemory` alone.
    pub fn try_clone(&self) -> Result<Value>
        ensures { MatchResult result (λ v. tree_of v ≡ tree_of self.now) (λ e. e ≡ OutOfMemory) }
    {
        clone_value(self)
    }
}

impl Map {
    /// A map that is equal to this one and shares nothing with it. Refused by `OutOfMemory` alone.
    pub fn try_clone(&self) -> Result<Map>
        ensures { MatchResult result (λ m. map_tree m ≡ map_tree self.now) (λ e. e ≡ OutOfMemory) }
    {
        clone_map(self)
    }
}

#[cycle(copy)]
fn clone_value(value: &Value) -> Result<Value>
    ensures { MatchResult result (λ v. tree_of v ≡ tree_of value.now) (λ e. e ≡ OutOfMemory) }
{
    match value {
        Value::Bool(held) => Ok(Value::Bool(*held)),
        Value::Char(held) => Ok(Value::Char(*held)),
        Value::Map(map) => Ok(Value::Map(clone_map(map)?)),
        Value::Number(number) => Ok(Value::Number(*number)),
        Value::Option(None) => Ok(Value::Option(None)),
        Value::Option(Some(inner)) => {
            let alloc = *Box::allocator(inner);
            let copy = clone_value(inner)?;
            Ok(Value::Option(Some(Box::new(alloc, copy)?)))
        }
        Value::String(text) => Ok(Value::String(text.clone()?)),
        Value::Bytes(bytes) => Ok(Value::Bytes(bytes.clone()?)),
        Value::Seq(items) => Ok(Value::Seq(clone_items(*items.allocator(), items)?)),
        Value::Unit => Ok(Value::Unit),
    }
}

#[cycle(copy)]
pub(crate) fn clone_items(alloc: Global, items: &[Value]) -> Result<Vec<Value>>
    ensures { MatchResult result (λ copies. map tree_of copies.items ≡ map tree_of items.now) (λ e. e ≡ OutOfMemory) }
{
    let mut copies = Vec::with_capacity(alloc, items.len())?;
    for item in items {
        copies.push(clone_value(item)?)?;
    }
    Ok(copies)
}

#[cycle(copy)]
fn clone_map(source: &Map) -> Result<Map>
    ensures { MatchResult result (λ m. map pair_tree (entries m) ≡ map pair_tree (entries source.now))
        (λ e. e ≡ OutOfMemory) }
{
    let mut pairs = Vec::with_capacity(*source.pairs.allocator(), source.pairs.len())?;
    for (key, value) in &source.pairs {
        let key_copy = clone_value(key)?;
        let value_copy = clone_value(value)?;
        pairs.push((key_copy, value_copy))?;
    }
    Ok(Map { pairs })
}
