//! Values that tell their own type.

mod convert;

ghost use Rattle.std.specs.Prelude.{◌≡◌, map, IsSome, MatchResult};
ghost use Rattle.ron_base.specs.declared.error.Error.TheVariants.{OutOfMemory};
ghost use Rattle.ron_value.specs.Tree as tree;
ghost use Rattle.ron_value.specs.Tree.{case_place, items_from};
ghost use Rattle.ron_value.specs.View.{tree_of, option_tree};

use crate::copy::clone_items;
use crate::map::Map;
use ron_base::error::Result;
use ron_value_number::Number;
use std::alloc::Global;

/// A value whose type is known from itself alone. Values are ordered by their case's place in this list, and then by
/// content: a text by its bytes, a list by its first difference, a map by its keys and values in key order.
#[cycle(value)]
#[derive(Debug, Drop)]
pub enum Value {
    /// `true` or `false`.
    Bool(bool),
    /// One character.
    Char(char),
    /// Values by key.
    Map(Map),
    /// An integer of one of ten widths.
    Number(Number),
    /// A value that may be there.
    Option(Option<Box<Value>>),
    /// A text.
    String(String),
    /// Bytes that need not be a text.
    Bytes(Vec<u8>),
    /// A list of values.
    Seq(Vec<Value>),
    /// `()`.
    Unit,
}

impl Value {
    /// A copy of the text. Refused by `OutOfMemory` alone.
    pub fn string(alloc: Global, text: &str) -> Result<Value>
        ensures { MatchResult result (λ v. tree_of v ≡ tree.text text.now) (λ e. e ≡ OutOfMemory) }
    {
        let owned = String::from_str(alloc, text)?;
        Ok(Value::String(owned))
    }

    /// A copy of the bytes. Refused by `OutOfMemory` alone.
    pub fn bytes(alloc: Global, bytes: &[u8]) -> Result<Value>
        ensures { MatchResult result (λ v. tree_of v ≡ tree.bytes bytes.now) (λ e. e ≡ OutOfMemory) }
    {
        let owned = bytes.to_vec(alloc)?;
        Ok(Value::Bytes(owned))
    }

    /// A list of copies of the values. Refused by `OutOfMemory` alone.
    pub fn seq(alloc: Global, values: &[Value]) -> Result<Value>
        ensures { MatchResult result (λ v. tree_of v ≡ tree.sequence (items_from (map tree_of values.now)))
            (λ e. e ≡ OutOfMemory) }
    {
        let owned = clone_items(alloc, values)?;
        Ok(Value::Seq(owned))
    }

    /// A value that may be there. Refused by `OutOfMemory` alone, and never where there is none.
    pub fn option(alloc: Global, inner: Option<Value>) -> Result<Value>
        ensures { MatchResult result (λ v. tree_of v ≡ option_tree inner) (λ e. (e ≡ OutOfMemory) × IsSome inner) }
    {
        match inner {
            None => Ok(Value::Option(None)),
            Some(value) => {
                let boxed = Box::new(alloc, value)?;
                Ok(Value::Option(Some(boxed)))
            }
        }
    }

    /// The place of its case among the nine.
    pub(crate) fn case_place(&self) -> u8
        ensures { result ≡ case_place (tree_of self.now) }
    {
        match self {
            Value::Bool(_) => 0,
            Value::Char(_) => 1,
            Value::Map(_) => 2,
            Value::Number(_) => 3,
            Value::Option(_) => 4,
            Value::String(_) => 5,
            Value::Bytes(_) => 6,
            Value::Seq(_) => 7,
            Value::Unit => 8,
        }
    }
}
