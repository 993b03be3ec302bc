//! A value without a schema, as data holds it.
ghost use Rattle.std.specs.Prelude.{◌≡◌, IfOk, IfErr, MatchResult};
ghost use Rattle.ron_base.specs.declared.error.Error.TheVariants.{OutOfMemory};
ghost use Rattle.ron_value.specs.View.{tree_of};
ghost use Rattle.ron_data.specs.AnyValue.{held_value, IsBorrowed};

use ron_base::error::Result;
use ron_value::value::Value;

/// A value without a schema, borrowed or owned.
#[derive(Debug, Drop)]
pub enum AnyValue<'a> {
    /// A value that stands elsewhere, as one that is to be written.
    Borrowed(&'a Value),
    /// A value of its own, as one that was read.
    Owned(Value),
}

impl AnyValue<'_> {
    /// The value.
    pub fn as_value(&self) -> &Value
        ensures { result.now ≡ held_value self.now }
    {
        match self {
            AnyValue::Borrowed(value) => *value,
            AnyValue::Owned(value) => value,
        }
    }

    /// The value on its own: an owned one moves, and a borrowed one is copied. That copy alone may be refused, by
    /// `OutOfMemory`.
    pub fn into_value(self) -> Result<Value>
        ensures value { IfOk result (λ v. tree_of v ≡ tree_of (held_value self.entry)) }
        ensures memory { IfErr result (λ e. (e ≡ OutOfMemory) × IsBorrowed self.entry) }
    {
        match self {
            AnyValue::Borrowed(value) => value.try_clone(),
            AnyValue::Owned(value) => Ok(value),
        }
    }
}

/// The same value, which borrows nothing. Refused by `OutOfMemory` alone.
#[inline(never)]
pub(crate) fn owned_value<'o>(value: AnyValue) -> Result<AnyValue<'o>>
    ensures { MatchResult result (λ v. tree_of (held_value v) ≡ tree_of (held_value value.entry))
        (λ e. e ≡ OutOfMemory) }
{
    Ok(AnyValue::Owned(value.into_value()?))
}
