//! That data tells the values that it stands for: nothing that a value holds is left out of it.
ghost use Rattle.std.specs.Prelude.{◌≡◌, true, MatchResult};
ghost use Rattle.ron_base.specs.declared.error.Error.TheVariants.{OutOfMemory};
ghost use Rattle.ron_types.specs.Recovery.{Recovers};

use crate::traits::{Deserialize, Schematic, Serialize};
use ron_base::error::Result;
use std::alloc::Global;

/// A type whose values are told by their data: those with equal data are equal, as `==` compares them. Where the data
/// forgets a part that `==` looks at, there is no such `impl`.
pub trait Faithful: Schematic + PartialEq {
    /// The types of its parts, in a row: the pair of the first one and those behind it, and `()` for none.
    type Parts: FaithfulParts;

    /// Values with equal data are equal, since those of each part are.
    ghost recovers: { Self.Parts.claim → Recovers Self.data Self.eq };
}

/// What is claimed of types in a row.
pub trait PartClaims {
    /// Of each type: values with equal data are equal.
    ghost claim: { Type 0 };
}

/// Types in a row whose values are told by their data.
pub trait FaithfulParts: PartClaims {
    /// The claim is true.
    ghost holds: { Self.claim };
}

impl PartClaims for () {
    ghost claim = { Unit {0} };
}

impl FaithfulParts for () {
    ghost holds = { tt };
}

impl<A: Schematic + PartialEq, R: PartClaims> PartClaims for (A, R) {
    ghost claim = { Recovers A.data A.eq × R.claim };
}

impl<A: Faithful, R: FaithfulParts> FaithfulParts for (A, R) {
    ghost holds = { (A.recovers A.Parts.holds, R.holds) };
}

/// The value that is made of a value's data: an equal one. Refused by `OutOfMemory` alone.
pub fn made_again<'a, T: Faithful + Serialize + Deserialize<'a>>(
    alloc: Global,
    value: &'a T,
) -> Result<T>
    ensures { MatchResult result (λ again. T.eq again value.now ≡ true) (λ e. e ≡ OutOfMemory) }
{
    T::from_data(alloc, value.to_data(alloc)?)
}
