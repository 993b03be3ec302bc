//! Types that are told by their data.
ghost use Rattle.ron_types.specs.Recovery.{Recovers};

use crate::faithful::Faithful;

/// Values with equal data are equal: of a type of which that is claimed, since it holds of all its parts.
pub fn values_are_told<T: Faithful>()
    ensures { Recovers T.data T.eq }
{}
