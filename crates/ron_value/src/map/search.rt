//! Where a key stands among pairs in key order.

ghost use Rattle.std.specs.Prelude.{◌<◌, ◌≤◌, length, MatchResult};
ghost use Rattle.ron_value.specs.Ordered.{IsOrdered};
ghost use Rattle.ron_value.specs.View.{entries_tree};
ghost use Rattle.ron_value.specs.Place.{IsPlaceOf};
ghost use Rattle.ron_value.specs.Probes.{binary_digits};

use crate::value::Value;
use std::cmp::Ordering;

/// The place of this key, or as `Err` the place where it belongs, and how many keys it was compared with: each leaves
/// half of the pairs at most.
pub(super) fn probe(pairs: &[(Value, Value)], key: &Value) -> (Result<usize, usize>, usize)
    ensures in_range { MatchResult result.0 (λ i. i < length pairs.now) (λ i. i ≤ length pairs.now) }
    ensures place { IsOrdered (entries_tree pairs.now) → IsPlaceOf key.now pairs.now result.0 }
    ensures probes { result.1 ≤ binary_digits (length pairs.now) }
{
    let mut low = 0;
    let mut high = pairs.len();
    let mut probes = 0;
    while low < high {
        let middle = low + (high - low) / 2;
        probes += 1;
        match pairs[middle].0.cmp(key) {
            Ordering::Less => low = middle + 1,
            Ordering::Greater => high = middle,
            Ordering::Equal => return (Ok(middle), probes),
        }
    }
    (Err(low), probes)
}
