//! How deep reading and writing may go.
ghost use Rattle.std.specs.Prelude.{◌≡◌, Some, None, MatchResult};
ghost use Rattle.ron_base.specs.declared.error.Error.TheVariants.{ExceededRecursionLimit};
ghost use Rattle.ron_base.specs.Limit.{one_deeper};

use crate::error::{Error, Result};

/// The limit one level deeper; no limit stays none. Where no level is left, that is refused by
/// `ExceededRecursionLimit`.
#[inline]
pub fn deeper(limit: Option<usize>) -> Result<Option<usize>>
    ensures { MatchResult result (λ inner. one_deeper limit ≡ Some inner)
        (λ e. (e ≡ ExceededRecursionLimit) × (one_deeper limit ≡ None)) }
{
    match limit {
        None => Ok(None),
        Some(0) => Err(Error::ExceededRecursionLimit),
        Some(levels) => Ok(Some(levels - 1)),
    }
}
