//! What a request says of how it is done.
ghost use Rattle.std.specs.Prelude.{◌≡◌, ℕ, Some, None, IfOk};
ghost use Rattle.serde_json.specs.Data.{null, number, unsigned};
ghost use Rattle.serde_json.specs.Find.{get};
ghost use Rattle.serde_json.specs.View.{view};

use anyhow::Result;
use ron::Options;
use ron::extensions::Extensions;
use ron_test_requests::extensions::extensions_of;
use ron_test_requests::json::count_of;
use serde_json::Value;

/// The options with the default extensions and the limit of these names. The extensions are their bits, and absent
/// there are none; the limit is absent, the default, or null, none.
pub fn options_of(request: &Value, extensions: &str, limit: &str) -> Result<Options>
    ensures absent { get limit.now (view request.now) ≡ None → IfOk result (λ o. o.recursion_limit ≡ Some 128) }
    ensures unlimited { get limit.now (view request.now) ≡ Some null → IfOk result (λ o. o.recursion_limit ≡ None) }
    ensures levels { (n : ℕ) → get limit.now (view request.now) ≡ Some (number (unsigned n))
        → IfOk result (λ o. o.recursion_limit ≡ Some n) }
{
    let options = Options::default().with_default_extension(
        request
            .get(extensions)
            .map_or(Ok(Extensions::empty()), extensions_of)?,
    );
    Ok(match request.get(limit) {
        None => options,
        Some(Value::Null) => options.without_recursion_limit(),
        Some(levels) => options.with_recursion_limit(count_of(levels)?),
    })
}
