//! Extensions of requests.
use crate::json::count_of;
use anyhow::{Result, ensure};
use ron_base::extensions::Extensions;
use serde_json::Value;

/// The extensions whose bits this number has.
pub fn extensions_of(bits: &Value) -> Result<Extensions> {
    let bits = count_of(bits)?;
    ensure!(bits < 16, "no extensions: {bits}");
    Ok(extensions_in(bits))
}

/// The extensions of these bits.
pub fn extensions_in(bits: usize) -> Extensions {
    let mut extensions = Extensions::empty();
    for (bit, extension) in [
        (1, Extensions::UNWRAP_NEWTYPES),
        (2, Extensions::IMPLICIT_SOME),
        (4, Extensions::UNWRAP_VARIANT_NEWTYPES),
        (8, Extensions::EXPLICIT_STRUCT_NAMES),
    ] {
        if bits & bit == bit {
            extensions = extensions | extension;
        }
    }
    extensions
}
