//! Values that are kept as their texts.
ghost use Rattle.std.specs.Prelude.{◌≡◌, true, Some, IfOk, OnOk, IfErr};
ghost use Rattle.ron_base.specs.Extensions.{no_extensions};
ghost use Rattle.ron_base.specs.Limit.{IsWithin};
ghost use Rattle.ron_spec_grammar.specs.Raw.{raw_valid};
ghost use Rattle.ron_spec_layout.specs.Config.{no_config};
ghost use Rattle.ron_spec_layout.specs.Depth.{writer_depth};
ghost use Rattle.ron_spec_layout.specs.Layout.{full_layout};
ghost use Rattle.ron_spec_layout.specs.Name.{names_ok};
ghost use Rattle.ron_de_raw.specs.Raw.{raw_text_of, raw_bytes};
ghost use Rattle.ron.specs.Bytes.{ReadsText};
ghost use Rattle.ron.specs.Reading.{HasSpanIn};
ghost use Rattle.ron.specs.Types.{MakesOf, RefusesAsType, code_of, RefusesRawOf};

use crate::de::from_str;
use crate::ser::to_string;
use ron_base::error::{Error, Result, SpannedResult};
pub use ron_de_raw::raw::RawValue;
use ron_types::traits::{Deserialize, Serialize};
use std::alloc::Global;

/// A value of the type, read of a raw text by the default options.
pub fn into_rust<'a, T: Deserialize<'a>>(alloc: Global, raw: &'a RawValue) -> SpannedResult<T>
    ensures reads { MakesOf T.data T.normal T.accepts T.refuses code_of
        (ReadsText no_extensions (Some 128) T.schema_is (raw_text_of raw.now)) result }
    ensures place { IfErr result (HasSpanIn (raw_text_of raw.now)) }
    ensures own { IfErr result (RefusesAsType T.accepts T.refuses
        (ReadsText no_extensions (Some 128) T.schema_is (raw_text_of raw.now)) (raw_bytes raw.now)) }
{
    from_str(alloc, raw.get_ron())
}

/// The compact text of a value, as a raw text. One that is no raw text by itself is refused by `ExpectedRawValue`, all
/// else as by `to_string`.
pub fn from_rust<T: Serialize>(alloc: Global, value: &T) -> Result<RawValue<'static>>
    ensures ok { IfOk result (λ r. raw_text_of r ≡ full_layout no_extensions no_config (T.data value.now)) }
    ensures valid { OnOk result (raw_valid (full_layout no_extensions no_config (T.data value.now)) ≡ true) }
    ensures names { OnOk result (names_ok (T.data value.now) ≡ true) }
    ensures within { OnOk result (IsWithin (Some 128) (writer_depth no_config (T.data value.now))) }
    ensures refused { IfErr result (RefusesRawOf (T.data value.now)) }
{
    let text = to_string(alloc, value)?;
    match RawValue::from_boxed_ron(text) {
        Ok(raw) => Ok(raw),
        Err(refused) => Err(match refused.code {
            Error::OutOfMemory => Error::OutOfMemory,
            _ => Error::ExpectedRawValue,
        }),
    }
}
