//! Bytes as the text that they are.
ghost use Rattle.std.specs.Prelude.{◌≡◌, IfOk, IfErr, OnErr, IsUtf8};
ghost use Rattle.ron_base_device.specs.Utf8.{RefusesBytes, SpansValidFront};

use ron_base::error::{Error, Position, Span, SpannedError, SpannedResult, position_after};

/// The span from the start of bytes to the end of their longest front that is UTF-8.
pub fn valid_span(bytes: &[u8]) -> Span
    ensures { SpansValidFront bytes.now result }
{
    let end = match str::from_utf8(bytes) {
        Ok(text) => position_after(text),
        Err(fault) => match str::from_utf8(&bytes[..fault.valid_up_to()]) {
            Ok(text) => position_after(text),
            Err(_) => unreachable!(),
        },
    };
    Span {
        start: Position { line: 1, col: 1 },
        end,
    }
}

/// The text that bytes are. Bytes that are no UTF-8 are refused by `Utf8Error`, with the span from the start to the end
/// of their longest front that is.
pub fn text_of(bytes: &[u8]) -> SpannedResult<&str>
    ensures text { IfOk result (λ text. text.now ≡ bytes.now) }
    ensures valid { IfOk result (λ _. IsUtf8 bytes.now) }
    ensures refused { IfErr result (RefusesBytes bytes.now) }
    ensures invalid { OnErr result (IsUtf8 bytes.now → ⊥) }
{
    match str::from_utf8(bytes) {
        Ok(text) => Ok(text),
        Err(fault) => Err(SpannedError {
            code: Error::Utf8Error(fault),
            span: valid_span(bytes),
        }),
    }
}
