//! Lists of bytes.
ghost use Rattle.std.specs.Prelude.{◌≡◌, Some, IfOk, false};
ghost use Rattle.ron_spec_grammar.specs.Values.Conversion.{bytes_among, byte_of};
ghost use Rattle.ron_value.specs.View.{tree_of};
ghost use Rattle.ron_lex_text.specs.Parsed.{parsed_bytes, is_byte_slice};
ghost use Rattle.ron_data_convert.specs.Becomes.{Becomes, items_tree};
ghost use Rattle.ron_data_convert.specs.Misfits.{kind_differs};

use crate::refuse::{another_value, out_of_range};
use ron_base::error::Result;
use ron_lex_text::parsed::ParsedByteStr;
use ron_value::value::Value;
use ron_value_number::{Number, Width, number_in};
use std::alloc::Global;

/// The bytes that the items are.
pub(crate) fn bytes_among<'o>(alloc: Global, items: &[Value]) -> Result<ParsedByteStr<'o>>
    ensures value { Becomes parsed_bytes (bytes_among (items_tree items.now)) kind_differs result }
    ensures own { IfOk result (λ bs. is_byte_slice bs ≡ false) }
{
    let mut bytes = Vec::with_capacity(alloc, items.len())?;
    for item in items {
        bytes.push(byte_of(alloc, item)?)?;
    }
    Ok(ParsedByteStr::Allocated(bytes))
}

/// The byte that a value is.
fn byte_of(alloc: Global, value: &Value) -> Result<u8>
    ensures { Becomes (λ b. b) (byte_of (tree_of value.now)) kind_differs result }
{
    match value {
        Value::Number(number) => {
            let (is_negative, magnitude) = number.sign_and_magnitude();
            match number_in(Width::U8, is_negative, magnitude) {
                Some(Number::U8(byte)) => Ok(byte),
                _ => out_of_range(alloc, Width::U8, *number),
            }
        }
        _ => another_value(alloc, "u8", value),
    }
}
