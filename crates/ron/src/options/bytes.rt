//! Reading bytes, as the text that they are.
use super::Options;
use ron_base::error::SpannedResult;
use ron_base_device::utf8::text_of;
use ron_data::data::Data;
use ron_data_schema::schema::Schema;
use std::alloc::Global;

impl Options {
    ghost use Rattle.std.specs.Prelude.{◌≡◌, chars, IsUtf8, IfErr};
    ghost use Rattle.ron_data_schema.specs.Table.{table_of};
    ghost use Rattle.ron.specs.Bytes.{ReadsText, RefusesInvalid, IsNoText, IsInValidFront};

    /// Reads bytes by the schema: UTF-8 as `from_str_seed` reads it. Other bytes are refused by `Utf8Error`, with the
    /// span from the start to the end of their longest front that is UTF-8.
    pub fn from_bytes_seed<'a>(
        &self,
        alloc: Global,
        bytes: &'a [u8],
        schema: &Schema,
    ) -> SpannedResult<Data<'a>>
        ensures text { IsUtf8 bytes.now → ReadsText self.now.default_extensions self.now.recursion_limit
            (table_of schema.now) (chars bytes.now) result }
        ensures invalid { (IsUtf8 bytes.now → ⊥) → RefusesInvalid bytes.now result }
        ensures only { IfErr result (IsNoText bytes.now) }
        ensures place { IfErr result (IsInValidFront bytes.now) }
    {
        let text = text_of(bytes)?;
        self.from_str_seed(alloc, text, schema)
    }
}
