//! Reading types that carry their schema.
ghost use Rattle.std.specs.Prelude.{◌≡◌, chars, IfErr};
ghost use Rattle.ron_base_device.specs.Utf8.{SpansValidFront};
ghost use Rattle.ron.specs.Bytes.{ReadsText, ReadsReader, ReadsBytes, RefusesReader, LeavesRest, IsInValidFront};
ghost use Rattle.ron.specs.Reading.{HasSpanIn};
ghost use Rattle.ron.specs.Types.{MakesOf, ReadsTypeBack, RefusesAsType, code_of};

use super::Options;
use ron_base::error::{Error, SpannedError, SpannedResult};
use ron_base_device::utf8::valid_span;
use ron_types::traits::Deserialize;
use std::alloc::Global;
use std::io;

impl Options {
    /// Reads a whole text as a value of the type, by its schema, as `from_str_seed` reads it as data. Data that the type
    /// refuses is refused as the type says, with the span of the whole text.
    pub fn from_str<'a, T: Deserialize<'a>>(&self, alloc: Global, s: &'a str) -> SpannedResult<T>
        ensures reads { MakesOf T.data T.normal T.accepts T.refuses code_of
            (ReadsText self.now.default_extensions self.now.recursion_limit T.schema_is (chars s.now)) result }
        ensures reads_back { ReadsTypeBack T.data T.normal T.accepts self.now.default_extensions
            self.now.recursion_limit T.schema_is (chars s.now) result }
        ensures place { IfErr result (HasSpanIn (chars s.now)) }
        ensures own { IfErr result (RefusesAsType T.accepts T.refuses
            (ReadsText self.now.default_extensions self.now.recursion_limit T.schema_is (chars s.now)) s.now) }
    {
        self.read_type(alloc, s)
    }

    /// The same as the data says.
    fn read_type<'a, T: Deserialize<'a>>(&self, alloc: Global, s: &'a str) -> SpannedResult<T>
        ensures reads { MakesOf T.data T.normal T.accepts T.refuses code_of
            (ReadsText self.now.default_extensions self.now.recursion_limit T.schema_is (chars s.now)) result }
        ensures place { IfErr result (HasSpanIn (chars s.now)) }
        ensures own { IfErr result (RefusesAsType T.accepts T.refuses
            (ReadsText self.now.default_extensions self.now.recursion_limit T.schema_is (chars s.now)) s.now) }
    {
        let schema = match T::schema(alloc) {
            Ok(schema) => schema,
            Err(code) => return Err(refused(s.as_bytes(), code)),
        };
        let data = self.from_str_seed(alloc, s, &schema)?;
        match T::from_data(alloc, data) {
            Ok(value) => Ok(value),
            Err(code) => Err(refused(s.as_bytes(), code)),
        }
    }

    /// Reads bytes as a value of the type likewise, as `from_bytes_seed` reads them as data.
    pub fn from_bytes<'a, T: Deserialize<'a>>(&self, alloc: Global, s: &'a [u8]) -> SpannedResult<T>
        ensures reads { MakesOf T.data T.normal T.accepts T.refuses code_of
            (ReadsBytes self.now.default_extensions self.now.recursion_limit T.schema_is s.now) result }
        ensures place { IfErr result (IsInValidFront s.now) }
        ensures own { IfErr result (RefusesAsType T.accepts T.refuses
            (ReadsBytes self.now.default_extensions self.now.recursion_limit T.schema_is s.now) s.now) }
    {
        let schema = match T::schema(alloc) {
            Ok(schema) => schema,
            Err(code) => return Err(refused(s, code)),
        };
        let data = self.from_bytes_seed(alloc, s, &schema)?;
        match T::from_data(alloc, data) {
            Ok(value) => Ok(value),
            Err(code) => Err(refused(s, code)),
        }
    }

    /// Reads a reader to its end as a value of the type likewise, as `from_reader_seed` reads it as data: nothing of the
    /// value is borrowed from a text. Data that the type refuses stands at no place, and has the span from 1:1 to 1:1.
    pub fn from_reader<'a, R: io::Read, T: Deserialize<'a>>(
        &self,
        alloc: Global,
        reader: &mut R,
    ) -> SpannedResult<T>
        ensures reads { MakesOf T.data T.normal T.accepts T.refuses code_of
            (ReadsReader self.now.default_extensions self.now.recursion_limit T.schema_is (R.remaining reader.old)
            (R.remaining reader.new)) result }
        ensures place { IfErr result (RefusesReader T.accepts T.refuses self.now.default_extensions self.now.recursion_limit
            T.schema_is (R.remaining reader.old) (R.remaining reader.new)) }
        ensures left { LeavesRest (R.remaining reader.old) (R.remaining reader.new) }
    {
        let schema = match T::schema(alloc) {
            Ok(schema) => schema,
            Err(code) => return Err(refused(&[], code)),
        };
        let data = self.from_reader_seed(alloc, reader, &schema)?;
        match T::from_data(alloc, data) {
            Ok(value) => Ok(value),
            Err(code) => Err(refused(&[], code)),
        }
    }
}

/// A refusal of all bytes.
fn refused(bytes: &[u8], code: Error) -> SpannedError
    ensures code { result.code ≡ code }
    ensures span { SpansValidFront bytes.now result.span }
{
    SpannedError {
        code,
        span: valid_span(bytes),
    }
}
