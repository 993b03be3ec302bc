//! Reading: a text value by value, and types that carry their schema.
ghost use Rattle.std.specs.Prelude.{chars, Some, IfErr};
ghost use Rattle.ron_base.specs.Extensions.{no_extensions};
ghost use Rattle.ron_data_convert.specs.Becomes.{Converts};
ghost use Rattle.ron_value.specs.View.{tree_of};
ghost use Rattle.ron.specs.Bytes.{ReadsText, ReadsBytes, ReadsReader, RefusesReader, LeavesRest, IsInValidFront};
ghost use Rattle.ron.specs.Reading.{HasSpanIn};
ghost use Rattle.ron.specs.Types.{MakesOf, ReadsTypeBack, RefusesAsType, code_of};

use crate::options::Options;
use ron_base::error::{Result, SpannedResult};
pub use ron_base::error::{Error, Position, Span, SpannedError};
use ron_base::extensions::Extensions;
pub use ron_base_device::adapters::Reader;
pub use ron_base_device::source::Source;
use ron_base_device::utf8::text_of;
use ron_data::data::Data;
use ron_data_convert::into_data;
use ron_data_schema::schema::Schema;
use ron_de::first::read_here;
use ron_de_parts::context::Context;
use ron_de_steps::attributes::read_head;
use ron_de_steps::gap::pass_gap;
use ron_lex::cursor::Cursor;
use ron_types::traits::Deserialize;
use ron_value::value::Value;
use std::alloc::Global;
use std::io;
use std::marker::Model;

/// A reader of values from a text, one after the other.
///
/// After a refusal of `read` or `end` both answer `Failed` from then on, and `remainder` stays in the text.
#[derive(Drop)]
pub struct Deserializer<'de> {
    alloc: Global,
    cursor: Cursor<'de>,
    extensions: Extensions,
    recursion_limit: Option<usize>,
    has_failed: bool,
}

impl<'de> Model for Deserializer<'de> {
    ghost use Rattle.ron.specs.Reading.{ReaderState};

    ghost Value = { ReaderState };

    ghost view = { λ d. record {
      text = d.cursor.text;
      rest = d.cursor.rest;
      token_start = d.cursor.token_start;
      gap = d.cursor.gap;
      extensions = d.extensions;
      limit = d.recursion_limit;
      failed = d.has_failed;
      turns = d.cursor.counted;
      expected = d.cursor.turns;
    } };
}

impl<'de> Deserializer<'de> {
    ghost use Rattle.std.specs.Prelude.{◌≡◌, ◌↔◌, ◌≤◌, ◌+◌, ℕ, false, [], chars, IsUtf8, IsOk, Some, IfOk, OnOk, IfErr, IsErrOf};
    ghost use Rattle.ron_spec_words.specs.Gap.{Gap};
    ghost use Rattle.ron_spec_grammar.specs.Schema.{OfShape};
    ghost use Rattle.ron_base.specs.Extensions.{no_extensions};
    ghost use Rattle.ron_base.specs.Place.{IsNotAfter};
    ghost use Rattle.ron_lex_text.specs.Stretch.{IsSuffix};
    ghost use Rattle.ron_lex.specs.Place.{IsPositionBefore};
    ghost use Rattle.ron_data_schema.specs.Table.{shapes_of, root_of, table_of};
    ghost use Rattle.ron_data.specs.Datum.{data_view};
    ghost use Rattle.ron.specs.Reading.{BeginsValue, BeginsAsReader, IsFresh, IsStartRefused, Stays, IsBehindGap};
    ghost use Rattle.ron.specs.Reading.{Takes, AnswersSpelled, AnswersAsReader, IsSlicedFrom, RefusesDeep};
    ghost use Rattle.ron.specs.Bytes.{RefusesInvalid, IsNoText};
    ghost use Rattle.ron.specs.Reading.{IsValueRefused, ExpectsByteString, HasRest, IsOfEnd};
    ghost use Rattle.ron_de_parts.specs.Terms.{source_view};
    ghost use Rattle.ron.specs.Kept.{IsKeptRefused};
    ghost use Rattle.ron.specs.Turns.{turns_allowed, HasReadHead, LeavesRoom, KeepsWithin};
    ghost use Rattle.ron_spec_words.specs.Beyond.{bytes_in};
    ghost use Rattle.ron_spec_grammar.specs.Room.{chain};

    /// Over a text, where its value begins, with the default options. It refuses what `from_str_with_options` does.
    pub fn from_str(alloc: Global, input: &'de str) -> SpannedResult<Self>
        ensures ok { BeginsValue no_extensions (chars input.now) result }
        ensures answer { BeginsAsReader no_extensions (chars input.now) result }
        ensures state { IfOk result (IsFresh (chars input.now) (Some 128)) }
        ensures errors { IfErr result (IsStartRefused (chars input.now)) }
        ensures turns { IfOk result HasReadHead }
    {
        Self::from_str_with_options(alloc, input, &Options::default())
    }

    /// Over a text, where its value begins: behind a gap, and attributes with gaps behind them. In force are the
    /// options' default extensions and those that the attributes announce. Refused is what is no attribute where `#`
    /// stands, and a slash behind a gap: a block comment that doesn't end, by `UnclosedBlockComment`, or a slash that
    /// begins no comment, by `UnexpectedChar` or `Eof`.
    pub fn from_str_with_options(
        alloc: Global,
        input: &'de str,
        options: &Options,
    ) -> SpannedResult<Self>
        ensures ok { BeginsValue options.now.default_extensions (chars input.now) result }
        ensures answer { BeginsAsReader options.now.default_extensions (chars input.now) result }
        ensures state { IfOk result (IsFresh (chars input.now) options.now.recursion_limit) }
        ensures errors { IfErr result (IsStartRefused (chars input.now)) }
        ensures turns { IfOk result HasReadHead }
    {
        let mut cursor = Cursor::new(input);
        match read_head(alloc, &mut cursor, options.default_extensions) {
            Ok(extensions) => {
                let _turns = cursor.turns();
                let _gap = cursor.gap();
                Ok(Deserializer {
                    alloc,
                    cursor,
                    extensions,
                    recursion_limit: options.recursion_limit,
                    has_failed: false,
                })
            }
            Err(code) => Err(SpannedError {
                code,
                span: cursor.span(),
            }),
        }
    }

    /// Over bytes, as `from_str` is over the text that they are. Bytes that are no UTF-8 are refused by `Utf8Error`, with
    /// the span from the start to the end of their longest front that is.
    pub fn from_bytes(alloc: Global, input: &'de [u8]) -> SpannedResult<Self>
        ensures ok { IsUtf8 input.now → BeginsValue no_extensions (chars input.now) result }
        ensures answer { IsUtf8 input.now → BeginsAsReader no_extensions (chars input.now) result }
        ensures state { IfOk result (IsFresh (chars input.now) (Some 128)) }
        ensures errors { IsUtf8 input.now → IfErr result (IsStartRefused (chars input.now)) }
        ensures invalid { (IsUtf8 input.now → ⊥) → RefusesInvalid input.now result }
        ensures only { IfErr result (IsNoText input.now) }
        ensures turns { IfOk result HasReadHead }
    {
        Self::from_bytes_with_options(alloc, input, &Options::default())
    }

    /// Over bytes, likewise by these options.
    pub fn from_bytes_with_options(
        alloc: Global,
        input: &'de [u8],
        options: &Options,
    ) -> SpannedResult<Self>
        ensures ok { IsUtf8 input.now → BeginsValue options.now.default_extensions (chars input.now) result }
        ensures answer { IsUtf8 input.now → BeginsAsReader options.now.default_extensions (chars input.now) result }
        ensures state { IfOk result (IsFresh (chars input.now) options.now.recursion_limit) }
        ensures errors { IsUtf8 input.now → IfErr result (IsStartRefused (chars input.now)) }
        ensures invalid { (IsUtf8 input.now → ⊥) → RefusesInvalid input.now result }
        ensures only { IfErr result (IsNoText input.now) }
        ensures turns { IfOk result HasReadHead }
    {
        let text = text_of(input)?;
        Self::from_str_with_options(alloc, text, options)
    }

    /// The extensions in force.
    pub fn extensions(&self) -> Extensions
        ensures { result ≡ self.now.extensions }
    {
        self.extensions
    }

    /// What is left of the text.
    pub fn remainder(&self) -> &'de str
        ensures rest { chars result.now ≡ self.now.rest }
        ensures end { IsSuffix (chars result.now) self.now.text }
    {
        self.cursor.rest()
    }

    /// The count of bytes of the text that reading has gone over up to here, at most the highest number: each that stands
    /// before the place, and all that was looked at or gone over again. From the making on, over one `read` by a schema
    /// whose longest chain of options and newtypes has k members (`Schema::chain`) and one `end`, whatever they answer
    /// and with no limit set, it is no more than `64 (n + 1) (k + 1)` for a text of n bytes. What errors' spans take and
    /// the check that bytes are UTF-8 aren't counted.
    pub fn turns(&self) -> u128
        ensures value { result ≡ self.now.turns }
        ensures least { bytes_in self.now.text ≤ result + bytes_in self.now.rest }
    {
        self.cursor.turns()
    }

    /// An error with the place of the last word, or of the stretch that was found at fault: from before it to where
    /// `remainder` begins.
    pub fn span_error(&self, code: Error) -> SpannedError
        ensures code { result.code ≡ code }
        ensures ordered { IsNotAfter result.span.start result.span.end }
        ensures start { IsPositionBefore self.now.text self.now.token_start result.span.start }
        ensures end { IsPositionBefore self.now.text self.now.rest result.span.end }
    {
        SpannedError {
            code,
            span: self.cursor.span(),
        }
    }

    /// Reads the value of the schema that begins at the cursor, with no gap before it, and goes past it. Where none is
    /// spelled within the limit, that is refused; the cursor then stays somewhere in the text, and from then on `read`
    /// and `end` answer `Failed` and change nothing.
    pub fn read(&mut self, schema: &Schema) -> Result<Data<'de>>
        ensures state { Stays self.old result self.new }

        // A front of what is left spells the answer within the limit, and what follows it is left.
        ensures ok { IfOk result (λ d. Takes self.old (table_of schema.now) (data_view d) self.new) }
        ensures of_schema { IfOk result (λ d. OfShape (shapes_of schema.now) (root_of schema.now) (data_view d)) }
        ensures spelled { self.old.failed ≡ false → AnswersSpelled self.old (table_of schema.now) result self.new.rest }
        ensures answer { self.old.failed ≡ false → AnswersAsReader self.old (table_of schema.now) result self.new.rest }
        ensures slices { IfOk result (IsSlicedFrom self.old self.new.rest) }

        // Which error it is, where that is promised.
        ensures deep { self.old.failed ≡ false → RefusesDeep self.old (table_of schema.now) result }
        ensures errors { self.old.failed ≡ false → IfErr result (IsValueRefused self.old (table_of schema.now)) }
        ensures bytes { self.old.failed ≡ false → ExpectsByteString self.old (table_of schema.now) result }

        // Of a reader that has read nothing yet.
        ensures turns { HasReadHead self.old → self.old.failed ≡ false →
            KeepsWithin (chain (shapes_of schema.now)) result self.new }
    {
        let source = self.cursor.text();
        self.read_kept(schema, Some(source))
    }

    /// The same, where texts are kept as slices of the source, if the text is that of the source; else as copies. Where
    /// they are copied, a string may want memory without an escape.
    pub(crate) fn read_kept<'o>(
        &mut self,
        schema: &Schema,
        source: Option<&'o str>,
    ) -> Result<Data<'o>>
        ensures state { Stays self.old result self.new }
        ensures ok { IfOk result (λ d. Takes self.old (table_of schema.now) (data_view d) self.new) }
        ensures of_schema { IfOk result (λ d. OfShape (shapes_of schema.now) (root_of schema.now) (data_view d)) }
        ensures spelled { self.old.failed ≡ false → AnswersSpelled self.old (table_of schema.now) result self.new.rest }
        ensures answer { self.old.failed ≡ false → AnswersAsReader self.old (table_of schema.now) result self.new.rest }
        ensures slices { source_view source.entry ≡ Some self.old.text → IfOk result (IsSlicedFrom self.old self.new.rest) }
        ensures deep { self.old.failed ≡ false → RefusesDeep self.old (table_of schema.now) result }
        ensures errors { self.old.failed ≡ false →
            IfErr result (IsKeptRefused (source_view source.entry) self.old (table_of schema.now)) }
        ensures bytes { self.old.failed ≡ false → ExpectsByteString self.old (table_of schema.now) result }
        ensures turns { HasReadHead self.old → self.old.failed ≡ false →
            KeepsWithin (chain (shapes_of schema.now)) result self.new }
    {
        if self.has_failed {
            return Err(Error::Failed);
        }
        let context = Context::new(
            self.alloc,
            self.extensions,
            schema,
            self.recursion_limit,
            source,
        );
        let answer = read_here(&context, &mut self.cursor, schema.root());
        self.cursor.forget_gap();
        let _turns = self.cursor.turns();
        self.has_failed = answer.is_err();
        answer
    }

    /// Goes past a gap to the end of the text. Where another character stands behind the gap, that is refused: a slash
    /// as at the start of a text, any other by `TrailingCharacters`, and the cursor is before it. From then on `read`
    /// and `end` answer `Failed`.
    pub fn end(&mut self) -> Result<()>
        ensures state { Stays self.old result self.new }
        ensures place { self.old.failed ≡ false → IsBehindGap self.old self.new }
        ensures ok { self.old.failed ≡ false → IsOk result ↔ Gap self.old.rest [] }
        ensures trailing { self.old.failed ≡ false
            → IsErrOf result Error.TrailingCharacters ↔ HasRest self.old.rest }
        ensures fault { self.old.failed ≡ false → IfErr result IsOfEnd }

        // Behind a value that a reader has read first.
        ensures turns { (k : ℕ) → LeavesRoom k self.old → self.new.turns ≤ turns_allowed self.new.text k }
        ensures least { OnOk result (bytes_in self.new.text ≤ self.new.turns) }
    {
        if self.has_failed {
            return Err(Error::Failed);
        }
        if let Err(error) = pass_gap(&mut self.cursor) {
            let _turns = self.cursor.turns();
            self.has_failed = true;
            return Err(error);
        }
        let _turns = self.cursor.turns();
        if self.cursor.is_at_end() {
            Ok(())
        } else {
            self.has_failed = true;
            Err(Error::TrailingCharacters)
        }
    }
}

/// Reads a whole text as a value of the type, by its schema and the default options. Data that the type refuses is refused
/// as the type says, with the span of the whole text.
pub fn from_str<'a, T: Deserialize<'a>>(alloc: Global, s: &'a str) -> SpannedResult<T>
    ensures reads { MakesOf T.data T.normal T.accepts T.refuses code_of
        (ReadsText no_extensions (Some 128) T.schema_is (chars s.now)) result }
    ensures reads_back { ReadsTypeBack T.data T.normal T.accepts no_extensions (Some 128) T.schema_is (chars s.now) result }
    ensures place { IfErr result (HasSpanIn (chars s.now)) }
    ensures own { IfErr result (RefusesAsType T.accepts T.refuses
        (ReadsText no_extensions (Some 128) T.schema_is (chars s.now)) s.now) }
{
    Options::default().from_str(alloc, s)
}

/// Reads bytes as a value of the type likewise. Bytes that are no UTF-8 are refused by `Utf8Error`.
pub fn from_bytes<'a, T: Deserialize<'a>>(alloc: Global, s: &'a [u8]) -> SpannedResult<T>
    ensures reads { MakesOf T.data T.normal T.accepts T.refuses code_of
        (ReadsBytes no_extensions (Some 128) T.schema_is s.now) result }
    ensures place { IfErr result (IsInValidFront s.now) }
    ensures own { IfErr result (RefusesAsType T.accepts T.refuses
        (ReadsBytes no_extensions (Some 128) T.schema_is s.now) s.now) }
{
    Options::default().from_bytes(alloc, s)
}

/// Reads a reader to its end as a value of the type, likewise.
pub fn from_reader<'a, R: io::Read, T: Deserialize<'a>>(
    alloc: Global,
    reader: &mut R,
) -> SpannedResult<T>
    ensures reads { MakesOf T.data T.normal T.accepts T.refuses code_of
        (ReadsReader no_extensions (Some 128) T.schema_is (R.remaining reader.old) (R.remaining reader.new)) result }
    ensures place { IfErr result (RefusesReader T.accepts T.refuses no_extensions (Some 128) T.schema_is
        (R.remaining reader.old) (R.remaining reader.new)) }
    ensures left { LeavesRest (R.remaining reader.old) (R.remaining reader.new) }
{
    Options::default().from_reader(alloc, reader)
}

/// A value of the type, made of a value without a schema: by the type's schema that becomes data, and the data a value
/// of the type. The value is given up. One that becomes no data is refused by the error of its first part that doesn't
/// fit: `InvalidValueForType` for its case or range, `ExpectedDifferentLength`, `ExpectedRawValue`,
/// `NoSuchStructField`, `DuplicateStructField` or `MissingStructField`. The data borrows no text, so a `&str` is none.
pub fn from_value<'a, T: Deserialize<'a>>(alloc: Global, value: Value) -> Result<T>
    ensures { MakesOf T.data T.normal T.accepts T.refuses (λ e. e)
        (Converts T.schema_is.shapes T.schema_is.root (tree_of value)) result }
{
    let schema = T::schema(alloc)?;
    let data = into_data(alloc, value, &schema)?;
    T::from_data(alloc, data)
}
