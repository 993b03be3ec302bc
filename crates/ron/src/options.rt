//! Options, and reading and writing by them.
mod bytes;
mod devices;
mod types;
mod writing;

use crate::de::Deserializer;
use ron_base::error::{Result, SpannedResult};
use ron_base::extensions::Extensions;
use ron_data::data::Data;
use ron_data_schema::schema::Schema;
use ron_ser::text::to_string;
use ron_ser_config::config::PrettyConfig;
use std::alloc::{AllocError, Global};

/// How to read and write.
#[derive(Debug, Drop)]
pub struct Options {
    /// The extensions that are in force also where no text announces them.
    pub default_extensions: Extensions,
    /// How deep reading and writing may go, in levels; `None` sets no limit. A list takes a level and each of its items
    /// another; `docs/FORMAT.md` tells what else counts.
    pub recursion_limit: Option<usize>,
}

impl Default for Options {
    ghost use Rattle.std.specs.Prelude.{◌≡◌, Some};
    ghost use Rattle.ron_base.specs.Extensions.{no_extensions};

    ghost is_default = { λ o. (o.default_extensions ≡ no_extensions) × (o.recursion_limit ≡ Some 128) };

    /// No extension, and the limit 128.
    fn default() -> Options {
        Options {
            default_extensions: Extensions::empty(),
            recursion_limit: Some(128),
        }
    }
}

impl Clone for Options {
    ghost use Rattle.std.specs.Prelude.{◌≡◌, ⊤};

    ghost is_clone = { λ o copy. copy ≡ o };

    ghost is_infallible = { λ _. ⊤ };

    /// The same options. It takes no memory, so it never fails.
    fn clone(&self) -> std::result::Result<Options, AllocError> {
        Ok(Options {
            default_extensions: self.default_extensions,
            recursion_limit: self.recursion_limit,
        })
    }
}

impl Options {
    ghost use Rattle.std.specs.Prelude.{◌≡◌, true, false, chars, string_bytes, Some, None, IfOk, IfErr, OnOk};
    ghost use Rattle.ron_spec_grammar.specs.Schema.{OfShape};
    ghost use Rattle.ron_base.specs.Limit.{IsWithin};
    ghost use Rattle.ron_data_schema.specs.Table.{shapes_of, root_of, table_of};
    ghost use Rattle.ron_data.specs.Datum.{data_view};
    ghost use Rattle.ron_base.specs.Extensions.{union, difference};
    ghost use Rattle.ron_spec_layout.specs.Name.{names_ok, first_refused};
    ghost use Rattle.ron_spec_layout.specs.Encodable.{is_encodable};
    ghost use Rattle.ron_spec_layout.specs.Config.{blank};
    ghost use Rattle.ron_spec_layout.specs.Layout.{extensions_under, full_layout};
    ghost use Rattle.ron_ser_config.specs.View.{config_given};
    ghost use Rattle.ron_spec_layout.specs.Depth.{writer_depth};
    ghost use Rattle.ron_ser.specs.Refusals.{RefusesText, HoldsName};
    ghost use Rattle.ron.specs.Whole.{DocumentWithin, IsOnlyData, RefusesDocument, RefusesDeepDocument, IsSlicedWhole};
    ghost use Rattle.ron.specs.Whole.{EndsDocs, ReadsBack, TellsErrors, SpellsNormalForm};
    ghost use Rattle.ron_de_parts.specs.Terms.{source_view};
    ghost use Rattle.ron.specs.Kept.{TellsKept};

    /// The same options with these extensions among the default ones.
    pub fn with_default_extension(self, default_extension: Extensions) -> Self
        ensures extensions { result.default_extensions ≡ union self.default_extensions default_extension }
        ensures limit { result.recursion_limit ≡ self.recursion_limit }
    {
        Options {
            default_extensions: self.default_extensions.union(default_extension),
            recursion_limit: self.recursion_limit,
        }
    }

    /// The same options with none of these extensions among the default ones.
    pub fn without_default_extension(self, default_extension: Extensions) -> Self
        ensures extensions { result.default_extensions ≡ difference self.default_extensions default_extension }
        ensures limit { result.recursion_limit ≡ self.recursion_limit }
    {
        Options {
            default_extensions: self.default_extensions.difference(default_extension),
            recursion_limit: self.recursion_limit,
        }
    }

    /// The same options with this limit, in levels.
    pub fn with_recursion_limit(self, recursion_limit: usize) -> Self
        ensures limit { result.recursion_limit ≡ Some recursion_limit }
        ensures extensions { result.default_extensions ≡ self.default_extensions }
    {
        Options {
            default_extensions: self.default_extensions,
            recursion_limit: Some(recursion_limit),
        }
    }

    /// The same options with no limit. Deep texts may then run out of stack.
    pub fn without_recursion_limit(self) -> Self
        ensures limit { result.recursion_limit ≡ None }
        ensures extensions { result.default_extensions ≡ self.default_extensions }
    {
        Options {
            default_extensions: self.default_extensions,
            recursion_limit: None,
        }
    }

    /// Reads a whole text by the schema: a gap, attributes that announce extensions, one value and a gap. What nests
    /// deeper than the limit is refused by `ExceededRecursionLimit`, another character behind the value by
    /// `TrailingCharacters`, and any other text by an error of reading; the span lies in the text. A refusal leaves
    /// nothing behind.
    pub fn from_str_seed<'a>(
        &self,
        alloc: Global,
        s: &'a str,
        schema: &Schema,
    ) -> SpannedResult<Data<'a>>
        ensures ok { IfOk result (λ d.
            DocumentWithin self.now.default_extensions self.now.recursion_limit
            (table_of schema.now) (chars s.now) (data_view d)) }
        ensures only { IfOk result (λ d.
            IsOnlyData self.now.default_extensions (table_of schema.now) (chars s.now) (data_view d)) }
        ensures of_schema { IfOk result (λ d. OfShape (shapes_of schema.now) (root_of schema.now) (data_view d)) }
        ensures err { IfErr result (RefusesDocument self.now.default_extensions self.now.recursion_limit
            (table_of schema.now) (chars s.now)) }
        ensures deep { RefusesDeepDocument self.now.default_extensions self.now.recursion_limit
            (table_of schema.now) (chars s.now) result }
        ensures slices { IfOk result (IsSlicedWhole self.now.default_extensions self.now.recursion_limit
            (table_of schema.now) (chars s.now)) }

        // The layout of data of the schema is read back as its normal form, where the limit covers the text's depth.
        ensures reads_back { ReadsBack self.now.default_extensions self.now.recursion_limit
            (table_of schema.now) (chars s.now) result }

        // Which error it is, where that is promised, and its place.
        ensures errors { TellsErrors self.now.default_extensions self.now.recursion_limit
            (table_of schema.now) (chars s.now) result }
    {
        self.read_document(alloc, s, schema, Some(s))
    }

    /// The making of a reader, its `read` and its `end`, in turn. Texts are kept as slices of the source, if the text is
    /// that of the source; else as copies.
    fn read_document<'o>(
        &self,
        alloc: Global,
        s: &str,
        schema: &Schema,
        source: Option<&'o str>,
    ) -> SpannedResult<Data<'o>>
        ensures slices { source_view source.entry ≡ Some (chars s.now) → IfOk result
            (IsSlicedWhole self.now.default_extensions self.now.recursion_limit (table_of schema.now) (chars s.now)) }
        ensures errors { TellsKept (source_view source.entry) self.now.default_extensions self.now.recursion_limit
            (table_of schema.now) (chars s.now) result }
    {
        let mut deserializer = Deserializer::from_str_with_options(alloc, s, self)?;
        match deserializer.read_kept(schema, source) {
            Err(code) => Err(deserializer.span_error(code)),
            Ok(data) => match deserializer.end() {
                Ok(()) => Ok(data),
                Err(code) => Err(deserializer.span_error(code)),
            },
        }
    }

    /// The text of the data by a configuration, under the default extensions and those of the configuration, which are
    /// announced where they are no defaults; without a configuration the compact text. It reads back to the data's
    /// normal form, where a new line ends the doc comments that are written; where a value without a schema holds a
    /// `Some`, under implicit_some, its text leaves that out, and reads back as what the `Some` holds. There is no text
    /// with an error: a configuration of which a text holds anything but blanks is refused by `Message`, a name that no
    /// identifier spells by `InvalidIdentifier`, and data that nests deeper than the limit by `ExceededRecursionLimit`.
    pub fn to_string_data(
        &self,
        alloc: Global,
        value: &Data,
        config: Option<PrettyConfig>,
    ) -> Result<String>
        ensures text { IfOk result (λ s. chars (string_bytes s)
            ≡ full_layout self.now.default_extensions (config_given config) (data_view value.now)) }
        ensures reads_back { IfOk result (λ s.
            is_encodable (extensions_under self.now.default_extensions (config_given config)).implicit_some
            (data_view value.now) ≡ true → EndsDocs (config_given config) (data_view value.now) →
            SpellsNormalForm self.now.default_extensions (config_given config) (data_view value.now)
            (chars (string_bytes s))) }
        ensures blank { OnOk result (blank (config_given config) ≡ true) }
        ensures names { OnOk result (names_ok (data_view value.now) ≡ true) }
        ensures encodable { OnOk result (is_encodable false (data_view value.now) ≡ true) }
        ensures within { OnOk result (IsWithin self.now.recursion_limit
            (writer_depth (config_given config) (data_view value.now))) }
        ensures refused { IfErr result (RefusesText (config_given config) self.now.recursion_limit
            (data_view value.now)) }
        ensures refused_name { IfErr result (HoldsName (first_refused (data_view value.now))) }
    {
        let config = PrettyConfig::given(config);
        to_string(
            alloc,
            value,
            self.default_extensions,
            self.recursion_limit,
            &config,
        )
    }
}
