//! Writing, and how text is laid out.
ghost use Rattle.std.specs.Prelude.{◌≡◌, ⊤, true, false, Some, IfOk, OnOk, IfErr, OnErr};
ghost use Rattle.std.specs.Fmt.{WritesInCalls};
ghost use Rattle.ron_base.specs.Extensions.{no_extensions};
ghost use Rattle.ron_base.specs.Limit.{IsWithin};
ghost use Rattle.ron_spec_layout.specs.Bytes.{announcements_bytes, layout_bytes};
ghost use Rattle.ron_spec_layout.specs.Config.{blank, no_config};
ghost use Rattle.ron_spec_layout.specs.Layout.{extensions_under};
ghost use Rattle.ron_spec_layout.specs.Name.{names_ok};
ghost use Rattle.ron_spec_layout.specs.Encodable.{is_encodable};
ghost use Rattle.ron_spec_layout.specs.Depth.{writer_depth};
ghost use Rattle.ron_ser_config.specs.View.{config_view, config_given};
ghost use Rattle.ron_data.specs.Datum.{data_view};
ghost use Rattle.ron.specs.Writing.{RefusesHead, RefusesWriterHead, StopsNext};
ghost use Rattle.ron.specs.Types.{WritesText, WritesTo};
ghost use Rattle.ron_base.specs.declared.error.Error.TheVariants.{Fmt};

use crate::options::Options;
use ron_base::error::{Error, Result};
use ron_base::extensions::Extensions;
use ron_data::data::Data;
use ron_ser::head::check_blank;
use ron_ser::put::{put_announcements, put_layout};
use ron_ser::settings::Settings;
use ron_types::traits::Serialize;
use std::alloc::Global;
use std::fmt;

pub mod path_meta;

pub use ron_base_device::adapters::Writer;
pub use ron_base_device::puts::{Puts, ToFmt, ToText};
pub use ron_base_device::sink::Sink;
pub use ron_ser_config::config::PrettyConfig;

/// Writes data to a writer, value by value, by one configuration. `P` is how text is put into the writer: any
/// `fmt::Write` takes it by `ToFmt`, of which a failed write is `Fmt` and nothing is told of what it left.
#[derive(Drop)]
pub struct Serializer<W, P = ToFmt> {
    output: W,
    by: P,
    alloc: Global,
    config: PrettyConfig,
    extensions: Extensions,
    recursion_limit: Option<usize>,
    has_failed: bool,
    ghost blank: { blank (config_view config) ≡ true },
}

impl<W: fmt::Write + Drop> Serializer<W> {
    /// Writing to a writer by the default options, as `with_options` does.
    pub fn new(alloc: Global, writer: W, config: Option<PrettyConfig>) -> Result<Self>
        ensures announced { IfOk result (λ s. WritesInCalls W.write_str_gives writer
            (announcements_bytes no_extensions (config_given config)) s.output) }
        ensures config { IfOk result (λ s. config_view s.config ≡ config_given config) }
        ensures extensions { IfOk result (λ s. s.extensions ≡ extensions_under no_extensions (config_given config)) }
        ensures limit { IfOk result (λ s. s.recursion_limit ≡ Some 128) }
        ensures open { IfOk result (λ s. s.has_failed ≡ false) }
        ensures refused { IfErr result (RefusesWriterHead (config_given config)) }
    {
        Serializer::with_options(alloc, writer, config, &Options::default())
    }

    /// Writing to a writer by these options: it has written the announcements of the configuration's extensions that
    /// are no defaults. A configuration of which a text holds anything but blanks is refused by `Message`, before
    /// anything is written; a failed write is `Fmt`. Where it refuses, the writer is given up.
    pub fn with_options(
        alloc: Global,
        writer: W,
        config: Option<PrettyConfig>,
        options: &Options,
    ) -> Result<Self>
        ensures announced { IfOk result (λ s. WritesInCalls W.write_str_gives writer
            (announcements_bytes options.now.default_extensions (config_given config)) s.output) }
        ensures config { IfOk result (λ s. config_view s.config ≡ config_given config) }
        ensures extensions { IfOk result (λ s.
            s.extensions ≡ extensions_under options.now.default_extensions (config_given config)) }
        ensures limit { IfOk result (λ s. s.recursion_limit ≡ options.now.recursion_limit) }
        ensures open { IfOk result (λ s. s.has_failed ≡ false) }
        ensures refused { IfErr result (RefusesWriterHead (config_given config)) }
    {
        Serializer::through(alloc, writer, ToFmt, config, options)
    }
}

impl<W: Drop, P: Puts<W> + Drop> Serializer<W, P> {
    /// The same, where text is put into the writer in a way of one's own, which tells what a put that fails is refused
    /// by, and what it leaves.
    pub fn through(
        alloc: Global,
        writer: W,
        by: P,
        config: Option<PrettyConfig>,
        options: &Options,
    ) -> Result<Self>
        ensures announced { IfOk result (λ s. WritesInCalls P.took writer
            (announcements_bytes options.now.default_extensions (config_given config)) s.output) }
        ensures config { IfOk result (λ s. config_view s.config ≡ config_given config) }
        ensures extensions { IfOk result (λ s.
            s.extensions ≡ extensions_under options.now.default_extensions (config_given config)) }
        ensures limit { IfOk result (λ s. s.recursion_limit ≡ options.now.recursion_limit) }
        ensures open { IfOk result (λ s. s.has_failed ≡ false) }
        ensures refused { IfErr result (RefusesHead P.refuses (config_given config)) }
    {
        let config = PrettyConfig::given(config);
        check_blank(alloc, &config)?;
        let mut output = writer;
        put_announcements(&mut output, &by, options.default_extensions, &config)?;
        Ok(Serializer {
            output,
            by,
            alloc,
            extensions: options.default_extensions.union(config.extensions),
            config,
            recursion_limit: options.recursion_limit,
            has_failed: false,
        })
    }

    /// Writes the layout of the data at level 0, as `Options::to_string_data` does, but for the announcements. After a
    /// refusal it answers `Failed`, and writes no more; what the writer then holds is a beginning of the layout, and
    /// what a put that failed left.
    pub fn write(&mut self, value: &Data) -> Result<()>
        ensures text { OnOk result (WritesInCalls P.took self.old.output
            (layout_bytes (config_view self.old.config) self.old.extensions 0 (config_view self.old.config).docs false
            (data_view value.now)) self.new.output) }
        ensures names { OnOk result (names_ok (data_view value.now) ≡ true) }
        ensures encodable { OnOk result (is_encodable false (data_view value.now) ≡ true) }
        ensures within { OnOk result (IsWithin self.old.recursion_limit
            (writer_depth (config_view self.old.config) (data_view value.now))) }
        ensures open { OnOk result (self.old.has_failed ≡ false) }
        ensures stays_open { OnOk result (self.new.has_failed ≡ false) }
        ensures stopped { IfErr result (StopsNext P.took P.left P.refuses self.old.has_failed
            (config_view self.old.config) self.old.recursion_limit (data_view value.now) self.old.output
            (layout_bytes (config_view self.old.config) self.old.extensions 0 (config_view self.old.config).docs false
            (data_view value.now)) self.new.output) }
        ensures failed { OnErr result (self.new.has_failed ≡ true) }
        ensures config { self.new.config ≡ self.old.config }
        ensures extensions { self.new.extensions ≡ self.old.extensions }
        ensures limit { self.new.recursion_limit ≡ self.old.recursion_limit }
    {
        if self.has_failed {
            return Err(Error::Failed);
        }
        let settings = Settings {
            alloc: self.alloc,
            extensions: self.extensions,
            limit: self.recursion_limit,
            config: &self.config,
        };
        let answer = put_layout(&mut self.output, &self.by, value, &settings);
        self.has_failed = answer.is_err();
        answer
    }

    /// The writer, with all that was written.
    pub fn into_inner(self) -> W
        ensures { result ≡ self.output }
    {
        self.output
    }
}

/// The compact text of a value, by the default options.
pub fn to_string<T: Serialize>(alloc: Global, value: &T) -> Result<String>
    ensures { WritesText no_extensions (Some 128) no_config (T.data value.now) result }
{
    Options::default().to_string(alloc, value)
}

/// The text of a value by a configuration, likewise.
pub fn to_string_pretty<T: Serialize>(
    alloc: Global,
    value: &T,
    config: PrettyConfig,
) -> Result<String>
    ensures { WritesText no_extensions (Some 128) (config_view config) (T.data value.now) result }
{
    Options::default().to_string_pretty(alloc, value, config)
}

/// Writes the compact text of a value to a writer, as `Options::to_writer` does by the default options.
pub fn to_writer<W: fmt::Write, T: Serialize>(
    alloc: Global,
    writer: &mut W,
    value: &T,
) -> Result<()>
    ensures { WritesTo W.write_str_gives (λ _ _ _. ⊤) (λ _ e. e ≡ Fmt) no_extensions (Some 128) no_config
        (T.data value.now) writer.old writer.new result }
{
    Options::default().to_writer(alloc, writer, value)
}

/// Writes the text of a value by a configuration, likewise.
pub fn to_writer_pretty<W: fmt::Write, T: Serialize>(
    alloc: Global,
    writer: &mut W,
    value: &T,
    config: PrettyConfig,
) -> Result<()>
    ensures { WritesTo W.write_str_gives (λ _ _ _. ⊤) (λ _ e. e ≡ Fmt) no_extensions (Some 128) (config_view config)
        (T.data value.now) writer.old writer.new result }
{
    Options::default().to_writer_pretty(alloc, writer, value, config)
}
