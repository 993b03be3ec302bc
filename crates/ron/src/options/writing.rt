//! Writing types that carry their schema.
ghost use Rattle.std.specs.Prelude.{◌≡◌, ⊤};
ghost use Rattle.ron_base.specs.declared.error.Error.TheVariants.{Fmt};
ghost use Rattle.ron_spec_layout.specs.Config.{no_config};
ghost use Rattle.ron_ser_config.specs.View.{config_view};
ghost use Rattle.ron.specs.Types.{WritesText, WritesTo, WritesToDevice};

use super::Options;
use ron_base::error::Result;
use ron_base_device::adapters::Writer;
use ron_base_device::puts::ToFmt;
use ron_ser::head::check_blank;
use ron_ser::put::put_document;
use ron_ser::settings::Settings;
use ron_ser_config::config::PrettyConfig;
use ron_types::traits::Serialize;
use std::alloc::Global;
use std::{fmt, io};

impl Options {
    /// The compact text of a value, as `to_string_data` answers it of its data.
    pub fn to_string<T: Serialize>(&self, alloc: Global, value: &T) -> Result<String>
        ensures { WritesText self.now.default_extensions self.now.recursion_limit no_config (T.data value.now) result }
    {
        let data = value.to_data(alloc)?;
        self.to_string_data(alloc, &data, None)
    }

    /// The text of a value by a configuration, likewise.
    pub fn to_string_pretty<T: Serialize>(
        &self,
        alloc: Global,
        value: &T,
        config: PrettyConfig,
    ) -> Result<String>
        ensures { WritesText self.now.default_extensions self.now.recursion_limit (config_view config)
            (T.data value.now) result }
    {
        let data = value.to_data(alloc)?;
        self.to_string_data(alloc, &data, Some(config))
    }

    /// Writes the compact text of a value. On an error the writer holds a beginning of it, and what a write that failed
    /// left; such a write is `Fmt`, and the last. By a layout with a text that isn't blank nothing is written.
    pub fn to_writer<W: fmt::Write, T: Serialize>(
        &self,
        alloc: Global,
        writer: &mut W,
        value: &T,
    ) -> Result<()>
        ensures { WritesTo W.write_str_gives (λ _ _ _. ⊤) (λ _ e. e ≡ Fmt) self.now.default_extensions
            self.now.recursion_limit no_config (T.data value.now) writer.old writer.new result }
    {
        self.to_writer_pretty(alloc, writer, value, PrettyConfig::plain())
    }

    /// Writes the text of a value by a configuration, likewise.
    pub fn to_writer_pretty<W: fmt::Write, T: Serialize>(
        &self,
        alloc: Global,
        writer: &mut W,
        value: &T,
        config: PrettyConfig,
    ) -> Result<()>
        ensures { WritesTo W.write_str_gives (λ _ _ _. ⊤) (λ _ e. e ≡ Fmt) self.now.default_extensions
            self.now.recursion_limit (config_view config) (T.data value.now) writer.old writer.new result }
    {
        check_blank(alloc, &config)?;
        let data = value.to_data(alloc)?;
        let settings = Settings {
            alloc,
            extensions: self.default_extensions,
            limit: self.recursion_limit,
            config: &config,
        };
        put_document(writer, &ToFmt, &data, &settings)
    }

    /// Writes the compact text of a value to a device, as `to_sink_data` writes its data.
    pub fn to_io_writer<W: io::Write, T: Serialize>(
        &self,
        alloc: Global,
        writer: &mut W,
        value: &T,
    ) -> Result<()>
        ensures { WritesToDevice W.contents self.now.default_extensions self.now.recursion_limit no_config
            (T.data value.now) writer.old writer.new result }
    {
        let data = value.to_data(alloc)?;
        self.to_sink_data(alloc, &mut Writer::new(writer), &data, None)
    }

    /// Writes the text of a value by a configuration to a device, likewise.
    pub fn to_io_writer_pretty<W: io::Write, T: Serialize>(
        &self,
        alloc: Global,
        writer: &mut W,
        value: &T,
        config: PrettyConfig,
    ) -> Result<()>
        ensures { WritesToDevice W.contents self.now.default_extensions self.now.recursion_limit (config_view config)
            (T.data value.now) writer.old writer.new result }
    {
        let data = value.to_data(alloc)?;
        self.to_sink_data(alloc, &mut Writer::new(writer), &data, Some(config))
    }
}
