//! Data as a whole text.
ghost use Rattle.std.specs.Prelude.{◌≡◌, true, false, chars, string_bytes, IfOk, OnOk, OnErr, IfErr};
ghost use Rattle.std.specs.Fmt.{WritesInCalls};
ghost use Rattle.ron_spec_layout.specs.Bytes.{full_layout_bytes};
ghost use Rattle.ron_spec_layout.specs.Config.{blank};
ghost use Rattle.ron_spec_layout.specs.Layout.{full_layout};
ghost use Rattle.ron_spec_layout.specs.Name.{names_ok, first_refused};
ghost use Rattle.ron_spec_layout.specs.Encodable.{is_encodable};
ghost use Rattle.ron_spec_layout.specs.Depth.{writer_depth};
ghost use Rattle.ron_data.specs.Datum.{data_view};
ghost use Rattle.ron_base.specs.Limit.{IsWithin};
ghost use Rattle.ron_ser_config.specs.View.{config_view};
ghost use Rattle.ron_base_device.specs.Begun.{HasBegun};
ghost use Rattle.ron_ser.specs.Refusals.{RefusesWriting, RefusesText, HoldsName};

use crate::head::{check_blank, write_announcements};
use crate::layout::write_layout;
use crate::put::put_document;
use crate::settings::Settings;
use ron_base::error::Result;
use ron_base::extensions::Extensions;
use ron_base_device::output::Output;
use ron_base_device::puts::ToText;
use ron_data::data::Data;
use ron_ser_config::config::PrettyConfig;
use std::alloc::Global;

/// Writes the layout of the data by settings, as `write_layout` does, behind announcements of the configuration's
/// extensions that weren't in force before.
pub fn write_document<O: Output>(out: &mut O, value: &Data, settings: &Settings) -> Result<()>
    requires { blank (config_view settings.now.config.now) ≡ true }
    ensures text { OnOk result (WritesInCalls O.puts out.old
        (full_layout_bytes settings.now.extensions (config_view settings.now.config.now) (data_view value.now)) out.new) }
    ensures names { OnOk result (names_ok (data_view value.now) ≡ true) }
    ensures within { OnOk result (IsWithin settings.now.limit
        (writer_depth (config_view settings.now.config.now) (data_view value.now))) }
    ensures refused { IfErr result
        (RefusesWriting (config_view settings.now.config.now) settings.now.limit (data_view value.now)) }
    ensures refused_name { IfErr result (HoldsName (first_refused (data_view value.now))) }
    ensures encodable { OnOk result (is_encodable false (data_view value.now) ≡ true) }
    ensures beginning { OnErr result (HasBegun O.puts out.old
        (full_layout_bytes settings.now.extensions (config_view settings.now.config.now) (data_view value.now)) out.new) }
{
    write_announcements(out, settings.extensions, settings.config);
    let extensions = settings.extensions.union(settings.config.extensions);
    let announced = Settings {
        extensions,
        ..*settings
    };
    write_layout(out, value, &announced)
}

/// The layout of the data by a configuration, whose extensions are announced where they are no defaults, at most
/// `limit` levels deep. There is no text with an error: a configuration of which a text holds anything but blanks is
/// refused by `Message`, want of memory by `OutOfMemory`, and all else as by `write_layout`.
pub fn to_string(
    alloc: Global,
    value: &Data,
    defaults: Extensions,
    limit: Option<usize>,
    config: &PrettyConfig,
) -> Result<String>
    ensures text { IfOk result (λ s.
        string_bytes s ≡ full_layout_bytes defaults (config_view config.now) (data_view value.now)) }
    ensures chars { IfOk result (λ s.
        chars (string_bytes s) ≡ full_layout defaults (config_view config.now) (data_view value.now)) }
    ensures blank { OnOk result (blank (config_view config.now) ≡ true) }
    ensures names { OnOk result (names_ok (data_view value.now) ≡ true) }
    ensures within { OnOk result (IsWithin limit (writer_depth (config_view config.now) (data_view value.now))) }
    ensures encodable { OnOk result (is_encodable false (data_view value.now) ≡ true) }
    ensures refused { IfErr result (RefusesText (config_view config.now) limit (data_view value.now)) }
    ensures refused_name { IfErr result (HoldsName (first_refused (data_view value.now))) }
{
    check_blank(alloc, config)?;
    let mut text = String::new(alloc);
    let settings = Settings {
        alloc,
        extensions: defaults,
        limit,
        config,
    };
    put_document(&mut text, &ToText, value, &settings)?;
    Ok(text)
}
