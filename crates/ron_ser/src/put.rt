//! Data put into a writer, in a way that tells what a put leaves.
ghost use Rattle.std.specs.Prelude.{◌≡◌, true, false, OnOk};
ghost use Rattle.ron_spec_layout.specs.Bytes.{announcements_bytes, layout_bytes, full_layout_bytes};
ghost use Rattle.ron_spec_layout.specs.Config.{blank};
ghost use Rattle.ron_spec_layout.specs.Name.{names_ok};
ghost use Rattle.ron_spec_layout.specs.Encodable.{is_encodable};
ghost use Rattle.ron_spec_layout.specs.Depth.{writer_depth};
ghost use Rattle.ron_data.specs.Datum.{data_view};
ghost use Rattle.ron_base.specs.Limit.{IsWithin};
ghost use Rattle.ron_ser_config.specs.View.{config_view};
ghost use Rattle.ron_ser.specs.Refusals.{RefusesData};
ghost use Rattle.ron_ser.specs.Put.{TriesToPut};

use crate::head::write_announcements;
use crate::layout::write_layout;
use crate::settings::Settings;
use crate::text::write_document;
use ron_base::error::Result;
use ron_base::extensions::Extensions;
use ron_base_device::output::{OutputFault, TextOutput};
use ron_base_device::puts::Puts;
use ron_data::data::Data;
use ron_ser_config::config::PrettyConfig;

/// Puts the layout of the data by settings, as `write_layout` writes it, behind announcements of the configuration's
/// extensions that weren't in force before. A put that fails is answered, and is the last.
pub fn put_document<W, P: Puts<W>>(
    writer: &mut W,
    by: &P,
    value: &Data,
    settings: &Settings,
) -> Result<()>
    requires { blank (config_view settings.now.config.now) ≡ true }
    ensures put { TriesToPut P.took P.left P.refuses
        (RefusesData (config_view settings.now.config.now) settings.now.limit (data_view value.now)) writer.old
        (full_layout_bytes settings.now.extensions (config_view settings.now.config.now) (data_view value.now)) writer.new result }
    ensures names { OnOk result (names_ok (data_view value.now) ≡ true) }
    ensures within { OnOk result (IsWithin settings.now.limit
        (writer_depth (config_view settings.now.config.now) (data_view value.now))) }
    ensures encodable { OnOk result (is_encodable false (data_view value.now) ≡ true) }
{
    let mut fault = OutputFault::none();
    let mut output = TextOutput::new(writer, by, &mut fault);
    let written = write_document(&mut output, value, settings);
    fault.answer(written)
}

/// Puts the layout of the data by settings at level 0, likewise, and no announcements.
pub fn put_layout<W, P: Puts<W>>(
    writer: &mut W,
    by: &P,
    value: &Data,
    settings: &Settings,
) -> Result<()>
    requires { blank (config_view settings.now.config.now) ≡ true }
    ensures put { TriesToPut P.took P.left P.refuses
        (RefusesData (config_view settings.now.config.now) settings.now.limit (data_view value.now)) writer.old
        (layout_bytes (config_view settings.now.config.now) settings.now.extensions 0
        (config_view settings.now.config.now).docs false (data_view value.now)) writer.new result }
    ensures names { OnOk result (names_ok (data_view value.now) ≡ true) }
    ensures within { OnOk result (IsWithin settings.now.limit
        (writer_depth (config_view settings.now.config.now) (data_view value.now))) }
    ensures encodable { OnOk result (is_encodable false (data_view value.now) ≡ true) }
{
    let mut fault = OutputFault::none();
    let mut output = TextOutput::new(writer, by, &mut fault);
    let written = write_layout(&mut output, value, settings);
    fault.answer(written)
}

/// Puts the announcements of a configuration's extensions that are no defaults.
pub fn put_announcements<W, P: Puts<W>>(
    writer: &mut W,
    by: &P,
    defaults: Extensions,
    config: &PrettyConfig,
) -> Result<()>
    ensures { TriesToPut P.took P.left P.refuses (λ _. ⊥) writer.old
        (announcements_bytes defaults (config_view config.now)) writer.new result }
{
    let mut fault = OutputFault::none();
    let mut output = TextOutput::new(writer, by, &mut fault);
    write_announcements(&mut output, defaults, config);
    fault.answer(Ok(()))
}
