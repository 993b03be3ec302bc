//! Data into a sink.
ghost use Rattle.std.specs.Prelude.{◌≡◌, true, false, OnOk, OnErr, IfErr};
ghost use Rattle.std.specs.Io.KnownBytes.{Appends};
ghost use Rattle.ron_spec_layout.specs.Bytes.{full_layout_bytes};
ghost use Rattle.ron_spec_layout.specs.Config.{blank};
ghost use Rattle.ron_spec_layout.specs.Name.{names_ok, first_refused};
ghost use Rattle.ron_spec_layout.specs.Encodable.{is_encodable};
ghost use Rattle.ron_spec_layout.specs.Depth.{writer_depth};
ghost use Rattle.ron_data.specs.Datum.{data_view};
ghost use Rattle.ron_base.specs.Limit.{IsWithin};
ghost use Rattle.ron_ser_config.specs.View.{config_view};
ghost use Rattle.ron_base_device.specs.Device.{TakesFront};
ghost use Rattle.ron_ser.specs.Refusals.{RefusesSink, HoldsName};

use crate::head::check_blank;
use crate::put::put_document;
use crate::settings::Settings;
use ron_base::error::Result;
use ron_base_device::gathered::Gathered;
use ron_base_device::puts::ToSink;
use ron_base_device::sink::Sink;
use ron_data::data::Data;

/// Has a sink take the text that `to_string` answers, in pieces of some thousand bytes. On an error the sink has taken a
/// beginning of the text. A push that fails is `Io`, and is not tried again; all else is refused as by `to_string`.
pub fn to_sink<S: Sink>(sink: &mut S, value: &Data, settings: &Settings) -> Result<()>
    ensures taken { OnOk result (Appends (S.contents sink.old) (S.contents sink.new)
        (full_layout_bytes settings.now.extensions (config_view settings.now.config.now) (data_view value.now))) }
    ensures kept { OnOk result (S.failed sink.new ≡ S.failed sink.old) }
    ensures same { S.device sink.new ≡ S.device sink.old }
    ensures blank { OnOk result (blank (config_view settings.now.config.now) ≡ true) }
    ensures untouched { blank (config_view settings.now.config.now) ≡ false → sink.new ≡ sink.old }
    ensures names { OnOk result (names_ok (data_view value.now) ≡ true) }
    ensures within { OnOk result (IsWithin settings.now.limit
        (writer_depth (config_view settings.now.config.now) (data_view value.now))) }
    ensures encodable { OnOk result (is_encodable false (data_view value.now) ≡ true) }
    ensures beginning { OnErr result (TakesFront (S.contents sink.old) (S.contents sink.new)
        (full_layout_bytes settings.now.extensions (config_view settings.now.config.now) (data_view value.now))) }
    ensures refused { IfErr result (RefusesSink (S.failed sink.new) (config_view settings.now.config.now)
        settings.now.limit (data_view value.now)) }
    ensures refused_name { IfErr result (HoldsName (first_refused (data_view value.now))) }
{
    check_blank(settings.alloc, settings.config)?;
    let mut bytes = Vec::new(settings.alloc);
    let mut gathered = Gathered::new(settings.alloc, sink, &mut bytes);
    put_document(&mut gathered, &ToSink, value, settings)?;
    gathered.pass_on()
}
