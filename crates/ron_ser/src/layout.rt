//! Data as the layout has it, at level 0.
ghost use Rattle.std.specs.Prelude.{◌≡◌, true, false, OnOk, OnErr, IfErr};
ghost use Rattle.std.specs.Fmt.{WritesInCalls};
ghost use Rattle.ron_spec_layout.specs.Bytes.{layout_bytes};
ghost use Rattle.ron_spec_layout.specs.Config.{blank};
ghost use Rattle.ron_spec_layout.specs.Name.{names_ok, first_refused};
ghost use Rattle.ron_spec_layout.specs.Encodable.{is_encodable};
ghost use Rattle.ron_spec_layout.specs.Depth.{writer_depth};
ghost use Rattle.ron_data.specs.Datum.{data_view};
ghost use Rattle.ron_base.specs.Limit.{IsWithin};
ghost use Rattle.ron_ser_config.specs.View.{config_view};
ghost use Rattle.ron_base_device.specs.Begun.{HasBegun};
ghost use Rattle.ron_ser.specs.Refusals.{RefusesWriting, HoldsName};
ghost use Rattle.ron_ser.specs.Written.{Writes, WritesFront};
ghost use Rattle.ron_ser.specs.Stand.{place_of};

use crate::settings::Settings;
use crate::somes::{Manner, Somes};
use crate::value::write_piece;
use crate::writing::Writing;
use ron_base::error::Result;
use ron_base_device::output::Output;
use ron_data::data::Data;
use std::alloc::Global;

/// Writes the layout of the data by settings, at level 0. A name that no identifier spells is refused by
/// `InvalidIdentifier`, which holds the first one, and data that nests deeper than the limit by
/// `ExceededRecursionLimit`; a beginning of the text was then put.
pub fn write_layout<O: Output>(out: &mut O, value: &Data, settings: &Settings) -> Result<()>
    requires { blank (config_view settings.now.config.now) ≡ true }
    ensures text { OnOk result (WritesInCalls O.puts out.old
        (layout_bytes (config_view settings.now.config.now) settings.now.extensions 0
        (config_view settings.now.config.now).docs false (data_view value.now)) out.new) }
    ensures names { OnOk result (names_ok (data_view value.now) ≡ true) }
    ensures within { OnOk result (IsWithin settings.now.limit
        (writer_depth (config_view settings.now.config.now) (data_view value.now))) }
    ensures refused { IfErr result
        (RefusesWriting (config_view settings.now.config.now) settings.now.limit (data_view value.now)) }
    ensures refused_name { IfErr result (HoldsName (first_refused (data_view value.now))) }
    ensures encodable { OnOk result (is_encodable false (data_view value.now) ≡ true) }
    ensures beginning { OnErr result (HasBegun O.puts out.old
        (layout_bytes (config_view settings.now.config.now) settings.now.extensions 0
        (config_view settings.now.config.now).docs false (data_view value.now)) out.new) }
{
    let writing = Writing::new(settings);
    write_value(out, value, settings.alloc, &writing)
}

/// Writes the layout of the data where it is to stand, likewise.
fn write_value<O: Output>(out: &mut O, value: &Data, alloc: Global, writing: &Writing) -> Result<()>
    requires { blank (place_of writing.now).config ≡ true }
    ensures text { OnOk result (Writes (place_of writing.now) O.puts out.old (data_view value.now) out.new) }
    ensures names { OnOk result (names_ok (data_view value.now) ≡ true) }
    ensures within { OnOk result (IsWithin writing.now.limit (writer_depth (place_of writing.now).config (data_view value.now))) }
    ensures refused { IfErr result (RefusesWriting (place_of writing.now).config writing.now.limit (data_view value.now)) }
    ensures refused_name { IfErr result (HoldsName (first_refused (data_view value.now))) }
    ensures encodable { OnOk result (is_encodable false (data_view value.now) ≡ true) }
    ensures beginning { OnErr result (WritesFront (place_of writing.now) O.puts
        out.old (data_view value.now) out.new) }
{
    let manner = Manner {
        bare: false,
        somes: Somes::Unasked,
    };
    match write_piece(out, value, writing, manner) {
        Ok(()) => Ok(()),
        Err(refusal) => Err(refusal.error(alloc)),
    }
}
