//! Reading sources and readers, and writing to sinks.
use super::Options;
use ron_base::error::{Result, SpannedError, SpannedResult};
use ron_base_device::adapters::Reader;
use ron_base_device::sink::Sink;
use ron_base_device::source::{Source, pull_all};
use ron_base_device::utf8::{text_of, valid_span};
use ron_data::data::Data;
use ron_data_schema::schema::Schema;
use ron_ser::settings::Settings;
use ron_ser::sink::to_sink;
use ron_ser_config::config::PrettyConfig;
use std::alloc::Global;
use std::io;

impl Options {
    ghost use Rattle.std.specs.Prelude.{◌≡◌, true, false, IfErr, OnOk, OnErr};
    ghost use Rattle.std.specs.Io.KnownBytes.{Appends};
    ghost use Rattle.ron_base.specs.Limit.{IsWithin};
    ghost use Rattle.ron_data_schema.specs.Table.{table_of};
    ghost use Rattle.ron_data.specs.Datum.{data_view};
    ghost use Rattle.ron_spec_layout.specs.Bytes.{full_layout_bytes};
    ghost use Rattle.ron_spec_layout.specs.Config.{blank};
    ghost use Rattle.ron_spec_layout.specs.Name.{names_ok, first_refused};
    ghost use Rattle.ron_spec_layout.specs.Encodable.{is_encodable};
    ghost use Rattle.ron_spec_layout.specs.Depth.{writer_depth};
    ghost use Rattle.ron_ser_config.specs.View.{config_given};
    ghost use Rattle.ron_base_device.specs.Device.{TakesFront};
    ghost use Rattle.ron_ser.specs.Refusals.{RefusesSink, HoldsName};
    ghost use Rattle.ron.specs.Bytes.{ReadsSource, ReadsReader, ReadsGiven, TellsFailure, TellsReaderFault, LeavesRest, IsIo, IsInGiven, IsInValidFront};

    /// Reads a source to its end by the schema, and its bytes as `from_bytes_seed` reads them; the data borrows nothing.
    /// A source that fails is refused by `Io`, with the span from the start to the end of the longest front that is
    /// UTF-8 of what it gave; the fault is not tried again. One that never ends is refused by `OutOfMemory` at last.
    pub fn from_source_seed<'o, S: Source>(
        &self,
        alloc: Global,
        source: &mut S,
        schema: &Schema,
    ) -> SpannedResult<Data<'o>>
        ensures reads { ReadsSource (S.failed source.old) (S.failed source.new) self.now.default_extensions
            self.now.recursion_limit (table_of schema.now) (S.remaining source.old) (S.remaining source.new) result }
        ensures failed { IfErr result (TellsFailure (S.failed source.new) (S.remaining source.old)
            (S.remaining source.new)) }
        ensures place { IfErr result (IsInGiven (S.remaining source.old) (S.remaining source.new)) }
        ensures left { LeavesRest (S.remaining source.old) (S.remaining source.new) }
        ensures same { S.device source.new ≡ S.device source.old }
    {
        let (bytes, over) = pull_all(alloc, source);
        match over {
            Ok(()) => self.owned_from_bytes(alloc, bytes.as_slice(), schema),
            Err(code) => Err(SpannedError {
                code,
                span: valid_span(bytes.as_slice()),
            }),
        }
    }

    /// Reads a reader to its end likewise. Where it answers data or refuses what was read, the reader has nothing left;
    /// where the reader fails or no memory is found, it has left what stands behind what it gave.
    pub fn from_reader_seed<'o, R: io::Read>(
        &self,
        alloc: Global,
        reader: &mut R,
        schema: &Schema,
    ) -> SpannedResult<Data<'o>>
        ensures reads { ReadsReader self.now.default_extensions self.now.recursion_limit (table_of schema.now)
            (R.remaining reader.old) (R.remaining reader.new) result }
        ensures failed { IfErr result (TellsReaderFault (R.remaining reader.old) (R.remaining reader.new)) }
        ensures place { IfErr result (IsInGiven (R.remaining reader.old) (R.remaining reader.new)) }
        ensures left { LeavesRest (R.remaining reader.old) (R.remaining reader.new) }
    {
        self.from_source_seed(alloc, &mut Reader::new(reader), schema)
    }

    /// Reads bytes by the schema as data that borrows nothing.
    fn owned_from_bytes<'o>(
        &self,
        alloc: Global,
        bytes: &[u8],
        schema: &Schema,
    ) -> SpannedResult<Data<'o>>
        ensures reads { ReadsGiven self.now.default_extensions self.now.recursion_limit (table_of schema.now)
            bytes.now result }
        ensures no_device { IfErr result (λ refused. IsIo refused.code → ⊥) }
        ensures place { IfErr result (IsInValidFront bytes.now) }
    {
        let text = text_of(bytes)?;
        self.read_document(alloc, text, schema, None)
    }

    /// Has a sink take the text that `to_string_data` answers, in pieces of some thousand bytes, and no more. On an error
    /// the sink has taken a beginning of the text. A push that fails is refused by `Io`, and is not tried again; all else
    /// is refused as by `to_string_data`.
    pub fn to_sink_data<S: Sink>(
        &self,
        alloc: Global,
        sink: &mut S,
        value: &Data,
        config: Option<PrettyConfig>,
    ) -> Result<()>
        ensures taken { OnOk result (Appends (S.contents sink.old) (S.contents sink.new)
            (full_layout_bytes self.now.default_extensions (config_given config) (data_view value.now))) }
        ensures kept { OnOk result (S.failed sink.new ≡ S.failed sink.old) }
        ensures same { S.device sink.new ≡ S.device sink.old }
        ensures blank { OnOk result (blank (config_given config) ≡ true) }
        ensures untouched { blank (config_given config) ≡ false → sink.new ≡ sink.old }
        ensures names { OnOk result (names_ok (data_view value.now) ≡ true) }
        ensures encodable { OnOk result (is_encodable false (data_view value.now) ≡ true) }
        ensures within { OnOk result (IsWithin self.now.recursion_limit
            (writer_depth (config_given config) (data_view value.now))) }
        ensures beginning { OnErr result (TakesFront (S.contents sink.old) (S.contents sink.new)
            (full_layout_bytes self.now.default_extensions (config_given config) (data_view value.now))) }
        ensures refused { IfErr result (RefusesSink (S.failed sink.new) (config_given config)
            self.now.recursion_limit (data_view value.now)) }
        ensures refused_name { IfErr result (HoldsName (first_refused (data_view value.now))) }
    {
        let config = PrettyConfig::given(config);
        let settings = Settings {
            alloc,
            extensions: self.default_extensions,
            limit: self.recursion_limit,
            config: &config,
        };
        to_sink(sink, value, &settings)
    }
}
