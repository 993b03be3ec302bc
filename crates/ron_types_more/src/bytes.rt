//! Bytes: read of a byte string, or of a list of numbers.
ghost use Rattle.ron_spec_grammar.specs.Data as plain;
ghost use Rattle.ron_spec_grammar.specs.Schema as shapes;
ghost use Rattle.ron_types.specs.Faults.{IsRefusal};
ghost use Rattle.ron_types.specs.Normal.{unchanged};
ghost use Rattle.ron_types.specs.Tables.{leaf};
ghost use Rattle.ron_types_more.specs.RecoveryLaws.{bytes_recover};

use ron_base::error::Result;
use ron_data::data::Data;
use ron_data_schema::schema::{Schema, Shape};
use ron_lex_text::parsed::ParsedByteStr;
use ron_types::faithful::Faithful;
use ron_types::refuse::another_kind;
use ron_types::tables::leaf;
use ron_types::traits::{Deserialize, Schematic, Serialize};
use std::alloc::Global;

/// Bytes that a text has as a byte string, `b"a\xff"`, or as a list, `[97, 255]`. A `Vec<u8>` is a list alone.
#[derive(PartialEq, Drop)]
pub struct Bytes(pub Vec<u8>);

impl Schematic for Bytes {
    ghost use Rattle.ron_types_more.specs.Accepts.{IsBytes};

    ghost schema_is = { leaf shapes.bytes };

    ghost data = { λ b. plain.bytes_of b.0.items };

    ghost normal = { unchanged };

    ghost accepts = { IsBytes };

    fn schema(alloc: Global) -> Result<Schema> {
        leaf(alloc, Shape::Bytes)
    }
}

impl Serialize for Bytes {
    fn to_data(&self, alloc: Global) -> Result<Data<'_>> {
        Ok(Data::Bytes(ParsedByteStr::Slice(self.0.as_slice())))
    }
}

impl<'de> Deserialize<'de> for Bytes {
    ghost refuses = { λ _. IsRefusal };

    fn from_data(alloc: Global, from: Data<'de>) -> Result<Self> {
        match from {
            Data::Bytes(ParsedByteStr::Slice(bytes)) => Ok(Bytes(bytes.to_vec(alloc)?)),
            Data::Bytes(ParsedByteStr::Allocated(bytes)) => Ok(Bytes(bytes)),
            other => Err(another_kind(alloc, "bytes", other)),
        }
    }
}

impl Faithful for Bytes {
    type Parts = ();

    ghost recovers = { λ _. λ x y. bytes_recover x.0.items y.0.items };
}
