//! A service's settings.
#![tactic(auto, unfolding(ron_lex_text::proofs::StretchLemmas::literals))]

ghost use Rattle.std.specs.Prelude.{[], ◌∷◌, codes};
ghost use Rattle.ron.specs.FieldStructs.{table_of_fields, data_of_fields, normal_of_fields, IsOfFields};

use ron::error::Result;
use ron::schema::{Data, Deserialize, Schema, Schematic, Serialize};
use ron::types::{
    DefaultOf, FieldNames, FieldRow, May, Must, Or, OrNone, fields_data, fields_schema, from_fields,
};
use std::alloc::Global;

/// How a service is to run.
#[derive(Drop)]
pub struct Settings {
    pub name: String,
    pub listen: String,
    pub port: u16,
    pub workers: Option<u32>,
    pub log: Option<String>,
    pub roots: Vec<String>,
    pub verbose: bool,
}

/// The port of a service that names none.
pub struct UsualPort;

impl DefaultOf<u16> for UsualPort {
    ghost default_is = { ⟦<u16 as Schematic>⟧.data 8080 };

    fn make(alloc: Global) -> Result<u16> {
        Ok(8080)
    }
}

type Fields = (
    Must<String>,
    (
        Must<String>,
        (
            Or<u16, UsualPort>,
            (
                May<u32>,
                (OrNone<String>, (Must<Vec<String>>, (Must<bool>, ()))),
            ),
        ),
    ),
);

const NAMES: [(&str, &[&str]); 7] = [
    ("name", &[]),
    ("listen", &["bind"]),
    ("port", &["tcp_port"]),
    ("workers", &[]),
    ("log", &[]),
    ("roots", &[]),
    ("verbose", &[]),
];

impl FieldNames for Settings {
    ghost names = { (codes "name", []) ∷ (codes "listen", codes "bind" ∷ []) ∷ (codes "port", codes "tcp_port" ∷ [])
        ∷ (codes "workers", []) ∷ (codes "log", []) ∷ (codes "roots", []) ∷ (codes "verbose", []) ∷ [] };
}

impl Schematic for Settings {
    ghost schema_is = { table_of_fields (codes "Settings") ⟦<Settings as FieldNames>⟧.names
        ⟦<Fields as FieldRow>⟧.members ⟦<Fields as FieldRow>⟧.skips };

    ghost data = { λ s. data_of_fields (codes "Settings") ⟦<Settings as FieldNames>⟧.names
        (⟦<Fields as FieldRow>⟧.spelled (s.name, (s.listen, (s.port, (s.workers, (s.log, (s.roots, (s.verbose, tt)))))))) };

    ghost normal = { normal_of_fields ⟦<Settings as FieldNames>⟧.names ⟦<Fields as FieldRow>⟧.normals };

    ghost accepts = { IsOfFields (codes "Settings") ⟦<Settings as FieldNames>⟧.names ⟦<Fields as FieldRow>⟧.accepts };

    fn schema(alloc: Global) -> Result<Schema> {
        fields_schema::<Fields>(alloc, "Settings", &NAMES)
    }
}

impl Serialize for Settings {
    fn to_data(&self, alloc: Global) -> Result<Data<'_>> {
        let rest = (
            &self.workers,
            (&self.log, (&self.roots, (&self.verbose, ()))),
        );
        fields_data::<Fields>(
            alloc,
            "Settings",
            &NAMES,
            (&self.name, (&self.listen, (&self.port, rest))),
        )
    }
}

impl<'de> Deserialize<'de> for Settings {
    fn from_data(alloc: Global, from: Data<'de>) -> Result<Self> {
        match from_fields::<Fields>(alloc, "Settings", &NAMES, from) {
            Ok(values) => {
                let (name, (listen, (port, (workers, (log, (roots, (verbose, ()))))))) = values;
                Ok(Settings {
                    name,
                    listen,
                    port,
                    workers,
                    log,
                    roots,
                    verbose,
                })
            }
            Err(error) => Err(error),
        }
    }
}
