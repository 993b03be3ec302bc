//! Maps in the order of their keys.
ghost use Rattle.std.specs.Prelude.{◌≡◌, [], map, IfOk, IfErr, MatchResult};
ghost use Rattle.ron_base.specs.declared.error.Error.TheVariants.{OutOfMemory};
ghost use Rattle.ron_data.specs.Datum.{pairs_view};
ghost use Rattle.ron_types.specs.Accepts.{IsMap};
ghost use Rattle.ron_types.specs.Faults.{OwnOr, PartOr, NoPart};
ghost use Rattle.ron_types.specs.Lists.{Each, Both};
ghost use Rattle.ron_types.specs.Normal.{entries_data, entries_normal, map_data, map_normal};
ghost use Rattle.ron_types.specs.Tables.{map_table};

use crate::refuse::another_kind;
use crate::tables::Parts;
use crate::traits::{Deserialize, MapKey, Schematic, Serialize};
use ron_base::error::Result;
use ron_data::data::Data;
use ron_data_schema::schema::{Schema, Shape};
use std::alloc::Global;
use std::collections::BTreeMap;

impl<K: MapKey, V: Schematic> Schematic for BTreeMap<K, V> {
    ghost schema_is = { map_table K.schema_is V.schema_is };

    ghost data = { λ m. map_data K.data V.data m.entries };

    ghost normal = { map_normal K.key_cmp K.normal V.normal };

    ghost accepts = { IsMap (Each (Both K.accepts V.accepts)) };

    fn schema(alloc: Global) -> Result<Schema> {
        let mut parts = Parts::new(alloc);
        let key = parts.add::<K>(alloc)?;
        let value = parts.add::<V>(alloc)?;
        parts.top(Shape::Map(key, value))
    }
}

impl<K: MapKey + Serialize, V: Serialize> Serialize for BTreeMap<K, V> {
    fn to_data(&self, alloc: Global) -> Result<Data<'_>> {
        let mut pairs = Vec::with_capacity(alloc, self.len())?;
        for (key, value) in self {
            let held = key.to_data(alloc)?;
            pairs.push((held, value.to_data(alloc)?))?;
        }
        Ok(Data::Map(pairs))
    }
}

impl<'de, K: MapKey + Deserialize<'de>, V: Deserialize<'de>> Deserialize<'de> for BTreeMap<K, V> {
    ghost refuses = { λ _. OwnOr (PartOr K.refuses (PartOr V.refuses NoPart)) };

    fn from_data(alloc: Global, from: Data<'de>) -> Result<Self> {
        match from {
            Data::Map(pairs) => entries_of(alloc, pairs),
            other => Err(another_kind(alloc, "a map", other)),
        }
    }
}

/// A map of what the pairs give: of equal keys the last one's value stands.
fn entries_of<'de, K: MapKey + Deserialize<'de>, V: Deserialize<'de>>(
    alloc: Global,
    pairs: Vec<(Data<'de>, Data<'de>)>,
) -> Result<BTreeMap<K, V>>
    ensures value { IfOk result (λ m. entries_data K.data V.data m.entries
        ≡ entries_normal K.key_cmp K.normal V.normal [] (pairs_view pairs.entry.items)) }
    ensures accepted { MatchResult result (λ _. Each (Both K.accepts V.accepts) pairs.entry.items)
        (λ e. Each (Both K.accepts V.accepts) pairs.entry.items → e ≡ OutOfMemory) }
    ensures refused { IfErr result (OwnOr (PartOr K.refuses (PartOr V.refuses NoPart))) }
{
    let mut entries = BTreeMap::new(alloc);
    for (key, value) in pairs {
        let key = K::from_data(alloc, key)?;
        let value = V::from_data(alloc, value)?;
        drop(entries.insert(key, value)?);
    }
    Ok(entries)
}
