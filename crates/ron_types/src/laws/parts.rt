//! Types that hold others: they refuse no data of their schemas where those refuse none of theirs.
ghost use Rattle.ron_types.specs.Laws.{AcceptsAll};

use crate::traits::{MapKey, Schematic};
use std::collections::BTreeMap;

/// Optional values, values in boxes, and lists.
pub fn parts_accept_their_data<T: Schematic>()
    ensures options { AcceptsAll T.schema_is T.accepts →
        AcceptsAll ⟦<Option<T> as Schematic>⟧.schema_is ⟦<Option<T> as Schematic>⟧.accepts }
    ensures boxes { AcceptsAll T.schema_is T.accepts →
        AcceptsAll ⟦<Box<T> as Schematic>⟧.schema_is ⟦<Box<T> as Schematic>⟧.accepts }
    ensures lists { AcceptsAll T.schema_is T.accepts →
        AcceptsAll ⟦<Vec<T> as Schematic>⟧.schema_is ⟦<Vec<T> as Schematic>⟧.accepts }
{}

/// Maps.
pub fn maps_accept_their_data<K: MapKey, V: Schematic>()
    ensures { AcceptsAll K.schema_is K.accepts → AcceptsAll V.schema_is V.accepts →
        AcceptsAll ⟦<BTreeMap<K, V> as Schematic>⟧.schema_is ⟦<BTreeMap<K, V> as Schematic>⟧.accepts }
{}
