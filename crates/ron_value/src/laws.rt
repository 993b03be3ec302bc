//! The laws of the order of values.

ghost use Rattle.std.specs.Prelude.{◌≡◌, ◌↔◌, IsTrue};
ghost use Rattle.std.specs.Cmp.{IsTotalOrder};
ghost use Rattle.ron_value.specs.declared.value.Value.{Value};
ghost use Rattle.ron_value.specs.declared.map.Map.{Map};
ghost use Rattle.ron_value.specs.Order.{tree_cmp};
ghost use Rattle.ron_value.specs.Statement.{OrdersByCase, OrdersByContent, OrdersMaps};
ghost use Rattle.ron_value.specs.View.{tree_of, map_tree};

use crate::map::Map;
use crate::value::Value;
use std::hash::Hash;

/// Values are in one total order, by case and then by content; they are equal exactly where they are the same tree,
/// and equal values hash alike. So are maps.
pub fn values_are_ordered()
    ensures total { IsTotalOrder tree_cmp }
    ensures by_case { OrdersByCase }
    ensures by_content { OrdersByContent }
    ensures value_order { (v w : Value) → ⟦<Value as Ord>⟧.cmp v w ≡ tree_cmp (tree_of v) (tree_of w) }
    ensures map_order { (m n : Map) → ⟦<Map as Ord>⟧.cmp m n ≡ tree_cmp (map_tree m) (map_tree n) }
    ensures equal_values { (v w : Value) → IsTrue (⟦<Value as PartialEq>⟧.eq v w) ↔ (tree_of v ≡ tree_of w) }
    ensures equal_maps { (m n : Map) → IsTrue (⟦<Map as PartialEq>⟧.eq m n) ↔ (map_tree m ≡ map_tree n) }
    ensures values_hash { (v w : Value) → tree_of v ≡ tree_of w →
        ⟦<Value as Hash>⟧.hash_input v ≡ ⟦<Value as Hash>⟧.hash_input w }
    ensures maps_hash { (m n : Map) → map_tree m ≡ map_tree n →
        ⟦<Map as Hash>⟧.hash_input m ≡ ⟦<Map as Hash>⟧.hash_input n }
{}

/// A map is ordered exactly where its keys ascend, each key once, and each key and each value is ordered.
pub fn ordered_maps_ascend()
    ensures { OrdersMaps }
{}
