//! The order of values: one function compares, and `==` is where it answers `Equal`.

ghost use Rattle.std.specs.Prelude.{◌≡◌, map};
ghost use Rattle.std.specs.Ordering.{on, eq_by_cmp, as_partial_cmp};
ghost use Rattle.std.specs.Cmp.{partial_order_from_total, on_total};
ghost use Rattle.std.specs.Cmp.Rules.{comparing};
ghost use Rattle.std.specs.Cmp.Lexicographic.{slice_cmp};
ghost use Rattle.std.proofs.Common.{rules};
ghost use Rattle.ron_value.specs.Order.{tree_cmp, pair_cmp};
ghost use Rattle.ron_value.specs.OrderLaws.{tree_cmp_total};
ghost use Rattle.ron_value.specs.View.{tree_of, pair_tree, map_tree, value_cmp};

use crate::map::Map;
use crate::value::Value;
use std::cmp::Ordering;

#[cycle(compare)]
fn compare(a: &Value, b: &Value) -> Ordering
    ensures { result ≡ value_cmp a.now b.now }
{
    match (a, b) {
        (Value::Bool(x), Value::Bool(y)) => x.cmp(y),
        (Value::Char(x), Value::Char(y)) => x.cmp(y),
        (Value::Map(x), Value::Map(y)) => compare_maps(x, y),
        (Value::Number(x), Value::Number(y)) => x.cmp(y),
        (Value::Option(None), Value::Option(None)) => Ordering::Equal,
        (Value::Option(None), Value::Option(Some(_))) => Ordering::Less,
        (Value::Option(Some(_)), Value::Option(None)) => Ordering::Greater,
        (Value::Option(Some(x)), Value::Option(Some(y))) => compare(x, y),
        (Value::String(x), Value::String(y)) => x.as_str().cmp(y.as_str()),
        (Value::Bytes(x), Value::Bytes(y)) => x.as_slice().cmp(y.as_slice()),
        (Value::Seq(x), Value::Seq(y)) => compare_items(x, y),
        _ => a.case_place().cmp(&b.case_place()),
    }
}

#[cycle(compare)]
fn compare_maps(a: &Map, b: &Map) -> Ordering
    ensures { result ≡ tree_cmp (map_tree a.now) (map_tree b.now) }
{
    compare_pairs(&a.pairs, &b.pairs)
}

#[cycle(compare)]
fn compare_items(items: &[Value], others: &[Value]) -> Ordering
    ensures { result ≡ slice_cmp tree_cmp (map tree_of items.now) (map tree_of others.now) }
{
    let mut i = 0;
    while i < items.len() && i < others.len() {
        match compare(&items[i], &others[i]) {
            Ordering::Equal => i += 1,
            decided => return decided,
        }
    }
    items.len().cmp(&others.len())
}

#[cycle(compare)]
fn compare_pairs(pairs: &[(Value, Value)], others: &[(Value, Value)]) -> Ordering
    ensures { result ≡ slice_cmp pair_cmp (map pair_tree pairs.now) (map pair_tree others.now) }
{
    let mut i = 0;
    while i < pairs.len() && i < others.len() {
        match compare(&pairs[i].0, &others[i].0) {
            Ordering::Equal => {}
            decided => return decided,
        }
        match compare(&pairs[i].1, &others[i].1) {
            Ordering::Equal => i += 1,
            decided => return decided,
        }
    }
    pairs.len().cmp(&others.len())
}

impl PartialEq for Value {
    ghost eq = { eq_by_cmp value_cmp };

    ghost laws = { Prim.search (comparing, tree_cmp_total, rules) };

    fn eq(&self, other: &Value) -> bool {
        compare(self, other).is_eq()
    }
}

impl Eq for Value {
    ghost laws = { Prim.search (comparing, tree_cmp_total, rules) };
}

impl PartialOrd for Value {
    ghost partial_cmp = { as_partial_cmp value_cmp };

    ghost laws = { partial_order_from_total (on_total tree_of tree_cmp_total) };

    fn partial_cmp(&self, other: &Value) -> Option<Ordering> {
        Some(compare(self, other))
    }
}

impl Ord for Value {
    ghost cmp = { value_cmp };

    ghost total = { on_total tree_of tree_cmp_total };

    ghost matches_partial_cmp = { Prim.search (comparing, rules) };

    ghost matches_eq = { Prim.search (comparing, rules) };

    fn cmp(&self, other: &Value) -> Ordering {
        compare(self, other)
    }
}

impl PartialEq for Map {
    ghost eq = { eq_by_cmp (on map_tree tree_cmp) };

    ghost laws = { Prim.search (comparing, tree_cmp_total, rules) };

    fn eq(&self, other: &Map) -> bool {
        compare_maps(self, other).is_eq()
    }
}

impl Eq for Map {
    ghost laws = { Prim.search (comparing, tree_cmp_total, rules) };
}

impl PartialOrd for Map {
    ghost partial_cmp = { as_partial_cmp (on map_tree tree_cmp) };

    ghost laws = { partial_order_from_total (on_total map_tree tree_cmp_total) };

    fn partial_cmp(&self, other: &Map) -> Option<Ordering> {
        Some(compare_maps(self, other))
    }
}

impl Ord for Map {
    ghost cmp = { on map_tree tree_cmp };

    ghost total = { on_total map_tree tree_cmp_total };

    ghost matches_partial_cmp = { Prim.search (comparing, rules) };

    ghost matches_eq = { Prim.search (comparing, rules) };

    fn cmp(&self, other: &Map) -> Ordering {
        compare_maps(self, other)
    }
}
