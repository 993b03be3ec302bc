//! Maps of values: pairs in a list, in key order.

mod search;
pub mod walk;

ghost use Rattle.std.specs.Prelude.{◌≡◌, ◌↔◌, ◌<◌, ◌≤◌, ◌+◌, suc, [], ◌∷◌, ◌++◌, length, IsTrue, IsSome, Some, IfSome};
ghost use Rattle.std.specs.Prelude.{IsOk, IfOk, OnOk, IfErr, OnErr, MatchResult};
ghost use Rattle.std.specs.Option.{option_copied, option_copied_mut};
ghost use Rattle.std.specs.Borrow.{sem};
ghost use Rattle.std.specs.List.Sorted.{IsStrictlySortedBy};
ghost use Rattle.std.specs.Map.{keys_of};
ghost use Rattle.ron_base.specs.declared.error.Error.TheVariants.{OutOfMemory};
ghost use Rattle.ron_value.specs.declared.value.Value.{Value};
ghost use Rattle.ron_value.specs.Ordered.{IsOrdered};
ghost use Rattle.ron_value.specs.View.{entries_tree, tree_of, value_cmp, option_tree, entries, map_tree};
ghost use Rattle.ron_value.specs.Entries.{Entries, value_at, with_entry, without_key, with_value, with_entries};
ghost use Rattle.ron_value.specs.Entries.{ContainsKey, ArePartsOrdered, Retains, Chooses};
ghost use Rattle.ron_value.specs.Lent.{LendsValue, LendsValueOf, map_with};
ghost use Rattle.ron_value.specs.Place.{IsFoundAt, IsPlaceOf};

use crate::value::Value;
use ron_base::error::Result;
use std::alloc::Global;
use std::collections::BTreeMap;
use std::mem;
use std::ops::{Index, IndexMut};

/// How many pairs are put in one after another at most.
const FEW: usize = 32;

/// Values by key, each key once, in key order. Two maps are equal where they hold equal values under equal keys.
///
/// What the calls answer is promised where the map is ordered, and so are the maps inside its keys and values. `new`
/// and `from_pairs` make it so, and every change keeps it so, where what comes in is ordered.
#[cycle(value)]
#[derive(Debug, Drop)]
pub struct Map {
    pub(crate) pairs: Vec<(Value, Value)>,
}

impl Map {
    /// The map of no keys.
    pub fn new(alloc: Global) -> Map
        ensures empty { entries result ≡ [] }
        ensures ordered { IsOrdered (map_tree result) }
    {
        Map {
            pairs: Vec::new(alloc),
        }
    }

    /// The map of these pairs; of equal keys the last one's value stands. Refused by `OutOfMemory` alone.
    pub fn from_pairs(pairs: Vec<(Value, Value)>) -> Result<Map>
        ensures content { ArePartsOrdered pairs.items → IfOk result (λ m. entries m ≡ with_entries pairs.items []) }
        ensures ordered { ArePartsOrdered pairs.items → IfOk result (λ m. IsOrdered (map_tree m)) }
        ensures memory { IfErr result (λ e. e ≡ OutOfMemory) }
    {
        if keys_ascend(&pairs) {
            Ok(Map { pairs })
        } else if pairs.len() <= FEW {
            Map::from_few(pairs)
        } else {
            Map::from_many(pairs)
        }
    }

    /// The map of these pairs, each put at its place among those before it, in their own list.
    fn from_few(pairs: Vec<(Value, Value)>) -> Result<Map>
        ensures content { ArePartsOrdered pairs.items → IfOk result (λ m. entries m ≡ with_entries pairs.items []) }
        ensures ordered { ArePartsOrdered pairs.items → IfOk result (λ m. IsOrdered (map_tree m)) }
        ensures memory { IfErr result (λ e. e ≡ OutOfMemory) }
    {
        let mut map = Map { pairs };
        let mut settled = 0;
        'settled: while settled < map.pairs.len() {
            settled = settle(&mut map.pairs, settled)?;
        }
        Ok(map)
    }

    /// The map of these pairs by a tree, where no pair moves another.
    fn from_many(pairs: Vec<(Value, Value)>) -> Result<Map>
        ensures content { IfOk result (λ m. entries m ≡ with_entries pairs.items []) }
        ensures ordered { ArePartsOrdered pairs.items → IfOk result (λ m. IsOrdered (map_tree m)) }
        ensures memory { IfErr result (λ e. e ≡ OutOfMemory) }
    {
        let alloc = *pairs.allocator();
        let mut tree = BTreeMap::new(alloc);
        for (key, value) in pairs {
            put(&mut tree, key, value)?;
        }
        Ok(Map {
            pairs: tree.into_iter().collect(alloc)?,
        })
    }

    /// How many keys there are.
    pub fn len(&self) -> usize
        ensures { result ≡ length (entries self.now) }
    {
        self.pairs.len()
    }

    /// Whether there is no key.
    pub fn is_empty(&self) -> bool
        ensures { IsTrue result ↔ (entries self.now ≡ []) }
    {
        self.pairs.is_empty()
    }

    /// The pairs, in key order.
    pub fn as_slice(&self) -> &[(Value, Value)]
        ensures { result.now ≡ entries self.now }
    {
        &self.pairs
    }

    /// The value at this key.
    pub fn get(&self, key: &Value) -> Option<&Value>
        ensures value { IsOrdered (map_tree self.now) → option_copied result ≡ value_at key.now (entries self.now) }
        ensures answer_ordered { IsOrdered (map_tree self.now) → IfSome result (λ v. IsOrdered (tree_of v.now)) }
    {
        match self.search(key) {
            Ok(place) => Some(&self.pairs[place].1),
            Err(_) => None,
        }
    }

    /// The value at this key, to be changed in its place.
    pub fn get_mut(&mut self, key: &Value) -> Option<&mut Value>
        ensures* writes_back { sem 𝓛 (LendsValue self.entry key.now result) }
        ensures value { IsOrdered (map_tree self.old) → option_copied_mut result ≡ value_at key.now (entries self.old) }
        ensures answer_ordered { IsOrdered (map_tree self.old) → IfSome result (λ v. IsOrdered (tree_of v.now)) }
    {
        match self.search(key) {
            Ok(place) => {
                let pair = &mut self.pairs[place];
                Some(&mut pair.1)
            }
            Err(_) => None,
        }
    }

    /// Puts a value at this key, and answers the one that stood there. The key that stood there stays, and then no
    /// memory is taken. Refused by `OutOfMemory` alone, which leaves the map as it was.
    pub fn insert(&mut self, key: Value, value: Value) -> Result<Option<Value>>
        ensures content { IsOrdered (map_tree self.old) →
            OnOk result (entries self.new ≡ with_entry key value (entries self.old)) }
        ensures replaced { IsOrdered (map_tree self.old) → IfOk result (λ old. old ≡ value_at key (entries self.old)) }
        ensures in_place { IsOrdered (map_tree self.old) → IsSome (value_at key (entries self.old)) → IsOk result }
        ensures ordered { IsOrdered (map_tree self.old) → IsOrdered (tree_of key) → IsOrdered (tree_of value) →
            IsOrdered (map_tree self.new) }
        ensures answer_ordered { IsOrdered (map_tree self.old) → IfOk result (λ old. IsOrdered (option_tree old)) }
        ensures unchanged { OnErr result (entries self.new ≡ entries self.old) }
        ensures memory { IfErr result (λ e. e ≡ OutOfMemory) }
    {
        match self.search(&key) {
            Ok(place) => {
                let pair = &mut self.pairs[place];
                Ok(Some(mem::replace(&mut pair.1, value)))
            }
            Err(place) => {
                self.pairs.insert(place, (key, value))?;
                Ok(None)
            }
        }
    }

    /// Takes out this key, and answers its value.
    pub fn remove(&mut self, key: &Value) -> Option<Value>
        ensures value { IsOrdered (map_tree self.old) → result ≡ value_at key.now (entries self.old) }
        ensures content { IsOrdered (map_tree self.old) → entries self.new ≡ without_key key.now (entries self.old) }
        ensures ordered { IsOrdered (map_tree self.old) → IsOrdered (map_tree self.new) }
        ensures answer_ordered { IsOrdered (map_tree self.old) → IsOrdered (option_tree result) }
    {
        match self.search(key) {
            Ok(place) => {
                let (_, value) = self.pairs.remove(place);
                Some(value)
            }
            Err(_) => None,
        }
    }

    /// Keeps the pairs at which `keep` answers true. It is asked at each key once, in key order.
    pub fn retain<F: Fn(&Value, &Value) -> bool>(&mut self, keep: F)
        requires { F.IsAlwaysCallable keep }
        ensures content { Retains (F.post keep) (entries self.old) (entries self.new) }
        ensures chosen { Chooses (F.post keep) (entries self.old) (entries self.new) }
        ensures ordered { IsOrdered (map_tree self.old) → IsOrdered (map_tree self.new) }
    {
        self.pairs.retain(|pair| keep(&pair.0, &pair.1));
    }

    /// The place of this key, or as `Err` the place where it belongs.
    fn search(&self, key: &Value) -> std::result::Result<usize, usize>
        ensures in_range { MatchResult result (λ i. i < length (entries self.now))
            (λ i. i ≤ length (entries self.now)) }
        ensures place { IsOrdered (map_tree self.now) → IsPlaceOf key.now (entries self.now) result }
    {
        search::probe(&self.pairs, key).0
    }

    /// The place of this key, which is there.
    fn place_of(&self, key: &Value) -> usize
        requires { ContainsKey self.now key.now }
        ensures in_range { result < length (entries self.now) }
        ensures place { IsFoundAt key.now (entries self.now) result }
    {
        self.search(key).unwrap()
    }
}

/// Whether each key is below the next, so that the pairs are a map's as they stand.
fn keys_ascend(pairs: &[(Value, Value)]) -> bool
    ensures { IsTrue result ↔ IsStrictlySortedBy value_cmp (keys_of pairs.now) }
{
    pairs.is_sorted_by(|one, next| one.0 < next.0)
}

/// Puts the pair behind the first `settled` ones, which are in key order, at its place among these. Answers how many are
/// in order then.
fn settle(pairs: &mut Vec<(Value, Value)>, settled: usize) -> Result<usize>
    requires { settled < length pairs.old.items }
    ensures content { (done : Entries) → (p : Value × Value) → (rest : Entries) →
        pairs.old.items ≡ done ++ (p ∷ rest) → settled ≡ length done → IsOrdered (entries_tree done) →
        IfOk result (λ n. (pairs.new.items ≡ with_entry p.0 p.1 done ++ rest) × (n ≡ length (with_entry p.0 p.1 done))) }
    ensures shorter { IfOk result (λ n. length pairs.new.items + suc settled ≡ length pairs.old.items + n) }
    ensures in_range { IfOk result (λ n. n ≤ length pairs.new.items) }
    ensures memory { IfErr result (λ e. e ≡ OutOfMemory) }
{
    match search::probe(&pairs[..settled], &pairs[settled].0).0 {
        Ok(place) => {
            let (key, value) = pairs.remove(settled);
            drop(key);
            let pair = &mut pairs[place];
            drop(mem::replace(&mut pair.1, value));
            Ok(settled)
        }
        Err(place) => {
            if place == settled {
                return Ok(settled + 1);
            }
            let pair = pairs.remove(settled);
            pairs.insert(place, pair)?;
            Ok(settled + 1)
        }
    }
}

/// Puts a value at this key, and answers the one that stood there.
fn put(tree: &mut BTreeMap<Value, Value>, key: Value, value: Value) -> Result<Option<Value>>
    ensures content { OnOk result (tree.new.entries ≡ with_entry key value tree.old.entries) }
    ensures ordered { IsOrdered (entries_tree tree.old.entries) → IsOrdered (tree_of key) → IsOrdered (tree_of value)
        → OnOk result (IsOrdered (entries_tree tree.new.entries)) }
    ensures memory { IfErr result (λ e. e ≡ OutOfMemory) }
{
    Ok(tree.insert(key, value)?)
}

impl Index<&Value> for Map {
    type Output = Value;

    ghost can_index = { λ m k. ContainsKey m k.now };

    ghost index_gives = { λ m k v. (value_at k.now (entries m) ≡ Some v) × IsOrdered (tree_of v) };

    fn index(&self, key: &Value) -> &Value {
        let place = self.place_of(key);
        &self.pairs[place].1
    }
}

impl IndexMut<&Value> for Map {
    fn index_mut(&mut self, key: &Value) -> &mut Value
        requires { ContainsKey self.old key.now }
        ensures* writes_back { sem 𝓛 (LendsValueOf self.entry key.now result) }
        ensures value { value_at key.now (entries self.old) ≡ Some result.now }
        ensures answer_ordered { IsOrdered (tree_of result.now) }
        ensures content { (v : Value) →
            entries (map_with self.old key.now v) ≡ with_value key.now v (entries self.old) }
        ensures ordered { (v : Value) → IsOrdered (tree_of v) → IsOrdered (map_tree (map_with self.old key.now v)) }
    {
        let place = self.place_of(key);
        let pair = &mut self.pairs[place];
        &mut pair.1
    }
}
