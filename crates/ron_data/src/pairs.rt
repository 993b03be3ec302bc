//! The pairs of a map, where each key stands once.
ghost use Rattle.std.specs.Prelude.{◌≡◌, true, [], map, IfOk, OnOk, IfErr};
ghost use Rattle.std.specs.List.{All, Contains, list_any};
ghost use Rattle.std.specs.Ordering.{is_eq};
ghost use Rattle.std.specs.Map.{keys_of, values_of};
ghost use Rattle.ron_spec_grammar.specs.Equal.{folded};
ghost use Rattle.ron_base.specs.declared.error.Error.TheVariants.{OutOfMemory};
ghost use Rattle.ron_data.specs.Datum.{data_view, pair_view, pairs_view};
ghost use Rattle.ron_data.specs.Order.{data_cmp};
ghost use Rattle.ron_data.specs.Pairs.{key_cmp, with_key, without_key, place_in, places_in, with_entry, with_entries};

use crate::data::Data;
use crate::order::{Key, compare};
use ron_base::error::Result;
use std::alloc::Global;
use std::collections::BTreeMap;

/// How many keys are looked at one by one at most.
const FEW: usize = 16;

/// These pairs with each key once: of equal keys the first place and the last value stand. Keys that ascend, as those of
/// an ordered map do, are each compared with the next alone. Refused by `OutOfMemory` alone.
pub fn fold_pairs<'a>(pairs: Vec<(Data<'a>, Data<'a>)>) -> Result<Vec<(Data<'a>, Data<'a>)>>
    ensures value { IfOk result (λ ps. pairs_view ps.items ≡ folded (map pair_view pairs.entry.items)) }
    ensures parts { IfOk result (λ ps. All (λ p. Contains (keys_of pairs.entry.items) p.0
        × Contains (values_of pairs.entry.items) p.1) ps.items) }
    ensures memory { IfErr result (λ e. e ≡ OutOfMemory) }
{
    if are_ascending(pairs.as_slice()) {
        return Ok(pairs);
    }
    if pairs.len() <= FEW && are_distinct(pairs.as_slice()) {
        return Ok(pairs);
    }
    fold_by_tree(pairs)
}

/// Whether each key comes behind the one before it: then none comes twice.
fn are_ascending(pairs: &[(Data<'_>, Data<'_>)]) -> bool
    ensures { result ≡ true → with_entries key_cmp [] (map with_key pairs.now) ≡ map with_key pairs.now }
{
    for i in 1..pairs.len() {
        if !compare(&pairs[i - 1].0, &pairs[i].0).is_lt() {
            return false;
        }
    }
    true
}

/// Whether no key comes twice.
fn are_distinct(pairs: &[(Data<'_>, Data<'_>)]) -> bool
    ensures { result ≡ true → with_entries key_cmp [] (map with_key pairs.now) ≡ map with_key pairs.now }
{
    let mut i = 0;
    while i < pairs.len() {
        if is_key_among(&pairs[..i], &pairs[i].0) {
            return false;
        }
        i += 1;
    }
    true
}

/// Whether the key of one of these pairs is this one.
fn is_key_among(pairs: &[(Data<'_>, Data<'_>)], key: &Data<'_>) -> bool
    ensures { result ≡ list_any (λ p. is_eq (data_cmp (data_view key.now) (data_view p.0))) pairs.now }
{
    pairs.iter().any(|pair| compare(key, &pair.0).is_eq())
}

/// The same by a tree of the keys.
fn fold_by_tree<'a>(pairs: Vec<(Data<'a>, Data<'a>)>) -> Result<Vec<(Data<'a>, Data<'a>)>>
    ensures value { IfOk result (λ ps. pairs_view ps.items ≡ folded (map pair_view pairs.entry.items)) }
    ensures parts { IfOk result (λ ps. All (λ p. Contains (keys_of pairs.entry.items) p.0
        × Contains (values_of pairs.entry.items) p.1) ps.items) }
    ensures memory { IfErr result (λ e. e ≡ OutOfMemory) }
{
    let alloc = *pairs.allocator();
    let mut keyed = Vec::with_capacity(alloc, pairs.len())?;
    for (key, value) in pairs {
        keyed.push((Key { held: key }, value))?;
    }
    let places = places(alloc, keyed.as_slice())?;
    plain(put_at_places(keyed, places.as_slice())?)
}

/// The pairs without what orders their keys.
fn plain<'a>(keyed: Vec<(Key<'a>, Data<'a>)>) -> Result<Vec<(Data<'a>, Data<'a>)>>
    ensures value { IfOk result (λ ps. ps.items ≡ map without_key keyed.entry.items) }
    ensures memory { IfErr result (λ e. e ≡ OutOfMemory) }
{
    let mut pairs = Vec::with_capacity(*keyed.allocator(), keyed.len())?;
    for (key, value) in keyed {
        pairs.push((key.held, value))?;
    }
    Ok(pairs)
}

/// Where each entry goes, as they are put in from the first one on. A new key is searched for once, and one that was
/// there takes its place again.
fn places<K: Ord, V>(alloc: Global, entries: &[(K, V)]) -> Result<Vec<usize>>
    ensures value { IfOk result (λ places. places.items ≡ places_in K.cmp [] entries.now) }
    ensures memory { IfErr result (λ e. e ≡ OutOfMemory) }
{
    let mut found = BTreeMap::new(alloc);
    let mut places = Vec::with_capacity(alloc, entries.len())?;
    for (key, _) in entries {
        let next = found.len();
        let Some(earlier) = found.insert(key, next)? else {
            places.push(next)?;
            continue;
        };
        found.insert(key, earlier)?;
        places.push(earlier)?;
    }
    Ok(places)
}

/// The entries, each put in at its place.
fn put_at_places<K: Ord + Drop, V: Drop>(
    entries: Vec<(K, V)>,
    places: &[usize],
) -> Result<Vec<(K, V)>>
    requires { places.now ≡ places_in K.cmp [] entries.items }
    ensures value { IfOk result (λ es. es.items ≡ with_entries K.cmp [] entries.items) }
    ensures memory { IfErr result (λ e. e ≡ OutOfMemory) }
{
    let mut folded = Vec::with_capacity(*entries.allocator(), entries.len())?;
    let mut i = 0;
    for entry in entries {
        put_at(&mut folded, places[i], entry)?;
        i += 1;
    }
    Ok(folded)
}

/// Puts an entry in at its key's place. A key that is there already stays, and takes the value.
fn put_at<K: Ord + Drop, V: Drop>(
    entries: &mut Vec<(K, V)>,
    place: usize,
    entry: (K, V),
) -> Result<()>
    requires { place ≡ place_in K.cmp entry.0 entries.now.items }
    ensures value { OnOk result (entries.new.items ≡ with_entry K.cmp entries.old.items entry) }
    ensures memory { IfErr result (λ e. e ≡ OutOfMemory) }
{
    if place == entries.len() {
        return Ok(entries.push(entry)?);
    }
    entries[place].1 = entry.1;
    Ok(())
}
