//! Walks over a map, in key order, from both ends.

ghost use Rattle.std.specs.Prelude.{◌≡◌};
ghost use Rattle.std.specs.Iterator.{YieldsFirst, YieldsLast, YieldsFirstBy, YieldsLastBy, item_count};
ghost use Rattle.std.specs.Map.{keys_of, values_of};
ghost use Rattle.ron_value.specs.View.{entries};
ghost use Rattle.ron_value.specs.Walk.{shown, shown_pair, entries_left, keys_left, values_left, owned_left};

use super::Map;
use crate::value::Value;
use std::vec;

/// The keys of a map with their values.
#[derive(Drop)]
pub struct Iter<'a> {
    rest: &'a [(Value, Value)],
}

impl<'a> Iterator for Iter<'a> {
    type Item = (&'a Value, &'a Value);

    ghost next_gives = { YieldsFirstBy shown_pair entries_left };

    ghost remaining = { item_count entries_left };

    fn next(&mut self) -> Option<(&'a Value, &'a Value)> {
        let (first, others) = self.rest.split_first()?;
        self.rest = others;
        Some((&first.0, &first.1))
    }
}

impl<'a> DoubleEndedIterator for Iter<'a> {
    ghost next_back_gives = { YieldsLastBy shown_pair entries_left };

    fn next_back(&mut self) -> Option<(&'a Value, &'a Value)> {
        let (last, others) = self.rest.split_last()?;
        self.rest = others;
        Some((&last.0, &last.1))
    }
}

/// The keys of a map.
#[derive(Drop)]
pub struct Keys<'a> {
    rest: &'a [(Value, Value)],
}

impl<'a> Iterator for Keys<'a> {
    type Item = &'a Value;

    ghost next_gives = { YieldsFirstBy shown keys_left };

    ghost remaining = { item_count keys_left };

    fn next(&mut self) -> Option<&'a Value> {
        let (first, others) = self.rest.split_first()?;
        self.rest = others;
        Some(&first.0)
    }
}

impl<'a> DoubleEndedIterator for Keys<'a> {
    ghost next_back_gives = { YieldsLastBy shown keys_left };

    fn next_back(&mut self) -> Option<&'a Value> {
        let (last, others) = self.rest.split_last()?;
        self.rest = others;
        Some(&last.0)
    }
}

/// The values of a map, in the order of their keys.
#[derive(Drop)]
pub struct Values<'a> {
    rest: &'a [(Value, Value)],
}

impl<'a> Iterator for Values<'a> {
    type Item = &'a Value;

    ghost next_gives = { YieldsFirstBy shown values_left };

    ghost remaining = { item_count values_left };

    fn next(&mut self) -> Option<&'a Value> {
        let (first, others) = self.rest.split_first()?;
        self.rest = others;
        Some(&first.1)
    }
}

impl<'a> DoubleEndedIterator for Values<'a> {
    ghost next_back_gives = { YieldsLastBy shown values_left };

    fn next_back(&mut self) -> Option<&'a Value> {
        let (last, others) = self.rest.split_last()?;
        self.rest = others;
        Some(&last.1)
    }
}

/// The keys of a map with their values, owned.
#[derive(Drop)]
pub struct IntoIter {
    rest: vec::IntoIter<(Value, Value)>,
}

impl Iterator for IntoIter {
    type Item = (Value, Value);

    ghost next_gives = { YieldsFirst owned_left };

    ghost remaining = { item_count owned_left };

    fn next(&mut self) -> Option<(Value, Value)> {
        self.rest.next()
    }
}

impl DoubleEndedIterator for IntoIter {
    ghost next_back_gives = { YieldsLast owned_left };

    fn next_back(&mut self) -> Option<(Value, Value)> {
        self.rest.next_back()
    }
}

impl Map {
    /// Each key with its value, in key order.
    pub fn iter(&self) -> Iter<'_>
        ensures { entries_left result ≡ entries self.now }
    {
        Iter { rest: &self.pairs }
    }

    /// Each key, in order.
    pub fn keys(&self) -> Keys<'_>
        ensures { keys_left result ≡ keys_of (entries self.now) }
    {
        Keys { rest: &self.pairs }
    }

    /// Each value, in the order of their keys.
    pub fn values(&self) -> Values<'_>
        ensures { values_left result ≡ values_of (entries self.now) }
    {
        Values { rest: &self.pairs }
    }
}

impl IntoIterator for Map {
    type Item = (Value, Value);

    type IntoIter = IntoIter;

    ghost into_iter_gives = { λ m walk. owned_left walk ≡ entries m };

    fn into_iter(self) -> IntoIter {
        IntoIter {
            rest: self.pairs.into_iter(),
        }
    }
}

impl<'a> IntoIterator for &'a Map {
    type Item = (&'a Value, &'a Value);

    type IntoIter = Iter<'a>;

    ghost into_iter_gives = { λ m walk. entries_left walk ≡ entries m.now };

    fn into_iter(self) -> Iter<'a> {
        self.iter()
    }
}
