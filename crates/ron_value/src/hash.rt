//! What a hasher is fed of values: their case and all that they hold, so that only equal values are fed alike.

ghost use Rattle.std.specs.Prelude.{◌≡◌, map, fold};
ghost use Rattle.std.proofs.Common.{ap};
ghost use Rattle.ron_value_number.specs.Number.{number_width, number_value};
ghost use Rattle.ron_value.specs.Tree.{items_from, pairs_from};
ghost use Rattle.ron_value.specs.OrderLaws.{tree_eq_same};
ghost use Rattle.ron_value.specs.Writes.{tree_writes, items_writes, pairs_writes, number_writes};
ghost use Rattle.ron_value.specs.View.{tree_of, pair_tree, entries, map_tree};

use crate::map::Map;
use crate::value::Value;
use ron_value_number::Number;
use std::hash::{Hash, Hasher};

#[cycle(feed)]
fn feed<H: Hasher>(value: &Value, state: &mut H)
    ensures { state.new ≡ fold H.write state.old (tree_writes (tree_of value.now)) }
{
    state.write_u8(value.case_place());
    match value {
        Value::Bool(held) => held.hash(state),
        Value::Char(held) => held.hash(state),
        Value::Map(map) => feed_map(map, state),
        Value::Number(number) => feed_number(*number, state),
        Value::Option(None) => state.write_u8(0),
        Value::Option(Some(inner)) => {
            state.write_u8(1);
            feed(inner, state);
        }
        Value::String(text) => text.hash(state),
        Value::Bytes(bytes) => bytes.hash(state),
        Value::Seq(items) => feed_items(items, state),
        Value::Unit => {}
    }
}

#[cycle(feed)]
fn feed_items<H: Hasher>(items: &[Value], state: &mut H)
    ensures { state.new ≡ fold H.write state.old (items_writes (items_from (map tree_of items.now))) }
{
    for item in items {
        state.write_u8(1);
        feed(item, state);
    }
    state.write_u8(0);
}

#[cycle(feed)]
fn feed_map<H: Hasher>(source: &Map, state: &mut H)
    ensures { state.new ≡ fold H.write state.old (pairs_writes (pairs_from (map pair_tree (entries source.now)))) }
{
    for pair in &source.pairs {
        state.write_u8(1);
        feed(&pair.0, state);
        feed(&pair.1, state);
    }
    state.write_u8(0);
}

fn feed_number<H: Hasher>(number: Number, state: &mut H)
    ensures { state.new ≡ fold H.write state.old (number_writes (number_width number) (number_value number)) }
{
    let width = number.width();
    let (is_negative, magnitude) = number.sign_and_magnitude();
    state.write_u32(width.bits());
    width.is_signed().hash(state);
    is_negative.hash(state);
    state.write_u128(magnitude);
}

impl Hash for Value {
    ghost hash_input = { λ v. tree_writes (tree_of v) };

    ghost respects_eq = { λ v w e. ap tree_writes (tree_eq_same (tree_of v) (tree_of w) e) };

    fn hash<H: Hasher>(&self, state: &mut H) {
        feed(self, state);
    }
}

impl Hash for Map {
    ghost hash_input = { λ m. tree_writes (map_tree m) };

    ghost respects_eq = { λ m n e. ap tree_writes (tree_eq_same (map_tree m) (map_tree n) e) };

    // As the value of this map is fed, its case's place first.
    fn hash<H: Hasher>(&self, state: &mut H) {
        state.write_u8(2);
        feed_map(self, state);
    }
}
