//! One order of all data, by which the keys of a map are found; data is equal where it answers `Equal`.
// Equality of data is written by hand over the one comparison by which pairs are folded. The derived one compares
// bytes, the plain data characters, and the law `equal_data_are_the_same` joins the two. That the order calls data
// equal exactly where the grammar does is proved.

ghost use Rattle.std.specs.Prelude.{◌≡◌, map, chars, string_bytes};
ghost use Rattle.std.specs.Ordering.{on, nat_cmp, eq_by_cmp, as_partial_cmp};
ghost use Rattle.std.specs.Cmp.{partial_order_from_total, on_total};
ghost use Rattle.std.specs.Cmp.Rules.{comparing};
ghost use Rattle.std.specs.Cmp.Lexicographic.{slice_cmp};
ghost use Rattle.std.proofs.Common.{rules};
ghost use Rattle.ron_data.specs.Datum.{data_view, content_view, named_view, pair_view};
ghost use Rattle.ron_data.specs.Order.{data_cmp, content_cmp, pair_cmp, field_cmp, data_place, content_data};
ghost use Rattle.ron_data.specs.OrderLaws.{data_cmp_total, content_cmp_total};
ghost use Rattle.ron_data.specs.Pairs.{key_of, key_cmp};

use crate::data::{Data, VariantData};
use std::cmp::Ordering;

impl PartialEq for Data<'_> {
    ghost eq = { eq_by_cmp (on data_view data_cmp) };

    ghost laws = { Prim.search (comparing, data_cmp_total, rules) };

    fn eq(&self, other: &Self) -> bool {
        compare(self, other).is_eq()
    }
}

impl Eq for Data<'_> {
    ghost laws = { Prim.search (comparing, data_cmp_total, rules) };
}

impl PartialEq for VariantData<'_> {
    ghost eq = { eq_by_cmp (on content_view content_cmp) };

    ghost laws = { Prim.search (comparing, content_cmp_total, rules) };

    fn eq(&self, other: &Self) -> bool {
        compare_content(self, other).is_eq()
    }
}

impl Eq for VariantData<'_> {
    ghost laws = { Prim.search (comparing, content_cmp_total, rules) };
}

/// A key of a map, compared by the data that it stands for.
#[derive(Drop)]
pub(crate) struct Key<'a> {
    pub(crate) held: Data<'a>,
}

impl PartialEq for Key<'_> {
    ghost eq = { eq_by_cmp key_cmp };

    ghost laws = { Prim.search (comparing, data_cmp_total, rules) };

    fn eq(&self, other: &Self) -> bool {
        compare(&self.held, &other.held).is_eq()
    }
}

impl Eq for Key<'_> {
    ghost laws = { Prim.search (comparing, data_cmp_total, rules) };
}

impl PartialOrd for Key<'_> {
    ghost partial_cmp = { as_partial_cmp key_cmp };

    ghost laws = { partial_order_from_total (on_total key_of data_cmp_total) };

    fn partial_cmp(&self, other: &Self) -> Option<Ordering> {
        Some(compare(&self.held, &other.held))
    }
}

impl Ord for Key<'_> {
    ghost cmp = { key_cmp };

    ghost total = { on_total key_of data_cmp_total };

    ghost matches_partial_cmp = { Prim.search (comparing, rules) };

    ghost matches_eq = { Prim.search (comparing, rules) };

    fn cmp(&self, other: &Self) -> Ordering {
        compare(&self.held, &other.held)
    }
}

/// By the place of the case, and then by what is held: texts by their characters, lists by their first difference.
#[cycle(compare)]
#[tactic(auto, using(crate::proofs::OrderLemmas::variant_is))]
pub(crate) fn compare(one: &Data<'_>, other: &Data<'_>) -> Ordering
    ensures { result ≡ data_cmp (data_view one.now) (data_view other.now) }
{
    let by_place = place(one).cmp(&place(other));
    match (one, other) {
        (Data::Bool(one), Data::Bool(other)) => one.cmp(other),
        (Data::Int(one), Data::Int(other)) => one.cmp(other),
        (Data::Char(one), Data::Char(other)) => one.cmp(other),
        (Data::Str(one), Data::Str(other)) => compare_texts(one.as_str(), other.as_str()),
        (Data::Bytes(one), Data::Bytes(other)) => one.as_slice().cmp(other.as_slice()),
        (Data::Option(Some(one)), Data::Option(Some(other))) => compare(one, other),
        (Data::Seq(one), Data::Seq(other)) => compare_items(one.as_slice(), other.as_slice()),
        (Data::Tuple(one), Data::Tuple(other)) => compare_items(one.as_slice(), other.as_slice()),
        (Data::Map(one), Data::Map(other)) => compare_pairs(one.as_slice(), other.as_slice()),
        (Data::UnitStruct(one), Data::UnitStruct(other)) => compare_names(one, other),
        (Data::Newtype(name, one), Data::Newtype(other_name, other)) => {
            compare_names(name, other_name).then(compare(one, other))
        }
        (Data::TupleStruct(name, one), Data::TupleStruct(other_name, other)) => {
            compare_names(name, other_name).then(compare_items(one.as_slice(), other.as_slice()))
        }
        (Data::Struct(name, one), Data::Struct(other_name, other)) => {
            compare_names(name, other_name).then(compare_fields(one.as_slice(), other.as_slice()))
        }
        (
            Data::Variant {
                name,
                variant,
                content,
            },
            Data::Variant {
                name: other_name,
                variant: other_variant,
                content: other,
            },
        ) => compare_names(name, other_name)
            .then(compare_names(variant, other_variant))
            .then(compare_content(content, other)),
        (Data::Value(one), Data::Value(other)) => one.as_value().cmp(other.as_value()),
        (Data::Raw(one), Data::Raw(other)) => compare_texts(one.get_ron(), other.get_ron()),
        _ => by_place,
    }
}

/// What variants hold: nothing, one value, items, fields, in this order.
#[cycle(compare)]
fn compare_content(one: &VariantData<'_>, other: &VariantData<'_>) -> Ordering
    ensures { result ≡ content_cmp (content_view one.now) (content_view other.now) }
{
    match (one, other) {
        (VariantData::Newtype(one), VariantData::Newtype(other)) => compare(one, other),
        (VariantData::Tuple(one), VariantData::Tuple(other)) => {
            compare_items(one.as_slice(), other.as_slice())
        }
        (VariantData::Struct(one), VariantData::Struct(other)) => {
            compare_fields(one.as_slice(), other.as_slice())
        }
        _ => content_place(one).cmp(&content_place(other)),
    }
}

#[cycle(compare)]
fn compare_items(items: &[Data<'_>], others: &[Data<'_>]) -> Ordering
    ensures { result ≡ slice_cmp data_cmp (map data_view items.now) (map data_view others.now) }
{
    let mut i = 0;
    while i < items.len() && i < others.len() {
        match compare(&items[i], &others[i]) {
            Ordering::Equal => i += 1,
            decided => return decided,
        }
    }
    items.len().cmp(&others.len())
}

#[cycle(compare)]
fn compare_pairs(pairs: &[(Data<'_>, Data<'_>)], others: &[(Data<'_>, Data<'_>)]) -> Ordering
    ensures { result ≡ slice_cmp pair_cmp (map pair_view pairs.now) (map pair_view others.now) }
{
    let mut i = 0;
    while i < pairs.len() && i < others.len() {
        match compare(&pairs[i].0, &others[i].0).then(compare(&pairs[i].1, &others[i].1)) {
            Ordering::Equal => i += 1,
            decided => return decided,
        }
    }
    pairs.len().cmp(&others.len())
}

#[cycle(compare)]
fn compare_fields(fields: &[(String, Data<'_>)], others: &[(String, Data<'_>)]) -> Ordering
    ensures { result ≡ slice_cmp field_cmp (map named_view fields.now) (map named_view others.now) }
{
    let mut i = 0;
    while i < fields.len() && i < others.len() {
        let names = compare_names(&fields[i].0, &others[i].0);
        match names.then(compare(&fields[i].1, &others[i].1)) {
            Ordering::Equal => i += 1,
            decided => return decided,
        }
    }
    fields.len().cmp(&others.len())
}

/// Names, by the first character in which they differ.
fn compare_names(one: &String, other: &String) -> Ordering
    ensures { result ≡ slice_cmp nat_cmp (chars (string_bytes one.now)) (chars (string_bytes other.now)) }
{
    compare_texts(one.as_str(), other.as_str())
}

/// Texts likewise.
fn compare_texts(one: &str, other: &str) -> Ordering
    ensures { result ≡ slice_cmp nat_cmp (chars one.now) (chars other.now) }
{
    one.chars().cmp(other.chars())
}

/// The place of the case in the order.
fn place(one: &Data<'_>) -> u8
    ensures { result ≡ data_place (data_view one.now) }
{
    match one {
        Data::Bool(_) => 0,
        Data::Int(_) => 1,
        Data::Char(_) => 2,
        Data::Str(_) => 3,
        Data::Bytes(_) => 4,
        Data::Unit => 5,
        Data::Option(None) => 6,
        Data::Option(Some(_)) => 7,
        Data::Seq(_) => 8,
        Data::Tuple(_) => 9,
        Data::Map(_) => 10,
        Data::UnitStruct(_) => 11,
        Data::Newtype(..) => 12,
        Data::TupleStruct(..) => 13,
        Data::Struct(..) => 14,
        Data::Variant { .. } => 15,
        Data::Value(_) => 16,
        Data::Raw(_) => 17,
    }
}

/// The place of what a variant holds, as data of its own.
fn content_place(content: &VariantData<'_>) -> u8
    ensures { result ≡ data_place (content_data (content_view content.now)) }
{
    match content {
        VariantData::Unit => 5,
        VariantData::Newtype(_) => 7,
        VariantData::Tuple(_) => 8,
        VariantData::Struct(_) => 14,
    }
}
