//! Of the other types: data tells their values.
ghost use Rattle.std.specs.Prelude.{◌&&◌, refl, [], ◌∷◌};
ghost use Rattle.ron_value.specs.View.{tree_of};
ghost use Rattle.ron_types.specs.RecoveryLaws.{booleans_recover, characters_recover, strings_recover, texts_recover, values_recover, raw_texts_recover};
ghost use Rattle.ron_types.specs.RecoveryLaws.{options_recover, lists_recover, maps_recover, tuples_tell};

use crate::faithful::Faithful;
use crate::traits::MapKey;
use ron_de_raw::raw::RawValue;
use ron_value::value::Value;
use std::collections::BTreeMap;

impl Faithful for bool {
    type Parts = ();

    ghost recovers = { λ _. booleans_recover };
}

impl Faithful for char {
    type Parts = ();

    ghost recovers = { λ _. characters_recover };
}

impl Faithful for () {
    type Parts = ();

    ghost recovers = { λ _. λ x y _. refl };
}

impl Faithful for String {
    type Parts = ();

    ghost recovers = { λ _. strings_recover };
}

impl<'a> Faithful for &'a str {
    type Parts = ();

    ghost recovers = { λ _. λ x y. texts_recover x.now y.now };
}

impl Faithful for Value {
    type Parts = ();

    ghost recovers = { λ _. λ x y. values_recover (tree_of x) (tree_of y) };
}

impl<'a> Faithful for RawValue<'a> {
    type Parts = ();

    ghost recovers = { λ _. raw_texts_recover };
}

impl<T: Faithful> Faithful for Option<T> {
    type Parts = (T, ());

    ghost recovers = { λ told. options_recover T.data T.eq told.0 };
}

impl<T: Faithful> Faithful for Box<T> {
    type Parts = (T, ());

    ghost recovers = { λ told x y. told.0 x.value y.value };
}

impl<T: Faithful> Faithful for Vec<T> {
    type Parts = (T, ());

    ghost recovers = { λ told x y. lists_recover T.data T.eq told.0 x.items y.items };
}

// Keys are told since they compare as their data do.
impl<K: MapKey, V: Faithful> Faithful for BTreeMap<K, V> {
    type Parts = (V, ());

    ghost recovers = { λ told x y.
        maps_recover K.cmp K.eq K.data K.key_cmp K.alike K.total K.matches_eq V.data V.eq told.0 x.entries y.entries };
}

impl<A: Faithful> Faithful for (A,) {
    type Parts = (A, ());

    ghost recovers = { λ told x y e. let same = tuples_tell x y (λ p. A.data p.0 ∷ []) e in
        told.0 x.0 y.0 same.0 };
}

impl<A: Faithful, B: Faithful> Faithful for (A, B) {
    type Parts = (A, (B, ()));

    ghost recovers = { λ told x y e. let same = tuples_tell x y (λ p. A.data p.0 ∷ B.data p.1 ∷ []) e in
        λ i. told.0 x.0 y.0 same.0 i && told.1.0 x.1 y.1 same.1.0 i };
}

impl<A: Faithful, B: Faithful, C: Faithful> Faithful for (A, B, C) {
    type Parts = (A, (B, (C, ())));

    ghost recovers = { λ told x y e. let same = tuples_tell x y (λ p. A.data p.0 ∷ B.data p.1 ∷ C.data p.2 ∷ []) e in
        λ i. (told.0 x.0 y.0 same.0 i && told.1.0 x.1 y.1 same.1.0 i) && told.1.1.0 x.2 y.2 same.1.1.0 i };
}

impl<A: Faithful, B: Faithful, C: Faithful, D: Faithful> Faithful for (A, B, C, D) {
    type Parts = (A, (B, (C, (D, ()))));

    ghost recovers = { λ told x y e. let same = tuples_tell x y (λ p. A.data p.0 ∷ B.data p.1 ∷ C.data p.2 ∷ D.data p.3 ∷ []) e in
        λ i. ((told.0 x.0 y.0 same.0 i && told.1.0 x.1 y.1 same.1.0 i) && told.1.1.0 x.2 y.2 same.1.1.0 i) && told.1.1.1.0 x.3 y.3 same.1.1.1.0 i };
}
