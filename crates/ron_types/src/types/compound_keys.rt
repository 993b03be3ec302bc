//! Keys of maps that hold keys.
ghost use Rattle.std.specs.Prelude.{[], ◌∷◌};
ghost use Rattle.std.specs.Ordering.{ordering_then};
ghost use Rattle.ron_types.specs.KeyLaws.{lists_alike, options_alike};
ghost use Rattle.ron_types.specs.Keys.{option_key_cmp, list_key_cmp, tuple_key_cmp};

use crate::traits::MapKey;

impl<K: MapKey> MapKey for Option<K> {
    ghost key_cmp = { option_key_cmp K.key_cmp };

    ghost alike = { options_alike K.cmp K.data K.key_cmp K.alike };
}

impl<K: MapKey> MapKey for Box<K> {
    ghost key_cmp = { K.key_cmp };

    ghost alike = { λ x y. K.alike x.value y.value };
}

impl<K: MapKey> MapKey for Vec<K> {
    ghost key_cmp = { list_key_cmp K.key_cmp };

    ghost alike = { λ x y. lists_alike K.cmp K.data K.key_cmp K.alike x.items y.items };
}

impl<A: MapKey> MapKey for (A,) {
    ghost key_cmp = { tuple_key_cmp (A.key_cmp ∷ []) };

    ghost alike = { λ x y. A.alike x.0 y.0 };
}

impl<A: MapKey, B: MapKey> MapKey for (A, B) {
    ghost key_cmp = { tuple_key_cmp (A.key_cmp ∷ B.key_cmp ∷ []) };

    ghost alike = { λ x y. λ i. ordering_then (A.alike x.0 y.0 i) (B.alike x.1 y.1 i) };
}

impl<A: MapKey, B: MapKey, C: MapKey> MapKey for (A, B, C) {
    ghost key_cmp = { tuple_key_cmp (A.key_cmp ∷ B.key_cmp ∷ C.key_cmp ∷ []) };

    ghost alike = { λ x y. λ i. ordering_then
        (ordering_then (A.alike x.0 y.0 i) (B.alike x.1 y.1 i))
        (C.alike x.2 y.2 i) };
}

impl<A: MapKey, B: MapKey, C: MapKey, D: MapKey> MapKey for (A, B, C, D) {
    ghost key_cmp = { tuple_key_cmp (A.key_cmp ∷ B.key_cmp ∷ C.key_cmp ∷ D.key_cmp ∷ []) };

    ghost alike = { λ x y. λ i. ordering_then
        (ordering_then (ordering_then (A.alike x.0 y.0 i) (B.alike x.1 y.1 i)) (C.alike x.2 y.2 i))
        (D.alike x.3 y.3 i) };
}
