//! The laws of the orders of extensions and of places.

ghost use Rattle.std.specs.Prelude.{◌≡◌, ◌↔◌, IsTrue};
ghost use Rattle.std.specs.Cmp.{IsTotalOrder};
ghost use Rattle.std.specs.declared.cmp.Ordering.TheVariants.{Equal};
ghost use Rattle.ron_base.specs.Extensions.{ExtensionSet, extensions_cmp};
ghost use Rattle.ron_base.specs.Place.{position_cmp};
ghost use Rattle.ron_base.specs.declared.error.Position.{Position};

use crate::error::Position;
use crate::extensions::Extensions;
use std::hash::Hash;

/// Sets of extensions are ordered by their bits, and tied exactly where they are equal; a set is equal to itself alone,
/// and equal sets hash alike.
pub fn extensions_are_ordered()
    ensures order { (a b : ExtensionSet) → ⟦<Extensions as Ord>⟧.cmp a b ≡ extensions_cmp a b }
    ensures total { IsTotalOrder extensions_cmp }
    ensures tied { (a b : ExtensionSet) → (extensions_cmp a b ≡ Equal) ↔ (a ≡ b) }
    ensures equal { (a b : ExtensionSet) → IsTrue (⟦<Extensions as PartialEq>⟧.eq a b) ↔ (a ≡ b) }
    ensures hash { (a b : ExtensionSet) → IsTrue (⟦<Extensions as PartialEq>⟧.eq a b) →
        ⟦<Extensions as Hash>⟧.hash_input a ≡ ⟦<Extensions as Hash>⟧.hash_input b }
{}

/// Places are ordered by line and then by column, and tied exactly where they are equal; a place is equal to itself
/// alone.
pub fn positions_are_ordered()
    ensures order { (p q : Position) → ⟦<Position as Ord>⟧.cmp p q ≡ position_cmp p q }
    ensures total { IsTotalOrder position_cmp }
    ensures tied { (p q : Position) → (position_cmp p q ≡ Equal) ↔ (p ≡ q) }
    ensures equal { (p q : Position) → IsTrue (⟦<Position as PartialEq>⟧.eq p q) ↔ (p ≡ q) }
{}
