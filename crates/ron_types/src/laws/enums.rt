//! Enums of one's own.
ghost use Rattle.std.specs.Prelude.{◌≡◌, ℕ, List, true, map, chars};
ghost use Rattle.ron_spec_grammar.specs.Schema.{all_differ};
ghost use Rattle.ron_types.specs.Kinds.{table_of_enum, names_in, IsOneOf};
ghost use Rattle.ron_types.specs.Laws.{AcceptsAll, AcceptsEach};

use crate::variants::Enum;

/// Enums of any name, whose variants' names differ.
pub fn enums_accept_their_data<E: Enum>()
    ensures { all_differ (map chars (names_in E.variants)) ≡ true → AcceptsEach E.variants → (name : List ℕ) →
        AcceptsAll (table_of_enum name E.variants) (IsOneOf name E.variants) }
{}
