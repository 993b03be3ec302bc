//! What it means that fields are equal.

ghost use Rattle.std.specs.Prelude.{◌≡◌, ◌↔◌, IsTrue};
ghost use Rattle.ron_ser_config.specs.Tree.{FieldTree, FieldsTree};
ghost use Rattle.ron_ser_config.specs.Same.{same_field, same_fields};

/// `==` of two fields, and of fields by their names, holds exactly where both are the same tree: the same texts, and
/// the same fields under the same names.
pub fn equal_fields_are_the_same()
    ensures one { (s t : FieldTree) → IsTrue (same_field s t) ↔ (s ≡ t) }
    ensures many { (s t : FieldsTree) → IsTrue (same_fields s t) ↔ (s ≡ t) }
{}
