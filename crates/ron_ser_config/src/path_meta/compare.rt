//! When fields are equal.

ghost use Rattle.std.specs.Prelude.{◌≡◌};
ghost use Rattle.std.specs.Ordering.{on};
ghost use Rattle.std.specs.Cmp.{on_equiv, on_per, partial_equiv_from_equiv};
ghost use Rattle.ron_ser_config.specs.Same.{same_field, same_fields};
ghost use Rattle.ron_ser_config.specs.SameLaws.{same_field_equiv, same_fields_equiv};
ghost use Rattle.ron_ser_config.specs.View.{field_tree, fields_tree};

use crate::path_meta::{Field, Fields};

#[cycle(compare)]
fn are_same(one: &Field, other: &Field) -> bool
    ensures { result ≡ same_field (field_tree one.now) (field_tree other.now) }
{
    match (one.fields(), other.fields()) {
        (None, None) => one.doc() == other.doc(),
        (Some(within), Some(others)) => one.doc() == other.doc() && all_same(within, others),
        _ => false,
    }
}

#[cycle(compare)]
fn all_same(one: &Fields, other: &Fields) -> bool
    ensures { result ≡ same_fields (fields_tree one.now) (fields_tree other.now) }
{
    let mut others = other.by_name.iter();
    for (name, field) in &one.by_name {
        let Some((other_name, other_field)) = others.next() else {
            return false;
        };
        if name != other_name {
            return false;
        }
        if !are_same(field, other_field) {
            return false;
        }
    }
    others.next().is_none()
}

impl PartialEq for Field {
    ghost eq = { on field_tree same_field };

    ghost laws = { on_per field_tree (partial_equiv_from_equiv same_field_equiv) };

    fn eq(&self, other: &Field) -> bool {
        are_same(self, other)
    }
}

impl Eq for Field {
    ghost laws = { on_equiv field_tree same_field_equiv };
}

impl PartialEq for Fields {
    ghost eq = { on fields_tree same_fields };

    ghost laws = { on_per fields_tree (partial_equiv_from_equiv same_fields_equiv) };

    fn eq(&self, other: &Fields) -> bool {
        all_same(self, other)
    }
}

impl Eq for Fields {
    ghost laws = { on_equiv fields_tree same_fields_equiv };
}
