//! When data is equal.
ghost use Rattle.std.specs.Prelude.{◌≡◌, ◌↔◌, IsTrue};
ghost use Rattle.ron_data.specs.declared.data.Data.{Data};
ghost use Rattle.ron_data.specs.declared.data.VariantData.{VariantData};
ghost use Rattle.ron_data.specs.Datum.{data_view, content_view};

use crate::data::{Data, VariantData};

/// Data is equal exactly where it stands for the same tree, and so is what variants hold: a string or bytes by what
/// they are, a slice of a text or not, and a value without a schema by its own tree.
pub fn equal_data_are_the_same<'a>()
    ensures equal_data { (d e : Data) → IsTrue (⟦<Data<'a> as PartialEq>⟧.eq d e) ↔ (data_view d ≡ data_view e) }
    ensures equal_content { (c d : VariantData) →
        IsTrue (⟦<VariantData<'a> as PartialEq>⟧.eq c d) ↔ (content_view c ≡ content_view d) }
{}
