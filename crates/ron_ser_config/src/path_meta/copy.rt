//! Copies of fields, which share nothing with them.

ghost use Rattle.std.specs.Prelude.{◌≡◌, MatchResult};
ghost use Rattle.ron_base.specs.declared.error.Error.TheVariants.{OutOfMemory};
ghost use Rattle.ron_ser_config.specs.View.{field_tree, fields_tree};

use crate::path_meta::{Field, Fields};
use ron_base::error::Result;
use std::alloc::Global;

impl Field {
    /// A field that is equal to this one and shares nothing with it. Refused by `OutOfMemory` alone.
    pub fn try_clone(&self, alloc: Global) -> Result<Field>
        ensures { MatchResult result (λ f. field_tree f ≡ field_tree self.now) (λ e. e ≡ OutOfMemory) }
    {
        clone_field(alloc, self)
    }
}

impl Fields {
    /// Fields that are equal to these and share nothing with them. Refused by `OutOfMemory` alone.
    pub fn try_clone(&self, alloc: Global) -> Result<Fields>
        ensures { MatchResult result (λ fs. fields_tree fs ≡ fields_tree self.now) (λ e. e ≡ OutOfMemory) }
    {
        clone_fields(alloc, self)
    }
}

#[cycle(copy)]
fn clone_field(alloc: Global, field: &Field) -> Result<Field>
    ensures { MatchResult result (λ f. field_tree f ≡ field_tree field.now) (λ e. e ≡ OutOfMemory) }
{
    let doc = String::from_str(alloc, field.doc())?;
    match field.fields() {
        None => Ok(Field::new(doc, None)),
        Some(fields) => Ok(Field::new(doc, Some(clone_fields(alloc, fields)?))),
    }
}

#[cycle(copy)]
fn clone_fields(alloc: Global, fields: &Fields) -> Result<Fields>
    ensures { MatchResult result (λ fs. fields_tree fs ≡ fields_tree fields.now) (λ e. e ≡ OutOfMemory) }
{
    let mut copies = Fields::new(alloc);
    for (name, field) in &fields.by_name {
        let name_copy = String::from_str(alloc, name)?;
        copies.put(name_copy, clone_field(alloc, field)?)?;
    }
    Ok(copies)
}
