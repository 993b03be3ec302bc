//! Fields by their names.

ghost use Rattle.std.specs.Prelude.{◌≡◌, [], ◌↔◌, IsTrue, IsSome, IfOk, IfErr, OnOk, OnErr};
ghost use Rattle.std.specs.Prelude.{MatchOption, chars, string_bytes};
ghost use Rattle.std.specs.Option.{option_copied, option_copied_mut};
ghost use Rattle.std.specs.Borrow.{sem};
ghost use Rattle.ron_base.specs.declared.error.Error.TheVariants.{OutOfMemory};
ghost use Rattle.ron_spec_layout.specs.Docs.{doc_of, docs_within};
ghost use Rattle.ron_ser_config.specs.View.{entries, docs_view, doc_told, docs_below};
ghost use Rattle.ron_ser_config.specs.Entries.{field_at, with_entry, without_name, with_entries};
ghost use Rattle.ron_ser_config.specs.Lent.{LendsField, LendsFieldPut};
ghost use Rattle.ron_ser_config.specs.Built.{IsEmptyField, PutsMissing};

use crate::path_meta::Field;
use ron_base::error::Result;
use std::alloc::Global;
use std::collections::BTreeMap;

/// Fields by their names, each name once.
#[cycle(path_meta)]
#[derive(Debug, Drop)]
pub struct Fields {
    pub(super) by_name: BTreeMap<String, Field>,
}

impl Fields {
    /// No fields.
    pub fn new(alloc: Global) -> Fields
        ensures { entries result ≡ [] }
    {
        Fields {
            by_name: BTreeMap::new(alloc),
        }
    }

    /// Whether there are no fields.
    pub fn is_empty(&self) -> bool
        ensures { IsTrue result ↔ (entries self.now ≡ []) }
    {
        self.by_name.is_empty()
    }

    /// Whether there is a field of this name.
    pub fn contains(&self, name: &str) -> bool
        ensures { IsTrue result ↔ IsSome (field_at name.now (entries self.now)) }
    {
        self.by_name.contains_key(name)
    }

    /// The field of this name.
    pub fn get(&self, name: &str) -> Option<&Field>
        ensures value { option_copied result ≡ field_at name.now (entries self.now) }
        ensures doc { doc_of (docs_view self.now) (chars name.now) ≡ doc_told (option_copied result) }
        ensures within { docs_within (docs_view self.now) (chars name.now) ≡ docs_below (option_copied result) }
    {
        self.by_name.get(name)
    }

    /// The field of this name, to be changed in its place.
    pub fn get_mut(&mut self, name: &str) -> Option<&mut Field>
        ensures* writes_back { sem 𝓛 (LendsField self.entry name.now result) }
        ensures value { option_copied_mut result ≡ field_at name.now (entries self.old) }
    {
        self.by_name.get_mut(name)
    }

    /// Puts a field at this name, and answers the one that stood there. Refused by `OutOfMemory` alone, which leaves
    /// the fields as they were.
    pub fn insert(&mut self, name: String, field: Field) -> Result<Option<Field>>
        ensures content { OnOk result (entries self.new ≡ with_entry name field (entries self.old)) }
        ensures replaced { IfOk result (λ old. old ≡ field_at (string_bytes name) (entries self.old)) }
        ensures unchanged { OnErr result (entries self.new ≡ entries self.old) }
        ensures memory { IfErr result (λ e. e ≡ OutOfMemory) }
    {
        Ok(self.by_name.insert(name, field)?)
    }

    /// Takes out the field of this name.
    pub fn remove(&mut self, name: &str) -> Option<Field>
        ensures value { result ≡ field_at name.now (entries self.old) }
        ensures content { entries self.new ≡ without_name name.now (entries self.old) }
    {
        self.by_name.remove(name)
    }

    /// The field of this name, to be changed in its place; where there is none, an empty one is put there first.
    /// Refused by `OutOfMemory` alone, which leaves the fields as they were.
    pub fn field(&mut self, name: String) -> Result<&mut Field>
        ensures* writes_back { sem 𝓛 (LendsFieldPut self.entry name result) }
        ensures value { IfOk result (λ f.
            MatchOption (field_at (string_bytes name) (entries self.old)) (IsEmptyField f.now) (λ held. f.now ≡ held)) }
        ensures memory { IfErr result (λ e. e ≡ OutOfMemory) }
    {
        let text = name.clone()?;
        self.put_missing(name)?;
        match self.by_name.get_mut(text.as_str()) {
            Some(field) => Ok(field),
            None => unreachable!(),
        }
    }

    /// Puts an empty field at this name, where there is none.
    fn put_missing(&mut self, name: String) -> Result<()>
        ensures content { OnOk result (PutsMissing name (entries self.old) (entries self.new)) }
        ensures unchanged { OnErr result (entries self.new ≡ entries self.old) }
        ensures memory { IfErr result (λ e. e ≡ OutOfMemory) }
    {
        if !self.contains(&name) {
            let empty = Field::empty(*name.allocator());
            self.put(name, empty)?;
        }
        Ok(())
    }

    /// Puts a field at this name.
    pub(super) fn put(&mut self, name: String, field: Field) -> Result<()>
        ensures content { OnOk result (entries self.new ≡ with_entry name field (entries self.old)) }
        ensures unchanged { OnErr result (entries self.new ≡ entries self.old) }
        ensures memory { IfErr result (λ e. e ≡ OutOfMemory) }
    {
        self.insert(name, field)?;
        Ok(())
    }

    /// The fields of these pairs; of equal names the last one's field stands. Refused by `OutOfMemory` alone.
    pub fn from_pairs(pairs: Vec<(String, Field)>) -> Result<Fields>
        ensures content { IfOk result (λ fs. entries fs ≡ with_entries pairs.items []) }
        ensures memory { IfErr result (λ e. e ≡ OutOfMemory) }
    {
        let mut fields = Fields::new(*pairs.allocator());
        for (name, field) in pairs {
            fields.put(name, field)?;
        }
        Ok(fields)
    }
}
