//! What is said of one field.

ghost use Rattle.std.specs.Prelude.{◌≡◌, [], string_bytes, ◌↔◌, IsTrue, IsSome, IfOk, IfErr, OnOk, OnErr, None};
ghost use Rattle.std.specs.Option.{option_copied, option_copied_mut};
ghost use Rattle.std.specs.Borrow.{sem};
ghost use Rattle.std.specs.Fn.{FnOnceReturnsAtMut};
ghost use Rattle.ron_ser_config.specs.View.{doc_bytes, fields_within};
ghost use Rattle.ron_ser_config.specs.Lent.{LendsDoc, LendsFields};
ghost use Rattle.ron_ser_config.specs.Built.{HoldsBuilt, MakesOfNone, RefusesNone};

use crate::path_meta::Fields;
use std::alloc::Global;

/// The doc comment of a field, and those of the fields within it.
#[cycle(path_meta)]
#[derive(Debug, Drop)]
pub struct Field {
    doc: String,
    fields: Option<Fields>,
}

impl Field {
    /// A field of which nothing is said.
    pub fn empty(alloc: Global) -> Field
        ensures doc { doc_bytes result ≡ [] }
        ensures fields { fields_within result ≡ None }
    {
        Field {
            doc: String::new(alloc),
            fields: None,
        }
    }

    /// A field with this doc comment and these fields within it.
    pub fn new(doc: String, fields: Option<Fields>) -> Field
        ensures doc { doc_bytes result ≡ string_bytes doc }
        ensures fields { fields_within result ≡ fields }
    {
        Field { doc, fields }
    }

    /// The doc comment, empty where there is none.
    pub fn doc(&self) -> &str
        ensures { result.now ≡ doc_bytes self.now }
    {
        self.doc.as_str()
    }

    /// The doc comment, to be changed in its place.
    pub fn doc_mut(&mut self) -> &mut String
        ensures* writes_back { sem 𝓛 (LendsDoc self.entry result) }
        ensures value { string_bytes result.now ≡ doc_bytes self.old }
    {
        &mut self.doc
    }

    /// Replaces the doc comment.
    pub fn with_doc(&mut self, doc: String) -> &mut Self
        ensures same { result.ghost_name ≡ self.entry.ghost_name }
        ensures doc { doc_bytes result.now ≡ string_bytes doc }
        ensures fields { fields_within result.now ≡ fields_within self.old }
    {
        self.doc = doc;
        self
    }

    /// The fields within this one.
    pub fn fields(&self) -> Option<&Fields>
        ensures { option_copied result ≡ fields_within self.now }
    {
        self.fields.as_ref()
    }

    /// The fields within this one, to be changed in their place.
    pub fn fields_mut(&mut self) -> Option<&mut Fields>
        ensures* writes_back { sem 𝓛 (LendsFields self.entry result) }
        ensures value { option_copied_mut result ≡ fields_within self.old }
    {
        self.fields.as_mut()
    }

    /// Whether there are fields within this one, be they none.
    pub fn has_fields(&self) -> bool
        ensures { IsTrue result ↔ IsSome (fields_within self.now) }
    {
        self.fields.is_some()
    }

    /// Replaces the fields within this one.
    pub fn with_fields(&mut self, fields: Option<Fields>) -> &mut Self
        ensures same { result.ghost_name ≡ self.entry.ghost_name }
        ensures doc { doc_bytes result.now ≡ doc_bytes self.old }
        ensures fields { fields_within result.now ≡ fields }
    {
        self.fields = fields;
        self
    }

    /// Replaces the fields within this one by those that the builder makes of none. Where the builder refuses, this
    /// field is as it was, and the builder's error is answered.
    pub fn build_fields<E, F: FnOnce(&mut Fields) -> Result<(), E>>(
        &mut self,
        alloc: Global,
        builder: F,
    ) -> Result<(), E>
        requires { F.IsAlwaysCallable builder }
        ensures doc { doc_bytes self.new ≡ doc_bytes self.old }
        ensures fields { OnOk result (HoldsBuilt (FnOnceReturnsAtMut F.FnOnce builder) self.new) }
        ensures refused { IfErr result (RefusesNone (FnOnceReturnsAtMut F.FnOnce builder)) }
        ensures unchanged { OnErr result (self.new ≡ self.old) }
    {
        let fields = built(alloc, builder)?;
        self.fields = Some(fields);
        Ok(())
    }
}

/// The fields that the builder makes of none.
fn built<E, F: FnOnce(&mut Fields) -> Result<(), E>>(alloc: Global, builder: F) -> Result<Fields, E>
    requires { F.IsAlwaysCallable builder }
    ensures fields { IfOk result (MakesOfNone (FnOnceReturnsAtMut F.FnOnce builder)) }
    ensures refused { IfErr result (RefusesNone (FnOnceReturnsAtMut F.FnOnce builder)) }
{
    let mut fields = Fields::new(alloc);
    match builder(&mut fields) {
        Ok(()) => Ok(fields),
        Err(refused) => Err(refused),
    }
}
