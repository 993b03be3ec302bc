//! Values of fields, by the schema's list of fields, as they come.
ghost use Rattle.std.specs.Prelude.{◌≡◌, ◌≤◌, true, false, Some, map, set, chars, slice_get, vec_len, option_map};
ghost use Rattle.std.specs.Prelude.{IfSome, IfOk, OnOk, IfErr, MatchResult};
ghost use Rattle.std.specs.List.{All, Contains, position};
ghost use Rattle.ron_spec_grammar.specs.Schema.{is_called, names_differ};
ghost use Rattle.ron_base.specs.declared.error.Error.TheVariants.{OutOfMemory};
ghost use Rattle.ron_data.specs.Datum.{fields_view};
ghost use Rattle.ron_data_schema.specs.Shapes.{field_view};
ghost use Rattle.ron_data.specs.Slots.{is_filled, so_far, slots_in, fields_in, AreSlotsFor, IsEmpty, IsFree, IsAwaited, IsNameAt};
ghost use Rattle.ron_data.specs.Slots.{IsUnknownField, MissesField, AddsEmpty};

mod by_name;

use crate::data::Data;
use by_name::ByName;
use ron_base::error::{Error, Result};
use ron_data_schema::schema::{FieldList, FieldShape};
use std::alloc::Global;

/// A value or none for each field of a list. As long as fields come in the list's order they are kept as data has them,
/// with their names, and take no slot.
#[derive(Drop)]
pub struct Slots<'a> {
    in_turn: Vec<(String, Data<'a>)>,
    /// The name of the field whose turn it is. It is taken before that field's value is read, so that memory is taken in
    /// the order in which data is walked.
    next: Option<String>,
    /// From the first field on that isn't among these, as far as one came.
    others: Vec<Option<Data<'a>>>,
    /// Where fields of a wide list stand that come out of their turn.
    by_name: ByName,
}

impl<'a> Slots<'a> {
    /// No values yet, and room for one of each field.
    pub fn new(alloc: Global, list: &FieldList) -> Result<Self>
        ensures empty { IfOk result (IsEmpty list.now.fields.items) }
        ensures memory { IfErr result (λ e. e ≡ OutOfMemory) }
    {
        let in_turn = Vec::with_capacity(alloc, list.fields.len())?;
        let next = name_at(alloc, list.fields.as_slice(), 0)?;
        Ok(Slots {
            in_turn,
            next,
            others: Vec::new(alloc),
            by_name: ByName::new(alloc),
        })
    }

    /// Whether the field at an index has a value.
    #[inline(always)]
    pub fn is_filled(&self, index: usize) -> bool
        ensures { result ≡ is_filled (slice_get (so_far self.now) index) }
    {
        let turn = self.in_turn.len();
        if index < turn {
            return true;
        }
        is_full(self.others.as_slice(), index - turn)
    }

    /// The index of the field of this name. The one behind the furthest that came is looked at first, so that fields in
    /// the list's order are found at once where some are left out, and all of them only where the name isn't found by
    /// what is noted of a wide list.
    #[inline(always)]
    pub fn index_of(&self, list: &FieldList, name: &str) -> Option<usize>
        requires { names_differ (map field_view list.now.fields.items) ≡ true }
        ensures { result ≡ position (λ f. is_called (chars name.now) (field_view f)) list.now.fields.items }
    {
        let fields = list.fields.as_slice();
        let next = self.next_index();
        if let Some(field) = fields.get(next) {
            if field.is_called(name) {
                return Some(next);
            }
        }
        self.index_out_of_turn(fields, name)
    }

    /// The same of a field that isn't the next one.
    #[inline(never)]
    fn index_out_of_turn(&self, fields: &[FieldShape], name: &str) -> Option<usize>
        requires { names_differ (map field_view fields.now) ≡ true }
        ensures { result ≡ position (λ f. is_called (chars name.now) (field_view f)) fields.now }
    {
        if let Some(index) = self.by_name.find(fields, name) {
            return Some(index);
        }
        fields.iter().position(|field| field.is_called(name))
    }

    /// The index and the name of the field whose turn it is: the one behind those that came, where all these came in the
    /// list's order. It has no value yet. So its name can be looked for where it is awaited.
    #[inline(always)]
    pub fn awaited<'l>(&self, list: &'l FieldList) -> Option<(usize, &'l str)>
        requires { names_differ (map field_view list.now.fields.items) ≡ true }
        ensures turn { IsAwaited list.now.fields.items self.now (option_map (λ p. p.0) result) }
        ensures named { IfSome result (λ p. Some p.0
            ≡ position (λ f. is_called (chars p.1.now) (field_view f)) list.now.fields.items) }
    {
        if !self.others.is_empty() {
            return None;
        }
        let turn = self.in_turn.len();
        let fields = list.fields.as_slice();
        match fields.get(turn) {
            Some(field) => Some((turn, field.name.as_str())),
            None => None,
        }
    }

    /// The index behind the furthest field that came.
    #[inline(always)]
    fn next_index(&self) -> usize {
        self.in_turn.len().saturating_add(self.others.len())
    }

    /// Puts in the value of the field at an index, which has none yet. Refused by `OutOfMemory` alone.
    #[inline(always)]
    pub fn put(
        &mut self,
        alloc: Global,
        list: &FieldList,
        index: usize,
        value: Data<'a>,
    ) -> Result<()>
        requires named { AreSlotsFor list.now.fields.items self.old }
        requires free { IsFree list.now.fields.items self.old index }
        ensures slots { OnOk result (slots_in list.now.fields.items self.new
            ≡ set (slots_in list.now.fields.items self.old) index (Some value.entry)) }
        ensures named { OnOk result (AreSlotsFor list.now.fields.items self.new) }
        ensures memory { IfErr result (λ e. e ≡ OutOfMemory) }
    {
        let turn = self.in_turn.len();
        if index == turn && self.others.is_empty() {
            let Some(name) = self.next.take() else {
                unreachable!()
            };
            self.in_turn.push((name, value))?;
            self.next = name_at(alloc, list.fields.as_slice(), turn + 1)?;
            return Ok(());
        }
        self.put_out_of_turn(alloc, list, index, value)
    }

    /// The same where it isn't the field's turn. Kept apart, so that a field in its turn costs little.
    #[inline(never)]
    fn put_out_of_turn(
        &mut self,
        alloc: Global,
        list: &FieldList,
        index: usize,
        value: Data<'a>,
    ) -> Result<()>
        requires named { AreSlotsFor list.now.fields.items self.old }
        requires free { IsFree list.now.fields.items self.old index }
        ensures slots { OnOk result (slots_in list.now.fields.items self.new
            ≡ set (slots_in list.now.fields.items self.old) index (Some value.entry)) }
        ensures named { OnOk result (AreSlotsFor list.now.fields.items self.new) }
        ensures memory { IfErr result (λ e. e ≡ OutOfMemory) }
    {
        let turn = self.in_turn.len();
        let is_next = index == self.next_index();
        self.by_name.note(alloc, list.fields.as_slice(), is_next)?;
        add_empty(&mut self.others, index - turn + 1)?;
        self.others[index - turn] = Some(value);
        Ok(())
    }

    /// The fields in the list's order. A field with no value is refused, unless it may be missing; the name is that of
    /// what holds the fields.
    #[inline(always)]
    pub fn into_fields(
        self,
        alloc: Global,
        outer: &str,
        list: &FieldList,
    ) -> Result<Vec<(String, Data<'a>)>>
        requires named { AreSlotsFor list.now.fields.items self }
        ensures value { MatchResult result
            (λ all. fields_in list.now.fields.items self.entry ≡ Some (fields_view all.items))
            (MissesField (fields_in list.now.fields.items self.entry ≡ None)) }
        ensures parts { IfOk result (λ all. All (λ f. Contains (slots_in list.now.fields.items self.entry) (Some f.1)) all.items) }
    {
        if self.in_turn.len() == list.fields.len() {
            return Ok(self.in_turn);
        }
        self.with_others(alloc, outer, list)
    }

    /// The same where some came out of turn, or not at all.
    #[inline(never)]
    fn with_others(
        self,
        alloc: Global,
        outer: &str,
        list: &FieldList,
    ) -> Result<Vec<(String, Data<'a>)>>
        requires named { AreSlotsFor list.now.fields.items self }
        ensures value { MatchResult result
            (λ all. fields_in list.now.fields.items self.entry ≡ Some (fields_view all.items))
            (MissesField (fields_in list.now.fields.items self.entry ≡ None)) }
        ensures parts { IfOk result (λ all. All (λ f. Contains (slots_in list.now.fields.items self.entry) (Some f.1)) all.items) }
    {
        let Slots {
            in_turn: mut all,
            others,
            next: _,
            by_name: _,
        } = self;
        let behind = &list.fields.as_slice()[all.len()..];
        let mut others = others.into_iter();
        for field in behind {
            let Some(value) = others.next().flatten() else {
                leave_out(alloc, outer, field)?;
                continue;
            };
            let name = String::from_str(alloc, field.name.as_str())?;
            all.push((name, value))?;
        }
        give_up_room(&mut all);
        Ok(all)
    }
}

/// A copy of the name of the field at an index, where there is one. Refused by `OutOfMemory` alone.
#[inline(always)]
fn name_at(alloc: Global, fields: &[FieldShape], index: usize) -> Result<Option<String>>
    ensures name { IfOk result (IsNameAt fields.now index) }
    ensures memory { IfErr result (λ e. e ≡ OutOfMemory) }
{
    match fields.get(index) {
        Some(field) => Ok(Some(String::from_str(alloc, field.name.as_str())?)),
        None => Ok(None),
    }
}

/// Whether there is a slot at an index, and it is full.
fn is_full<T>(slots: &[Option<T>], index: usize) -> bool
    ensures { result ≡ is_filled (slice_get slots.now index) }
{
    matches!(slots.get(index), Some(Some(_)))
}

/// Adds empty slots up to this number of slots.
fn add_empty<T: Drop>(slots: &mut Vec<Option<T>>, len: usize) -> Result<()>
    ensures slots { OnOk result (AddsEmpty slots.old.items slots.new.items) }
    ensures len { OnOk result (len ≤ vec_len slots.new) }
    ensures memory { IfErr result (λ e. e ≡ OutOfMemory) }
{
    while slots.len() < len {
        slots.push(None)?;
    }
    Ok(())
}

/// Gives up the room for more items where that is half of it or more.
fn give_up_room<T>(items: &mut Vec<T>)
    ensures { items.new.items ≡ items.old.items }
{
    if items.len() <= items.capacity() / 2 {
        items.shrink_to_fit();
    }
}

/// A field without a value is left out where it may be missing, and else refused.
fn leave_out(alloc: Global, outer: &str, field: &FieldShape) -> Result<()>
    ensures { MatchResult result
        (λ _. field.now.may_be_missing ≡ true)
        (MissesField (field.now.may_be_missing ≡ false)) }
{
    if field.may_be_missing {
        return Ok(());
    }
    Err(Error::MissingStructField {
        field: String::from_str(alloc, field.name.as_str())?,
        outer: outer_name(alloc, outer)?,
    })
}

/// What is reported where the list has no field of this name.
#[cold]
#[inline(never)]
pub fn unknown_field(alloc: Global, outer: &str, list: &FieldList, found: &str) -> Result<Error>
    ensures { MatchResult result IsUnknownField (λ e. e ≡ OutOfMemory) }
{
    let mut expected = Vec::with_capacity(alloc, list.fields.len())?;
    for field in list.fields.as_slice() {
        expected.push(String::from_str(alloc, field.name.as_str())?)?;
    }
    Ok(Error::NoSuchStructField {
        expected,
        found: String::from_str(alloc, found)?,
        outer: outer_name(alloc, outer)?,
    })
}

/// A struct's or an enum's name as errors of what stands in it hold it: none where it is empty.
pub fn outer_name(alloc: Global, outer: &str) -> Result<Option<String>>
    ensures { IfErr result (λ e. e ≡ OutOfMemory) }
{
    if outer.is_empty() {
        Ok(None)
    } else {
        Ok(Some(String::from_str(alloc, outer)?))
    }
}
