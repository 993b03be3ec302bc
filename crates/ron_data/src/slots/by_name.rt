//! Where the fields of a list stand, by their names.
ghost use Rattle.std.specs.Prelude.{◌≡◌, true, Some, map, chars, IfSome, IfErr};
ghost use Rattle.std.specs.List.{position};
ghost use Rattle.ron_spec_grammar.specs.Schema.{is_called, names_differ};
ghost use Rattle.ron_base.specs.declared.error.Error.TheVariants.{OutOfMemory};
ghost use Rattle.ron_data_schema.specs.Shapes.{field_view};

use ron_base::error::Result;
use ron_data_schema::schema::FieldShape;
use std::alloc::Global;

/// Noting a list's fields takes about as long as this many walks over it. So they are noted when as many were walked
/// for, which never happens in a list that isn't wide.
const WALKS: usize = 128;

/// A name of a field: its index in a list, and which of its names it is, its own first.
#[derive(Clone, Copy)]
struct Spot {
    field: usize,
    name: usize,
}

/// The names of a list's fields in their order, once many fields were walked for. They are only a hint: the field at an
/// index is looked at before the index is answered. So no proof needs the order, and that of another list costs time
/// alone.
#[derive(Drop)]
pub(super) struct ByName {
    /// Empty until the fields are noted.
    spots: Vec<Spot>,
    /// How many fields may still be walked for before all are noted.
    walks_left: usize,
}

impl ByName {
    /// Nothing noted yet, which takes no memory.
    pub(super) fn new(alloc: Global) -> Self {
        ByName {
            spots: Vec::new(alloc),
            walks_left: WALKS,
        }
    }

    /// A field of this list has come out of turn. Unless it is the next one, which is looked at first, the list was
    /// walked over for it, and with the last such walk all are noted. Refused by `OutOfMemory` alone.
    pub(super) fn note(&mut self, alloc: Global, fields: &[FieldShape], is_next: bool) -> Result<()>
        ensures memory { IfErr result (λ e. e ≡ OutOfMemory) }
    {
        if is_next || self.walks_left == 0 {
            return Ok(());
        }
        self.walks_left -= 1;
        if self.walks_left == 0 {
            self.spots = spots_of(alloc, fields)?;
            self.spots
                .as_mut_slice()
                .sort_unstable_by_key(|spot| name_at(fields, *spot));
        }
        Ok(())
    }

    /// The index of the field of this name, where it is found by what is noted.
    pub(super) fn find(&self, fields: &[FieldShape], name: &str) -> Option<usize>
        requires { names_differ (map field_view fields.now) ≡ true }
        ensures { IfSome result (λ i. Some i ≡ position (λ f. is_called (chars name.now) (field_view f)) fields.now) }
    {
        let found = self
            .spots
            .binary_search_by_key(&name, |spot| name_at(fields, *spot));
        let index = self.spots[found.ok()?].field;
        has_name(fields, index, name).then_some(index)
    }
}

/// Whether the field at an index has this name.
fn has_name(fields: &[FieldShape], index: usize, name: &str) -> bool
    requires { names_differ (map field_view fields.now) ≡ true }
    ensures { result ≡ true → Some index ≡ position (λ f. is_called (chars name.now) (field_view f)) fields.now }
{
    match fields.get(index) {
        Some(field) => field.is_called(name),
        None => false,
    }
}

fn spots_of(alloc: Global, fields: &[FieldShape]) -> Result<Vec<Spot>>
    ensures memory { IfErr result (λ e. e ≡ OutOfMemory) }
{
    let mut spots = Vec::with_capacity(alloc, fields.len())?;
    for (index, field) in fields.iter().enumerate() {
        add_spots(&mut spots, index, field.aliases.len())?;
    }
    Ok(spots)
}

fn add_spots(spots: &mut Vec<Spot>, field: usize, last: usize) -> Result<()>
    ensures memory { IfErr result (λ e. e ≡ OutOfMemory) }
{
    for name in 0..=last {
        spots.push(Spot { field, name })?;
    }
    Ok(())
}

/// The name that stands there, or an empty one.
fn name_at(fields: &[FieldShape], spot: Spot) -> &str {
    let Some(field) = fields.get(spot.field) else {
        return "";
    };
    let Some(alias) = spot.name.checked_sub(1) else {
        return field.name.as_str();
    };
    match field.aliases.as_slice().get(alias) {
        Some(alias) => alias.as_str(),
        None => "",
    }
}
