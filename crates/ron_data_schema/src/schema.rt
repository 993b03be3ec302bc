//! Schemas: tables of shapes that name one another by index.
ghost use Rattle.std.specs.Prelude.{◌≡◌, ◌≤◌, ◌+◌, ◌++◌, true, length, map, chars, IsOk, MatchResult, IfSome};
ghost use Rattle.std.specs.Prelude.{vec_len, vec_capacity};
ghost use Rattle.std.specs.List.{list_all, list_any};
ghost use Rattle.ron_spec_grammar.specs.Schema.{is_well_formed, holds_below, has_distinct_names, content_of};
ghost use Rattle.ron_spec_words.specs.Runs.{same_text};
ghost use Rattle.ron_spec_grammar.specs.Schema.{is_called};
ghost use Rattle.ron_spec_grammar.specs.Room.{chain};
ghost use Rattle.ron_data_schema.specs.Shapes.{table_view, shape_view, IsShapeAt, IsOneLonger};
ghost use Rattle.ron_data_schema.specs.Shapes.{moved, takes_no_memory, field_view, text_view};
ghost use Rattle.ron_data_schema.specs.Refusals.{RefusesTable};
ghost use Rattle.ron_base.specs.declared.error.Error.TheVariants.{OutOfMemory};

mod chains;
mod import;
mod indices;
mod names;
mod ranges;

use ron_base::error::{Error, Result, SchemaFault};
use ron_lex_text::text::is_same;
pub use ron_value_number::Width;

/// What a place of a text may spell. Numbers are indices into the schema's table.
#[derive(Debug, PartialEq, Eq, Drop)]
pub enum Shape {
    Bool,
    /// An integer of this width.
    Int(Width),
    /// A character.
    Char,
    /// A string.
    Str,
    /// Bytes: a byte string, or a list of `u8`.
    Bytes,
    /// The unit, `()`.
    Unit,
    /// A value that may be there, of this shape.
    Option(usize),
    /// A struct without fields, by its name.
    UnitStruct(String),
    /// A list of this shape.
    Seq(usize),
    /// A tuple of these shapes.
    Tuple(Vec<usize>),
    /// A map: the shape of its keys and that of its values.
    Map(usize, usize),
    /// The name of a struct whose fields have no names, with their shapes.
    TupleStruct(String, Vec<usize>),
    /// The name of a struct with one field that has no name, and that field's shape.
    Newtype(String, usize),
    /// A struct by its name, with its fields.
    Struct(String, FieldList),
    /// An enum by its name, with its variants by theirs.
    Enum(String, Vec<(String, VariantShape)>),
    /// Whatever a value without a schema may be.
    Value,
    /// The same, kept as its text.
    Raw,
}

/// What a variant of an enum holds.
#[derive(Debug, PartialEq, Eq, Drop)]
pub enum VariantShape {
    Unit,
    /// One value of this shape.
    Newtype(usize),
    /// A value of each of these shapes.
    Tuple(Vec<usize>),
    Struct(FieldList),
}

/// The fields of a struct. Where unknown ones are skipped, others may stand among them.
#[derive(Debug, PartialEq, Eq, Drop)]
pub struct FieldList {
    pub fields: Vec<FieldShape>,
    pub skip_unknown: bool,
}

/// A field by its name, what else a text may call it, the index of its shape, and whether a text may leave it out.
#[derive(Debug, PartialEq, Eq, Drop)]
pub struct FieldShape {
    pub name: String,
    pub aliases: Vec<String>,
    pub shape: usize,
    pub may_be_missing: bool,
}

impl FieldShape {
    /// Whether a text may call the field so: by its name, or an alias.
    pub fn is_called(&self, name: &str) -> bool
        ensures { result ≡ is_called (chars name.now) (field_view self.now) }
    {
        is_same(self.name.as_str(), name) || is_text_among(self.aliases.as_slice(), name)
    }
}

/// Whether one of the texts is this one.
fn is_text_among(texts: &[String], text: &str) -> bool
    ensures { result ≡ list_any (λ t. same_text (text_view t) (chars text.now)) texts.now }
{
    texts.iter().any(|one| is_same(one.as_str(), text))
}

/// A well-formed table of shapes, and the index of the one that a text is read by: each index lies in the table, no
/// option or newtype leads back to itself through options and newtypes alone, the names among one list of fields or
/// variants are distinct, and no field of a range struct may be missing.
#[derive(Debug, PartialEq, Eq, Drop)]
pub struct Schema {
    shapes: Vec<Shape>,
    root: usize,
    /// The members of the longest chain of options and newtypes.
    longest: usize,
    ghost well_formed: { is_well_formed (table_view shapes.items) root ≡ true },
    ghost is_longest: { longest ≡ chain (table_view shapes.items) },
}

impl Schema {
    ghost use Rattle.ron_data_schema.specs.Table.{shapes_of, root_of};

    /// A schema of these shapes. A table that isn't well formed is refused by `InvalidSchema`, with the first fault
    /// that it has, in the order in which `SchemaFault` names them. May be refused by `OutOfMemory` too. Takes time in
    /// proportion to the table, and as n log n for each list of fields or variants with n names.
    pub fn new(shapes: Vec<Shape>, root: usize) -> Result<Schema>
        ensures { MatchResult result (λ s. (shapes_of s ≡ table_view shapes.items) × (root_of s ≡ root))
            (RefusesTable (table_view shapes.items) root) }
    {
        if !indices::is_in_range(&shapes, root) {
            return Err(Error::InvalidSchema(SchemaFault::IndexOutOfRange));
        }
        let alloc = *shapes.allocator();
        let Some(longest) = chains::longest_chain(alloc, &shapes)? else {
            return Err(Error::InvalidSchema(SchemaFault::Cycle));
        };
        if !names::are_distinct(alloc, &shapes)? {
            return Err(Error::InvalidSchema(SchemaFault::DuplicateName));
        }
        if !ranges::are_whole(&shapes) {
            return Err(Error::InvalidSchema(SchemaFault::MissingRangeField));
        }
        Ok(Schema {
            shapes,
            root,
            longest,
        })
    }

    /// Puts the schema's shapes behind those of a list, with their indices moved to where they then stand, and answers
    /// where the schema's root stands. Where memory is refused the list is as it was. None is asked for where the list
    /// has room, and the schema's shapes hold neither names nor lists.
    pub fn import(shapes: &mut Vec<Shape>, other: &Schema) -> Result<usize>
        ensures value { MatchResult result
            (λ root. (table_view shapes.new.items ≡ table_view shapes.old.items ++ map (moved (length shapes.old.items)) (shapes_of other.now))
            × (root ≡ length shapes.old.items + root_of other.now))
            (λ e. (e ≡ OutOfMemory) × (shapes.new.items ≡ shapes.old.items)) }
        ensures in_place { vec_len shapes.old + length (shapes_of other.now) ≤ vec_capacity shapes.old →
            list_all takes_no_memory (shapes_of other.now) ≡ true → IsOk result }
    {
        let root = shapes.len() + other.root;
        import::append_moved(shapes, &other.shapes)?;
        Ok(root)
    }

    /// The shape at an index of the table.
    #[inline]
    pub fn shape(&self, index: usize) -> Option<&Shape>
        ensures value { IsShapeAt (shapes_of self.now) index result }
        ensures in_range { IfSome result (λ s. holds_below (length (shapes_of self.now)) (shape_view s.now) ≡ true) }
        ensures distinct { IfSome result (λ s. has_distinct_names (shape_view s.now) ≡ true) }
        ensures falls { IfSome result (λ s. IsOneLonger (shapes_of self.now) index (content_of (shape_view s.now))) }
    {
        self.shapes.get(index)
    }

    /// The index of the shape that a text is read by.
    pub fn root(&self) -> usize
        ensures value { result ≡ root_of self.now }
        ensures well_formed { is_well_formed (shapes_of self.now) result ≡ true }
    {
        self.root
    }

    /// How many shapes the table has.
    pub fn len(&self) -> usize
        ensures { result ≡ length (shapes_of self.now) }
    {
        self.shapes.len()
    }

    /// How many options and newtypes at most stand directly within one another.
    pub fn chain(&self) -> usize
        ensures { result ≡ chain (shapes_of self.now) }
    {
        self.longest
    }
}
