//! Schemas of enums: their variants one by one.
ghost use Rattle.std.specs.Prelude.{◌≡◌, ◌++◌, [], ◌∷◌, true, chars, map, MatchResult};
ghost use Rattle.ron_base.specs.declared.error.Error.TheVariants.{OutOfMemory};
ghost use Rattle.ron_spec_grammar.specs.Schema.{all_differ};
ghost use Rattle.ron_data_schema.specs.Shapes.{variant_view, content_view};
ghost use Rattle.ron_data_schema.specs.Table.{table_of};
ghost use Rattle.ron_types.specs.FieldNames.{texts_of};
ghost use Rattle.ron_types.specs.Kinds.{Kinds, holdings, names_in, table_of_enum};
ghost use Rattle.ron_types.specs.Rows.{AreNames, named_tables};
ghost use Rattle.ron_types.specs.Tables.{nothing, one, several, fields};

use crate::rows::Row;
use crate::tables::Parts;
use crate::traits::Schematic;
use ron_base::error::Result;
use ron_data_schema::schema::{FieldList, Schema, Shape, VariantShape};
use std::alloc::Global;

/// An enum.
pub trait Enum {
    /// Its variants in the order of its schema: their names, and what each holds.
    ghost variants: { Kinds };
}

/// The variants of an enum, and the schemas of what they hold behind one another.
#[derive(Drop)]
pub struct Variants {
    parts: Parts,
    variants: Vec<(String, VariantShape)>,
}

impl Variants {
    ghost use Rattle.ron_types.specs.Parts.{shapes_in};
    ghost use Rattle.ron_types.specs.Variants.{HasAdded, Adds, turned};

    /// No variants yet.
    pub fn new(alloc: Global) -> Variants
        ensures { HasAdded result [] }
    {
        Variants {
            parts: Parts::new(alloc),
            variants: Vec::new(alloc),
        }
    }

    /// Adds a variant that holds nothing. Refused by `OutOfMemory` alone, as the others are.
    pub fn unit(&mut self, alloc: Global, name: &str) -> Result<()>
        ensures { MatchResult result (λ _. Adds self.old self.new (chars name.now) nothing) (λ e. e ≡ OutOfMemory) }
    {
        self.push(alloc, name, VariantShape::Unit)
    }

    /// Adds a variant that holds one value.
    pub fn newtype<T: Schematic>(&mut self, alloc: Global, name: &str) -> Result<()>
        ensures { MatchResult result (λ _. Adds self.old self.new (chars name.now) (one T.schema_is)) (λ e. e ≡ OutOfMemory) }
    {
        let root = self.parts.add::<T>(alloc)?;
        self.push(alloc, name, VariantShape::Newtype(root))
    }

    /// Adds a variant that holds values of the types in a row.
    pub fn tuple<R: Row>(&mut self, alloc: Global, name: &str) -> Result<()>
        ensures { MatchResult result (λ _. Adds self.old self.new (chars name.now) (several R.tables)) (λ e. e ≡ OutOfMemory) }
    {
        let mut roots = Vec::new(alloc);
        R::add_items(alloc, &mut self.parts, &mut roots)?;
        self.push(alloc, name, VariantShape::Tuple(roots))
    }

    /// Adds a variant that holds values of the types in a row under these names, of which no text may leave one out.
    pub fn fields<R: Row>(&mut self, alloc: Global, name: &str, names: &[&str]) -> Result<()>
        requires { AreNames (texts_of names.now) R.tables }
        ensures { MatchResult result
            (λ _. Adds self.old self.new (chars name.now) (fields (named_tables (texts_of names.now) R.tables)))
            (λ e. e ≡ OutOfMemory) }
    {
        let mut fields = Vec::with_capacity(alloc, names.len())?;
        R::add_fields(alloc, &mut self.parts, names, &mut fields)?;
        let skip_unknown = false;
        let list = FieldList {
            fields,
            skip_unknown,
        };
        self.push(alloc, name, VariantShape::Struct(list))
    }

    /// The schema of the enum of this name, whose variants have been added. Refused by `OutOfMemory` alone.
    pub fn schema<E: Enum>(self, alloc: Global, name: &str) -> Result<Schema>
        requires added { HasAdded self (turned (holdings E.variants) []) }
        requires differ { all_differ (map chars (names_in E.variants)) ≡ true }
        ensures { MatchResult result (λ s. table_of s ≡ table_of_enum name.now E.variants) (λ e. e ≡ OutOfMemory) }
    {
        let Variants { parts, variants } = self;
        parts.top(Shape::Enum(String::from_str(alloc, name)?, variants))
    }

    /// Puts a variant behind the others.
    fn push(&mut self, alloc: Global, name: &str, shape: VariantShape) -> Result<()>
        ensures { MatchResult result
            (λ _. (self.new.parts ≡ self.old.parts)
            × (map variant_view self.new.variants.items
            ≡ map variant_view self.old.variants.items ++ record { name = chars name.now; content = content_view shape } ∷ []))
            (λ e. e ≡ OutOfMemory) }
    {
        self.variants.push((String::from_str(alloc, name)?, shape))?;
        Ok(())
    }
}
