//! What reading hands on from one value to the values in it.
ghost use Rattle.std.specs.Prelude.{◌≡◌, None, length, true, IfSome, MatchResult};
ghost use Rattle.ron_spec_grammar.specs.Schema.{holds_below, has_distinct_names, content_of};
ghost use Rattle.ron_base.specs.declared.error.Error.TheVariants.{ExceededRecursionLimit};
ghost use Rattle.ron_base.specs.Limit.{one_deeper};
ghost use Rattle.ron_data_schema.specs.Shapes.{shape_view, IsShapeAt, IsOneLonger};
ghost use Rattle.ron_data_schema.specs.Table.{shapes_of};
ghost use Rattle.ron_de_parts.specs.Terms.{IsDeeper, conditions_of, source_view};

use ron_base::error::Result;
use ron_base::extensions::Extensions;
use ron_data_schema::schema::{Schema, Shape};
use ron_de_steps::context as reading;
use std::alloc::Global;
use std::marker::Model;

/// What every value is read under, the schema that is read by, and how texts are kept.
#[derive(Drop)]
pub struct Context<'s, 'o> {
    reading: reading::Context,
    schema: &'s Schema,
    /// The text that slices are taken of, which is the one that is read; none where texts are copied.
    source: Option<&'o str>,
}

impl<'s, 'o> Model for Context<'s, 'o> {
    ghost use Rattle.ron_data_schema.specs.Table.{shapes_of};
    ghost use Rattle.ron_de_parts.specs.Terms.{Terms, source_view};

    ghost Value = { Terms };

    ghost view = { λ c. record {
      extensions = c.reading.extensions;
      schema = shapes_of c.schema.now;
      limit = c.reading.limit;
      source = source_view c.source;
    } };
}

impl<'s, 'o> Context<'s, 'o> {
    /// Reading by a schema under these extensions, at most `limit` levels deep. Where the text that is read is that of
    /// `source`, texts are kept as slices of it; else they are copied.
    pub fn new(
        alloc: Global,
        extensions: Extensions,
        schema: &'s Schema,
        limit: Option<usize>,
        source: Option<&'o str>,
    ) -> Self
        ensures { result ≡ record {
          extensions = extensions;
          schema = shapes_of schema.now;
          limit = limit;
          source = source_view source.entry;
        } }
    {
        Context {
            reading: reading::Context::new(alloc, extensions, limit),
            schema,
            source,
        }
    }

    /// Where memory comes from.
    pub fn alloc(&self) -> Global {
        self.reading.alloc()
    }

    /// Whether a struct's name can't be left out.
    pub fn requires_names(&self) -> bool
        ensures { result ≡ self.now.extensions.explicit_struct_names }
    {
        self.reading.requires_names()
    }

    /// Whether a newtype is written as its content alone.
    pub fn unwraps_newtypes(&self) -> bool
        ensures { result ≡ self.now.extensions.unwrap_newtypes }
    {
        self.reading.unwraps_newtypes()
    }

    /// Whether bare content stands in the parentheses of a `Some` and of a variant with one value.
    pub fn unwraps_variants(&self) -> bool
        ensures { result ≡ self.now.extensions.unwrap_variant_newtypes }
    {
        self.reading.unwraps_variants()
    }

    /// Whether the content of a `Some` may stand alone.
    pub fn implies_some(&self) -> bool
        ensures { result ≡ self.now.extensions.implicit_some }
    {
        self.reading.implies_some()
    }

    /// The text that slices are taken of.
    pub(crate) fn source(&self) -> Option<&'o str>
        ensures { source_view result ≡ self.now.source }
    {
        self.source
    }

    /// The same without the schema.
    pub fn reading(&self) -> &reading::Context
        ensures { result.now ≡ conditions_of self.now }
    {
        &self.reading
    }

    /// The shape at an index of the table.
    pub fn shape(&self, index: usize) -> Option<&'s Shape>
        ensures value { IsShapeAt self.now.schema index result }
        ensures in_range { IfSome result (λ s. holds_below (length self.now.schema) (shape_view s.now) ≡ true) }
        ensures distinct { IfSome result (λ s. has_distinct_names (shape_view s.now) ≡ true) }
        ensures falls { IfSome result (λ s. IsOneLonger self.now.schema index (content_of (shape_view s.now))) }
    {
        self.schema.shape(index)
    }

    /// The same one level deeper. Where no level is left, that is refused by `ExceededRecursionLimit`.
    #[inline(always)]
    pub fn deeper(&self) -> Result<Context<'s, 'o>>
        ensures { MatchResult result
            (λ inner. IsDeeper self.now inner)
            (λ e. (e ≡ ExceededRecursionLimit) × (one_deeper self.now.limit ≡ None)) }
    {
        Ok(Context {
            reading: self.reading.deeper()?,
            schema: self.schema,
            source: self.source,
        })
    }
}
