//! What reading hands on from one value to the values in it.
ghost use Rattle.std.specs.Prelude.{◌≡◌, None, MatchResult};
ghost use Rattle.ron_base.specs.declared.error.Error.TheVariants.{ExceededRecursionLimit};
ghost use Rattle.ron_base.specs.Limit.{one_deeper};
ghost use Rattle.ron_de_steps.specs.Conditions.{IsDeeper};

use ron_base::error::Result;
use ron_base::extensions::Extensions;
use ron_base::limit::deeper;
use std::alloc::Global;
use std::marker::Model;

/// The extensions in force, the levels that are left, and where memory comes from.
#[derive(Drop)]
pub struct Context {
    alloc: Global,
    extensions: Extensions,
    limit: Option<usize>,
}

impl Model for Context {
    ghost use Rattle.ron_de_steps.specs.Conditions.{Conditions};

    ghost Value = { Conditions };

    ghost view = { λ c. record { extensions = c.extensions; limit = c.limit } };
}

impl Context {
    /// Reading under these extensions, at most `limit` levels deep.
    pub fn new(alloc: Global, extensions: Extensions, limit: Option<usize>) -> Self
        ensures { result ≡ record { extensions = extensions; limit = limit } }
    {
        Context {
            alloc,
            extensions,
            limit,
        }
    }

    /// Where memory comes from.
    pub fn alloc(&self) -> Global {
        self.alloc
    }

    /// Whether a struct's name can't be left out.
    pub fn requires_names(&self) -> bool
        ensures { result ≡ self.now.extensions.explicit_struct_names }
    {
        self.extensions.contains(Extensions::EXPLICIT_STRUCT_NAMES)
    }

    /// Whether a newtype is written as its content alone.
    pub fn unwraps_newtypes(&self) -> bool
        ensures { result ≡ self.now.extensions.unwrap_newtypes }
    {
        self.extensions.contains(Extensions::UNWRAP_NEWTYPES)
    }

    /// Whether bare content stands in the parentheses of a `Some` and of a variant with one value.
    pub fn unwraps_variants(&self) -> bool
        ensures { result ≡ self.now.extensions.unwrap_variant_newtypes }
    {
        self.extensions
            .contains(Extensions::UNWRAP_VARIANT_NEWTYPES)
    }

    /// Whether the content of a `Some` may stand alone.
    pub fn implies_some(&self) -> bool
        ensures { result ≡ self.now.extensions.implicit_some }
    {
        self.extensions.contains(Extensions::IMPLICIT_SOME)
    }

    /// The same one level deeper. Where no level is left, that is refused by `ExceededRecursionLimit`.
    #[inline(always)]
    pub fn deeper(&self) -> Result<Context>
        ensures { MatchResult result
            (λ inner. IsDeeper self.now inner)
            (λ e. (e ≡ ExceededRecursionLimit) × (one_deeper self.now.limit ≡ None)) }
    {
        Ok(Context {
            alloc: self.alloc,
            extensions: self.extensions,
            limit: deeper(self.limit)?,
        })
    }
}
