//! How many items a tuple has.
ghost use Rattle.std.specs.Prelude.{◌≡◌, IfErr, MatchResult};
ghost use Rattle.ron_base.specs.declared.error.Error.TheVariants.{OutOfMemory};
ghost use Rattle.ron_de_steps.specs.Errors.{IsMemoryOr};
ghost use Rattle.ron_de_parts.specs.Errors.{IsOfText, IsOfReading};

use ron_base::error::{Error, Result};
use std::alloc::Global;

/// Whose items are read. An error about how many there are names it.
#[derive(Clone, Copy)]
pub enum Owner<'n> {
    Tuple,
    /// A tuple struct of this name.
    Struct(&'n str),
    /// An enum of the first name, and of its variants the one of the second.
    Variant(&'n str, &'n str),
}

/// Refuses another number of items than of shapes.
pub fn expect_length(alloc: Global, owner: Owner<'_>, expected: usize, found: usize) -> Result<()>
    ensures value { MatchResult result (λ _. found ≡ expected) (IsMemoryOr (found ≡ expected → ⊥)) }
    ensures fault { IfErr result IsOfReading }
{
    if found != expected {
        return Err(other_length(alloc, owner, expected, found)?);
    }
    Ok(())
}

/// What is reported of fewer items than shapes.
#[cold]
#[inline(never)]
fn other_length(alloc: Global, owner: Owner<'_>, expected: usize, found: usize) -> Result<Error>
    ensures { MatchResult result IsOfText (λ e. e ≡ OutOfMemory) }
{
    let elements = if expected == 1 { "element" } else { "elements" };
    let expected = match owner {
        Owner::Tuple => format!(in alloc; "a tuple of size {expected}")?,
        Owner::Struct(name) => format!(in alloc; "tuple struct {name} with {expected} {elements}")?,
        Owner::Variant(name, variant) => {
            format!(in alloc; "tuple variant {name}::{variant} with {expected} {elements}")?
        }
    };
    Ok(Error::ExpectedDifferentLength { expected, found })
}
