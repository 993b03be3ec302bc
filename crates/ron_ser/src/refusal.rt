//! Why data is not written.
ghost use Rattle.ron_ser.specs.Refusal.{IsErrorOf};

use ron_base::error::Error;
use std::alloc::Global;

/// Why data is not written. It takes no memory, and is small enough to be handed on from value to value.
#[derive(Clone, Copy)]
pub enum Refusal<'a> {
    /// No identifier spells this name.
    Name(&'a str),
    /// No level is left.
    Depth,
}

/// What a call answers that writes data.
pub type Written<'a> = std::result::Result<(), Refusal<'a>>;

impl Refusal<'_> {
    /// The error that tells of it, or `OutOfMemory` where it finds no room for the name.
    #[cold]
    pub fn error(self, alloc: Global) -> Error
        ensures { IsErrorOf self.entry result }
    {
        match self {
            Refusal::Name(name) => match String::from_str(alloc, name) {
                Ok(name) => Error::InvalidIdentifier(name),
                Err(refused) => Error::from(refused),
            },
            Refusal::Depth => Error::ExceededRecursionLimit,
        }
    }
}
