//! Why an example fails.
use ron::error::{Error, SpannedError};
use std::alloc::AllocError;
use std::fmt;
use std::fmt::{Display, Formatter, Write};

/// Why an example fails.
#[derive(Drop)]
pub enum ExampleFault {
    /// A text that isn't read, and where.
    Text(SpannedError),
    /// Data that isn't written.
    Data(Error),
}

impl From<SpannedError> for ExampleFault {
    fn from(refused: SpannedError) -> ExampleFault {
        ExampleFault::Text(refused)
    }
}

impl From<Error> for ExampleFault {
    fn from(refused: Error) -> ExampleFault {
        ExampleFault::Data(refused)
    }
}

impl From<AllocError> for ExampleFault {
    fn from(_refused: AllocError) -> ExampleFault {
        ExampleFault::Data(Error::OutOfMemory)
    }
}

impl Display for ExampleFault {
    fn fmt<W: Write>(&self, f: &mut Formatter<W>) -> fmt::Result {
        match self {
            ExampleFault::Text(refused) => write!(f, "{refused}"),
            ExampleFault::Data(refused) => write!(f, "{refused}"),
        }
    }
}
