//! What text is put into, piece by piece.
ghost use Rattle.std.specs.Prelude.{ℕ, List};
ghost use Rattle.ron_base_device.specs.Output.{PutsText};

use crate::puts::Puts;
use ron_base::error::{Error, Result};

/// What text is put into. Where a put fails, that is the output's to keep.
pub trait Output {
    /// What a put does: the output before, the bytes of the piece, the output afterwards.
    ghost puts: { Self → List ℕ → Self → Type 0 };

    /// Puts a piece of text behind what was put before.
    fn put(&mut self, piece: &str)
        ensures { puts self.old piece.now self.new };
}

/// Why a put failed, if one did.
#[derive(Drop)]
pub struct OutputFault {
    error: Option<Error>,
}

impl OutputFault {
    ghost use Rattle.std.specs.Prelude.{◌≡◌, Some, None};
    ghost use Rattle.ron_base_device.specs.Output.{error_of, IsAnswer};

    /// No put has failed.
    pub fn none() -> Self
        ensures { error_of result ≡ None }
    {
        OutputFault { error: None }
    }

    /// Keeps why a put failed.
    #[cold]
    pub(crate) fn keep(&mut self, error: Error)
        ensures { error_of self.new ≡ Some error }
    {
        self.error = Some(error);
    }

    /// The error of the put that failed, or else what this answers.
    pub fn answer(self, written: Result<()>) -> Result<()>
        ensures { IsAnswer (error_of self) written result }
    {
        match self.error {
            Some(error) => Err(error),
            None => written,
        }
    }
}

/// A writer that takes text until a put fails. The fault is kept, and from then on the writer is left alone. The output
/// owns no memory, so that writer and fault are known once it is dropped.
#[derive(Drop)]
pub struct TextOutput<'a, W, P> {
    writer: &'a mut W,
    by: &'a P,
    fault: &'a mut OutputFault,
}

impl<'a, W, P> TextOutput<'a, W, P> {
    ghost use Rattle.std.specs.Prelude.{◌≡◌};
    ghost use Rattle.ron_base_device.specs.Output.{writer_of, fault_of, name_of_writer, name_of_fault, error_of};

    /// Putting text into a writer in this way, and keeping the fault there.
    pub fn new(writer: &'a mut W, by: &'a P, fault: &'a mut OutputFault) -> Self
        ensures writer { writer_of result ≡ writer.old }
        ensures fault { fault_of result ≡ error_of fault.old }
        ensures same_writer { name_of_writer result ≡ writer.entry.ghost_name }
        ensures same_fault { name_of_fault result ≡ fault.entry.ghost_name }
    {
        TextOutput { writer, by, fault }
    }
}

impl<W, P: Puts<W>> Output for TextOutput<'_, W, P> {
    ghost puts = { PutsText P.took P.left P.refuses };

    #[inline(always)]
    fn put(&mut self, piece: &str) {
        if self.fault.error.is_some() {
            return;
        }
        self.by.put_keeping(self.writer, piece, self.fault);
    }
}
