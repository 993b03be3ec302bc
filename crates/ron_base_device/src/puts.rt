//! How text is put into a writer, and what is told of that.
ghost use Rattle.std.specs.Prelude.{◌≡◌, ◌++◌, ℕ, List, None, MatchResult, ⊤, string_bytes};
ghost use Rattle.ron_base.specs.declared.error.Error.{Error};
ghost use Rattle.ron_base.specs.declared.error.Error.TheVariants as error;
ghost use Rattle.ron_base_device.specs.Device.{RefusesDevice};
ghost use Rattle.ron_base_device.specs.Gathered.{Gathers, Loses, sink_of};
ghost use Rattle.ron_base_device.specs.Output.{Put, error_of};

use crate::gathered::Gathered;
use crate::output::OutputFault;
use crate::sink::Sink;
use ron_base::error::{Error, Result};
use std::fmt;

/// A way to put text into a writer of type `W`.
pub trait Puts<W> {
    /// What a put did that answers Ok: the writer before, the bytes of the piece, the writer afterwards.
    ghost took: { W → List ℕ → W → Type 0 };

    /// What a put left that failed.
    ghost left: { W → List ℕ → W → Type 0 };

    /// The errors that a put answers, and the writer afterwards.
    ghost refuses: { W → Error → Type 0 };

    /// Puts a piece of text behind what the writer holds.
    fn put(&self, writer: &mut W, piece: &str) -> Result<()>
        ensures { MatchResult result (λ _. took writer.old piece.now writer.new)
            (λ e. left writer.old piece.now writer.new × refuses writer.new e) };

    /// The same, where no put has failed before: why this one fails is kept.
    #[inline(always)]
    fn put_keeping(&self, writer: &mut W, piece: &str, fault: &mut OutputFault)
        requires { error_of fault.old ≡ None }
        ensures { Put None (error_of fault.new) (took writer.old piece.now writer.new)
            (λ e. left writer.old piece.now writer.new × refuses writer.new e) ⊥ }
    {
        if let Err(error) = self.put(writer, piece) {
            fault.keep(error);
        }
    }
}

/// Into any writer of text. Of a write that failed, which is `Fmt`, nothing is told.
#[derive(Clone, Copy, Drop)]
pub struct ToFmt;

impl<W: fmt::Write> Puts<W> for ToFmt {
    ghost took = { W.write_str_gives };

    ghost left = { λ _ _ _. ⊤ };

    ghost refuses = { λ _ e. e ≡ error.Fmt };

    #[inline(always)]
    fn put(&self, writer: &mut W, piece: &str) -> Result<()> {
        match writer.write_str(piece) {
            Ok(()) => Ok(()),
            Err(_) => Err(Error::Fmt),
        }
    }
}

/// Into a text in memory, which fails by `OutOfMemory` alone, and then stays as it was.
#[derive(Clone, Copy, Drop)]
pub struct ToText;

impl Puts<String> for ToText {
    ghost took = { λ s bytes t. string_bytes t ≡ string_bytes s ++ bytes };

    ghost left = { λ s bytes t. string_bytes t ≡ string_bytes s };

    ghost refuses = { λ _ e. e ≡ error.OutOfMemory };

    #[inline(always)]
    fn put(&self, writer: &mut String, piece: &str) -> Result<()> {
        Ok(writer.push_str(piece)?)
    }
}

/// Into a sink whose pieces are gathered.
#[derive(Clone, Copy, Drop)]
pub struct ToSink;

impl<S: Sink> Puts<Gathered<'_, S>> for ToSink {
    ghost took = { Gathers S.failed S.contents S.device };

    ghost left = { Loses S.contents S.device };

    ghost refuses = { λ g e. RefusesDevice (S.failed (sink_of g)) e };

    #[inline(always)]
    fn put(&self, writer: &mut Gathered<S>, piece: &str) -> Result<()> {
        writer.take(piece.as_bytes())
    }

    #[inline(always)]
    fn put_keeping(&self, writer: &mut Gathered<S>, piece: &str, fault: &mut OutputFault) {
        if !writer.has_room(piece.as_bytes()) {
            return keep_of_taking(writer, piece.as_bytes(), fault);
        }
        if let Err(error) = writer.hold(piece.as_bytes()) {
            fault.keep(error);
        }
    }
}

/// Where there is no room for a piece: kept apart, so that an error takes no room where there is.
#[inline(never)]
fn keep_of_taking<S: Sink>(writer: &mut Gathered<S>, piece: &[u8], fault: &mut OutputFault)
    requires { error_of fault.old ≡ None }
    ensures { Put None (error_of fault.new) (Gathers S.failed S.contents S.device writer.old piece.now writer.new)
        (λ e. Loses S.contents S.device writer.old piece.now writer.new
        × RefusesDevice (S.failed (sink_of writer.new)) e) ⊥ }
{
    if let Err(error) = writer.take(piece) {
        fault.keep(error);
    }
}
