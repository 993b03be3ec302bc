//! What takes bytes.
ghost use Rattle.std.specs.Prelude.{◌≡◌, ◌<◌, ℕ, Bool, true, List, Option, None, OnOk, OnErr, IfErr, IfOk, length};
ghost use Rattle.std.specs.Borrow.{GName};
ghost use Rattle.std.specs.Io.{WritesAtMost};
ghost use Rattle.std.specs.Io.KnownBytes.{WriteAppends, Appends};
ghost use Rattle.ron_base_device.specs.Device.{Marks, RefusesDevice, TakesFront};

use ron_base::error::{Error, Result};
use std::alloc::Global;
use std::io;

/// A device that takes bytes.
pub trait Sink {
    /// Whether a push has failed.
    ghost failed: { Self → Bool };

    /// The bytes that it holds, where they are known.
    ghost contents: { Self → Option (List ℕ) } = { λ _. None };

    /// Which device it stands for, where it stands for one: no push changes that.
    ghost device: { Self → Option GName } = { λ _. None };

    /// Takes bytes from the start of the piece, and says how many: at least one of a piece that isn't empty. A push that
    /// fails takes none.
    fn push(&mut self, piece: &[u8]) -> io::Result<usize>
        ensures bound { WritesAtMost result piece.now }
        ensures some { IfOk result (λ n. 0 < length piece.now → 0 < n) }
        ensures same { device self.new ≡ device self.old }
        ensures marked { Marks (failed self.old) (failed self.new) result }
        ensures bytes { WriteAppends (contents self.old) (contents self.new) result piece.now };
}

/// Has a sink take a whole piece, in as many pushes as it wants. A fault is not tried again: the sink has then taken a
/// beginning of the piece.
pub fn push_all<S: Sink>(alloc: Global, sink: &mut S, piece: &[u8]) -> Result<()>
    ensures taken { OnOk result (Appends (S.contents sink.old) (S.contents sink.new) piece.now) }
    ensures same { S.device sink.new ≡ S.device sink.old }
    ensures kept { OnOk result (S.failed sink.new ≡ S.failed sink.old) }
    ensures beginning { OnErr result (TakesFront (S.contents sink.old) (S.contents sink.new) piece.now) }
    ensures failed { OnErr result (S.failed sink.new ≡ true) }
    ensures refused { IfErr result (RefusesDevice (S.failed sink.new)) }
{
    let mut rest = piece;
    while !rest.is_empty() {
        match sink.push(rest) {
            Ok(n) => rest = &rest[n..],
            Err(fault) => return Err(Error::io(alloc, fault)),
        }
    }
    Ok(())
}
