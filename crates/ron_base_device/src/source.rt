//! What gives bytes.
ghost use Rattle.std.specs.Prelude.{◌≡◌, ℕ, Bool, List, Option, None, OnOk, IfErr};
ghost use Rattle.std.specs.Borrow.{GName};
ghost use Rattle.std.specs.Io.{ReadsAtMost};
ghost use Rattle.std.specs.Io.KnownBytes.{ReadConsumes, Consumes, IsAtEnd};
ghost use Rattle.ron_base_device.specs.Device.{Marks, RefusesDevice};

use ron_base::error::{Error, Result};
use std::alloc::Global;
use std::io;

/// A device that gives bytes.
pub trait Source {
    /// Whether a pull has failed.
    ghost failed: { Self → Bool };

    /// The bytes that are left, where they are known.
    ghost remaining: { Self → Option (List ℕ) } = { λ _. None };

    /// Which device it stands for, where it stands for one: no pull changes that.
    ghost device: { Self → Option GName } = { λ _. None };

    /// Gives bytes into the buffer, and says how many: none for a buffer that isn't empty is the end. A pull that fails
    /// gives none.
    fn pull(&mut self, buffer: &mut [u8]) -> io::Result<usize>
        ensures bound { ReadsAtMost result buffer.new }
        ensures same { device self.new ≡ device self.old }
        ensures marked { Marks (failed self.old) (failed self.new) result }
        ensures bytes { ReadConsumes (remaining self.old) (remaining self.new) result buffer.new };
}

/// How many bytes a pull asks for.
const CHUNK: usize = 8192;

/// What a source gives until it ends or fails, or no memory is found for more; and why it is over. A fault is not tried
/// again.
pub fn pull_all<S: Source>(alloc: Global, source: &mut S) -> (Vec<u8>, Result<()>)
    ensures given { Consumes (S.remaining source.old) (S.remaining source.new) result.0.items }
    ensures same { S.device source.new ≡ S.device source.old }
    ensures ended { OnOk result.1 (IsAtEnd (S.remaining source.new)) }
    ensures kept { OnOk result.1 (S.failed source.new ≡ S.failed source.old) }
    ensures refused { IfErr result.1 (RefusesDevice (S.failed source.new)) }
{
    let mut bytes = Vec::new(alloc);
    let mut chunk = [0u8; CHUNK];
    loop {
        // room is made before bytes are asked for, so that a refused growth loses none
        if let Err(refused) = bytes.reserve(CHUNK) {
            return (bytes, Err(Error::from(refused)));
        }
        match source.pull(&mut chunk) {
            Ok(0) => return (bytes, Ok(())),
            Ok(n) => {
                if let Err(refused) = bytes.extend_from_slice(&chunk[..n]) {
                    return (bytes, Err(Error::from(refused)));
                }
            }
            Err(fault) => return (bytes, Err(Error::io(alloc, fault))),
        }
    }
}
