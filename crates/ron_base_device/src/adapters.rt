//! The standard library's readers and writers as devices that keep the mark.
use crate::sink::Sink;
use crate::source::Source;
use std::io;
use std::io::ErrorKind;

/// A reader as a source. A fault is not tried again, `Interrupted` neither.
#[derive(Drop)]
pub struct Reader<'a, R> {
    inner: &'a mut R,
    failed: bool,
}

impl<'a, R: io::Read> Reader<'a, R> {
    ghost use Rattle.std.specs.Prelude.{◌≡◌, false};
    ghost use Rattle.ron_base_device.specs.Adapters.{reader_failed, reader_inner, reader_name};

    /// The source that reads from `inner`.
    pub fn new(inner: &'a mut R) -> Self
        ensures fresh { reader_failed result ≡ false }
        ensures inner { reader_inner result ≡ inner.old }
        ensures same_reader { reader_name result ≡ inner.entry.ghost_name }
    {
        Reader {
            inner,
            failed: false,
        }
    }

    /// Whether a read has failed.
    pub fn has_failed(&self) -> bool
        ensures { result ≡ reader_failed self.now }
    {
        self.failed
    }
}

impl<R: io::Read> Source for Reader<'_, R> {
    ghost use Rattle.std.specs.Prelude.{Some};
    ghost use Rattle.ron_base_device.specs.Adapters.{reader_failed, reader_inner, reader_name};

    ghost failed = { reader_failed };

    ghost remaining = { λ s. R.remaining (reader_inner s) };

    ghost device = { λ s. Some (reader_name s) };

    fn pull(&mut self, buffer: &mut [u8]) -> io::Result<usize> {
        let given = self.inner.read(buffer);
        if given.is_err() {
            self.failed = true;
        }
        given
    }
}

/// A writer as a sink. A write that takes nothing of a piece that isn't empty has failed. A fault is not tried again,
/// `Interrupted` neither.
#[derive(Drop)]
pub struct Writer<'a, W> {
    inner: &'a mut W,
    failed: bool,
}

impl<'a, W: io::Write> Writer<'a, W> {
    ghost use Rattle.std.specs.Prelude.{◌≡◌, false};
    ghost use Rattle.ron_base_device.specs.Adapters.{writer_failed, writer_inner, writer_name};

    /// The sink that writes to `inner`.
    pub fn new(inner: &'a mut W) -> Self
        ensures fresh { writer_failed result ≡ false }
        ensures inner { writer_inner result ≡ inner.old }
        ensures same_writer { writer_name result ≡ inner.entry.ghost_name }
    {
        Writer {
            inner,
            failed: false,
        }
    }

    /// Whether a write has failed.
    pub fn has_failed(&self) -> bool
        ensures { result ≡ writer_failed self.now }
    {
        self.failed
    }
}

impl<W: io::Write> Sink for Writer<'_, W> {
    ghost use Rattle.std.specs.Prelude.{Some};
    ghost use Rattle.ron_base_device.specs.Adapters.{writer_failed, writer_inner, writer_name};

    ghost failed = { writer_failed };

    ghost contents = { λ s. W.contents (writer_inner s) };

    ghost device = { λ s. Some (writer_name s) };

    fn push(&mut self, piece: &[u8]) -> io::Result<usize> {
        match self.inner.write(piece) {
            Ok(0) if !piece.is_empty() => {
                self.failed = true;
                Err(io::Error::new(ErrorKind::WriteZero, "a writer takes nothing more"))
            }
            Ok(n) => Ok(n),
            Err(fault) => {
                self.failed = true;
                Err(fault)
            }
        }
    }
}
