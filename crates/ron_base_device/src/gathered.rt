//! Pieces that are gathered before a sink takes them.
ghost use Rattle.std.specs.Prelude.{◌≡◌, ◌≤◌, ◌<◌, ◌+◌, ◌↔◌, [], IsTrue, OnOk, MatchResult, length};
ghost use Rattle.ron_base_device.specs.Device.{RefusesDevice};
ghost use Rattle.ron_base_device.specs.declared.gathered.TheConstants.{SIZE};

use crate::sink::{Sink, push_all};
use ron_base::error::Result;
use std::alloc::Global;

/// How many bytes are gathered, as many as by the standard library's `BufWriter`.
const SIZE: usize = 8192;

/// A sink, and bytes that it is still to take: as many as `SIZE` at most, so no more than these and the piece at hand are
/// lost where a push fails. It owns neither, so that what the sink took is known once it is dropped.
#[derive(Drop)]
pub struct Gathered<'a, S> {
    sink: &'a mut S,
    bytes: &'a mut Vec<u8>,
    alloc: Global,
    ghost bounded: { length bytes.now.items ≤ SIZE },
}

impl<'a, S: Sink> Gathered<'a, S> {
    ghost use Rattle.ron_base_device.specs.Gathered.{Gathers, Loses, held, sink_of, name_of};

    /// A sink that is to take nothing yet, and room for bytes.
    pub fn new(alloc: Global, sink: &'a mut S, bytes: &'a mut Vec<u8>) -> Self
        ensures nothing { held result ≡ [] }
        ensures sink { sink_of result ≡ sink.old }
        ensures same_sink { name_of result ≡ sink.entry.ghost_name }
    {
        bytes.clear();
        Gathered { sink, bytes, alloc }
    }

    /// Gathers a piece. Where it finds no room, the sink takes what was gathered before.
    #[inline(always)]
    pub fn take(&mut self, piece: &[u8]) -> Result<()>
        ensures { MatchResult result (λ _. Gathers S.failed S.contents S.device self.old piece.now self.new)
            (λ e. Loses S.contents S.device self.old piece.now self.new × RefusesDevice (S.failed (sink_of self.new)) e) }
    {
        if self.has_room(piece) {
            self.hold(piece)
        } else {
            self.make_room(piece)
        }
    }

    /// Whether a piece is gathered without a push.
    #[inline(always)]
    pub(crate) fn has_room(&self, piece: &[u8]) -> bool
        ensures { IsTrue result ↔ (length (held self.now) + length piece.now < SIZE) }
    {
        piece.len() < SIZE && self.bytes.len() < SIZE - piece.len()
    }

    /// Has the sink take what was gathered, and gathers a piece, or has the sink take it too where it is a large one.
    #[inline(never)]
    fn make_room(&mut self, piece: &[u8]) -> Result<()>
        ensures { MatchResult result (λ _. Gathers S.failed S.contents S.device self.old piece.now self.new)
            (λ e. Loses S.contents S.device self.old piece.now self.new × RefusesDevice (S.failed (sink_of self.new)) e) }
    {
        self.pass_on()?;
        if piece.len() < SIZE {
            self.hold(piece)
        } else {
            self.push(piece)
        }
    }

    /// Holds a piece behind what was gathered.
    #[inline(always)]
    pub(crate) fn hold(&mut self, piece: &[u8]) -> Result<()>
        requires { length (held self.now) + length piece.now < SIZE }
        ensures { MatchResult result (λ _. Gathers S.failed S.contents S.device self.old piece.now self.new)
            (λ e. Loses S.contents S.device self.old piece.now self.new × RefusesDevice (S.failed (sink_of self.new)) e) }
    {
        Ok(self.bytes.extend_from_slice(piece)?)
    }

    /// Has the sink take a piece.
    fn push(&mut self, piece: &[u8]) -> Result<()>
        requires { held self.now ≡ [] }
        ensures { MatchResult result (λ _. Gathers S.failed S.contents S.device self.old piece.now self.new)
            (λ e. Loses S.contents S.device self.old piece.now self.new × RefusesDevice (S.failed (sink_of self.new)) e) }
    {
        push_all(self.alloc, self.sink, piece)
    }

    /// Has the sink take all that was gathered.
    pub fn pass_on(&mut self) -> Result<()>
        ensures passed { MatchResult result (λ _. Gathers S.failed S.contents S.device self.old [] self.new)
            (λ e. Loses S.contents S.device self.old [] self.new × RefusesDevice (S.failed (sink_of self.new)) e) }
        ensures nothing { OnOk result (held self.new ≡ []) }
    {
        push_all(self.alloc, self.sink, self.bytes.as_slice())?;
        self.bytes.clear();
        Ok(())
    }
}
