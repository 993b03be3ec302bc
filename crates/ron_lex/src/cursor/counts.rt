//! The count of turns: a byte of the text that a loop goes over is one, each time.
ghost use Rattle.std.specs.Prelude.{◌≡◌, ◌≤◌, ◌+◌, ◌*◌, [], false, chars, length, min};
ghost use Rattle.ron_spec_words.specs.Beyond.{bytes_in};
ghost use Rattle.ron_lex_text.specs.Stretch.{IsSuffix};
ghost use Rattle.ron_lex.specs.Turns.{Stays, Rests, Scans, Looks, Counts, Grows, StaysFound, IsLook, passed, most_turns};
ghost use Rattle.ron_lex.specs.Fault.{is_none};

use crate::cursor::{Cursor, Mark};
use crate::fault::{QuotedError, QuotedFault};
use crate::turns::{bytes_before, bytes_of};

impl<'a> Cursor<'a> {
    /// How many bytes of the text were gone over by this cursor's calls: each that stands before the place, and all that
    /// was looked at besides, as often as that was done. A comparison with a word of the code is none.
    pub fn turns(&self) -> u128
        ensures value { result ≡ self.now.counted }
        ensures most { result ≤ self.now.turns }
        ensures least { bytes_in self.now.text ≤ result + bytes_in self.now.rest }
    {
        let passed = bytes_before(self.text, self.rest);
        self.beside.saturating_add(passed as u128)
    }

    /// Goes back to an earlier place in the same text. What was counted since stays counted.
    pub fn return_to(&mut self, place: &Mark<'a>)
        requires text { place.now.text ≡ self.old.text }
        requires earlier { length self.old.rest ≤ length place.now.rest }
        ensures place { Stays place.now self.new }
        ensures turns { Rests self.old self.new }
        ensures counted { self.new.counted ≡ self.old.counted }
    {
        // The stretch back to the earlier place stands before the place no longer.
        let back = bytes_of(place.rest).saturating_sub(bytes_of(self.rest));
        self.beside = self.beside.saturating_add(back as u128);
        self.rest = place.rest;
        self.token_start = place.token_start;
        self.gap = place.gap;
    }

    /// Counts what another cursor has gone over, as in a second reading of a stretch.
    pub fn add_turns(&mut self, turns: u128)
        ensures place { Stays self.old self.new }
        ensures turns { self.new.turns ≤ self.old.turns + turns }
        ensures all { self.new.counted ≡ min (self.old.counted + turns) most_turns }
    {
        self.beside = self.beside.saturating_add(turns);
    }

    /// Counts so many bytes more; the count stays at the highest number.
    #[inline(always)]
    pub(super) fn count(&mut self, bytes: usize)
        ensures place { Stays self.old self.new }
        ensures turns { self.new.turns ≤ self.old.turns + bytes }
        ensures all { self.new.counted ≡ min (self.old.counted + bytes) most_turns }
        ensures found { StaysFound self.old self.new }
    {
        self.beside = self.beside.saturating_add(bytes as u128);
    }

    /// Counts what a look up to this end of what is left has gone over.
    pub(super) fn look_to(&mut self, end: &str)
        requires { IsLook self.old.rest (chars end.now) }
        ensures place { Stays self.old self.new }
        ensures turns { Looks 1 self.old self.new }
        ensures all { self.new.counted ≡ min (self.old.counted + passed self.old.rest (chars end.now)) most_turns }
        ensures found { StaysFound self.old self.new }
    {
        self.count(bytes_before(self.rest, end));
    }

    /// Counts all that is left twice: a reading that wants memory has gone over no more.
    pub(super) fn count_twice(&mut self)
        ensures place { Stays self.old self.new }
        ensures turns { Scans 2 self.old self.new }
        ensures all { self.new.counted ≡ min (self.old.counted + 2 * bytes_in self.old.rest) most_turns }
        ensures found { StaysFound self.old self.new }
    {
        let bytes = bytes_of(self.rest);
        self.count(bytes);
        self.count(bytes);
    }

    /// Goes past the stretch at fault of a string that is refused. Where one begins, all that was left is counted twice:
    /// the reading has gone over no more.
    pub(super) fn refuse(&mut self, refused: QuotedError<'a>)
        requires { IsSuffix (chars refused.rest.now) self.old.rest }
        ensures text { self.new.text ≡ self.old.text }
        ensures rest { self.new.rest ≡ chars refused.entry.rest.now }
        ensures token_start { self.new.token_start ≡ self.old.rest }
        ensures gap { self.new.gap ≡ [] }
        ensures turns { Scans 2 self.old self.new }
        ensures grows { Grows self.old self.new }
        ensures least { is_none refused.entry.fault ≡ false → Counts (2 * bytes_in self.old.rest) self.old self.new }
    {
        let bytes = bytes_of(self.rest);
        self.pass_to(refused.rest);
        if !is_none(refused.fault) {
            self.count(bytes);
            self.count(bytes_of(refused.rest));
        }
    }
}

/// Whether neither a string nor a byte string begins there.
fn is_none(fault: QuotedFault) -> bool
    ensures { result ≡ is_none fault }
{
    matches!(fault, QuotedFault::NoString | QuotedFault::NoByteString)
}
