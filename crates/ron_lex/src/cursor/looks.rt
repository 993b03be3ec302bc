//! Looks at what stands at a place: each leaves the cursor there. What a loop goes over is counted; a comparison with a
//! word of the code is none.
ghost use Rattle.std.specs.Prelude.{◌≡◌, ◌≤◌, ◌*◌, ◌&&◌, true, codes, drop, chars, min, IfOk, IfSome, IsSome};
ghost use Rattle.ron_spec_words.specs.Beyond.{bytes_in};
ghost use Rattle.ron_spec_words.specs.Characters.{left_parenthesis};
ghost use Rattle.ron_spec_words.specs.Directly.{stands};
ghost use Rattle.ron_spec_words.specs.Gap.{skip};
ghost use Rattle.ron_spec_words.specs.Kind.{kind};
ghost use Rattle.ron_spec_words.specs.Name.{name, untyped_name};
ghost use Rattle.ron_spec_words.specs.Lookahead.{opens_field, opens_named_group, holds_several};
ghost use Rattle.ron_spec_words.specs.Openings.{BeginsContent};
ghost use Rattle.ron_spec_words.specs.Runs.{is_at, begins_with};
ghost use Rattle.ron_spec_words.specs.Scan.{opens_string, opens_byte_string};
ghost use Rattle.ron_lex_text.specs.Stretch.{first_of};
ghost use Rattle.ron_lex.specs.Untyped.{opens_fraction};
ghost use Rattle.ron_lex.specs.Kinds.{kind_view, TellsPlace};
ghost use Rattle.ron_lex.specs.Turns.{Stays, Looks, Counts, CountsPast, Grows, StaysFound, passed, behind_hashes, behind_byte_hashes, most_turns};

use crate::cursor::Cursor;
use crate::kinds::{Kind, Kinds, Table};
use crate::turns::{bytes_before, bytes_of};
use crate::word::strip_word;
use crate::{lookahead, token, untyped};
use ron_lex_text::text::{begins_with, split_first};
use std::alloc::{AllocError, Global};

/// How often each byte is gone over, at most, when the kinds are found.
const FILL_RATE: u128 = 5;

impl<'a> Cursor<'a> {
    /// The character that stands here.
    #[inline]
    pub fn first(&self) -> Option<char>
        ensures { result ≡ first_of self.now.rest }
    {
        match split_first(self.rest) {
            Some((first, _)) => Some(first),
            None => None,
        }
    }

    /// Whether this text, such as `b'`, stands here.
    #[inline]
    pub fn begins_with(&mut self, front: &str) -> bool
        ensures place { self.new ≡ self.old }
        ensures value { result ≡ begins_with (chars front.now) self.old.rest }
    {
        begins_with(self.rest, front)
    }

    /// Whether this word stands here. It counts only where no XID_Continue character follows it.
    pub fn is_word(&mut self, word: &str) -> bool
        ensures place { self.new ≡ self.old }
        ensures value { result ≡ stands (chars word.now) self.old.rest }
    {
        strip_word(self.rest, word).is_some()
    }

    /// Whether the word `Some`, a gap and `(` stand here.
    pub fn opens_some(&mut self) -> bool
        ensures place { Stays self.old self.new }
        ensures value { result ≡ (stands (codes "Some") self.old.rest
            && is_at left_parenthesis (skip (drop 4 self.old.rest))) }
        ensures turns { Looks 1 self.old self.new }
        ensures grows { Grows self.old self.new }
        ensures least { stands (codes "Some") self.old.rest ≡ true
            → Counts (passed self.old.rest (skip (drop 4 self.old.rest))) self.old self.new }
    {
        let (answer, end) = lookahead::opens_some(self.rest);
        self.look_to(end);
        answer
    }

    /// Whether a string begins here.
    pub fn opens_string(&mut self) -> bool
        ensures place { Stays self.old self.new }
        ensures value { result ≡ opens_string self.old.rest }
        ensures turns { Looks 1 self.old self.new }
        ensures grows { Grows self.old self.new }
        ensures least { Counts (passed self.old.rest (behind_hashes self.old.rest)) self.old self.new }
    {
        let (answer, end) = token::look_at_string(self.rest);
        self.look_to(end);
        answer
    }

    /// Whether a byte string begins here.
    pub fn opens_byte_string(&mut self) -> bool
        ensures place { Stays self.old self.new }
        ensures value { result ≡ opens_byte_string self.old.rest }
        ensures turns { Looks 1 self.old self.new }
        ensures grows { Grows self.old self.new }
        ensures least { Counts (passed self.old.rest (behind_byte_hashes self.old.rest)) self.old self.new }
    {
        let (answer, end) = token::look_at_byte_string(self.rest);
        self.look_to(end);
        answer
    }

    /// Whether a float without digits before its point begins here.
    pub fn opens_fraction(&mut self) -> bool
        ensures place { self.new ≡ self.old }
        ensures value { result ≡ opens_fraction self.old.rest }
    {
        untyped::opens_fraction(self.rest)
    }

    /// Whether a name, a gap and `:` stand here.
    pub fn opens_field(&mut self) -> bool
        ensures place { Stays self.old self.new }
        ensures value { result ≡ opens_field self.old.rest }
        ensures turns { Looks 1 self.old self.new }
        ensures grows { Grows self.old self.new }
        ensures least { CountsPast (name self.old.rest) self.old self.new }
        ensures found { StaysFound self.old self.new }
    {
        let (answer, end) = lookahead::opens_field(self.rest);
        self.look_to(end);
        answer
    }

    /// Whether a name that is no word of a value, a gap and `(` stand here.
    pub fn opens_named_group(&mut self) -> bool
        ensures place { Stays self.old self.new }
        ensures value { result ≡ opens_named_group self.old.rest }
        ensures turns { Looks 1 self.old self.new }
        ensures grows { Grows self.old self.new }
        ensures least { CountsPast (untyped_name self.old.rest) self.old self.new }
    {
        let (answer, end) = lookahead::opens_named_group(self.rest);
        self.look_to(end);
        answer
    }

    /// The kind of what stands here, as behind an opening bracket: what looks for a field and for several items would
    /// tell. Where a bracket and a gap stand before the place, it is looked up among the kinds in the text, which are
    /// found when they are asked for first; elsewhere it is looked for. Refused where memory for these was refused, now
    /// or before.
    pub fn kind(&mut self, alloc: Global) -> Result<Kind, AllocError>
        ensures place { Stays self.old self.new }
        ensures value { IfOk result (λ k. TellsPlace k self.old.rest) }
        ensures turns { BeginsContent self.old.text self.old.rest → self.new.turns ≤ self.old.turns }
        ensures grows { Grows self.old self.new }
        ensures found { self.new.counted ≡ self.new.turns }
        ensures exact { IfOk result (λ k. BeginsContent self.old.text self.old.rest → kind_view k ≡ kind self.old.rest) }
    {
        self.find_kinds(alloc);
        match self.known_kind()? {
            Some(kind) => Ok(kind),
            None => Ok(self.look_for_kind()),
        }
    }

    /// Finds the kinds in the text, unless they were asked for before. What the pass goes over is counted, also where
    /// memory for them is refused.
    pub fn find_kinds(&mut self, alloc: Global)
        ensures place { Stays self.old self.new }
        ensures turns { self.new.turns ≤ self.old.turns }
        ensures grows { Grows self.old self.new }
        ensures found { self.new.counted ≡ self.new.turns }
        ensures counted { self.new.counted ≡ min self.old.turns most_turns }
    {
        let Table::Unasked = self.kinds else {
            return;
        };
        let bytes = bytes_of(self.text) as u128;
        self.beside = self.beside.saturating_add(FILL_RATE * bytes);
        self.kinds = match Kinds::of_text(alloc, self.text) {
            Ok(kinds) => Table::Filled(kinds),
            Err(_) => Table::Refused,
        };
    }

    /// The kind of the content that begins here, where it is known. Refused where the kinds aren't known.
    fn known_kind(&mut self) -> Result<Option<Kind>, AllocError>
        ensures place { self.new ≡ self.old }
        ensures value { IfOk result (λ o. IfSome o (λ k. TellsPlace k self.old.rest)) }
        ensures exact { IfOk result (λ o. IfSome o (λ k. kind_view k ≡ kind self.old.rest)) }
        ensures known { IfOk result (λ o. BeginsContent self.old.text self.old.rest → IsSome o) }
    {
        let place = bytes_before(self.text, self.rest);
        let Table::Filled(kinds) = &mut self.kinds else {
            return Err(AllocError);
        };
        Ok(kinds.at(place))
    }

    /// The kind of what stands here, by looks from here.
    fn look_for_kind(&mut self) -> Kind
        ensures place { Stays self.old self.new }
        ensures value { TellsPlace result self.old.rest }
        ensures grows { Grows self.old self.new }
        ensures found { StaysFound self.old self.new }
    {
        if self.opens_field() {
            return Kind::Named;
        }
        if self.holds_several() {
            Kind::Many
        } else {
            Kind::Newtype
        }
    }

    /// Whether several items stand here, up to a closing bracket: by the first comma outside all brackets.
    fn holds_several(&mut self) -> bool
        ensures place { Stays self.old self.new }
        ensures value { result ≡ holds_several self.old.rest }
        ensures grows { Grows self.old self.new }
        ensures found { StaysFound self.old self.new }
        ensures least { Counts (2 * bytes_in self.old.rest) self.old self.new }
    {
        lookahead::holds_several(&mut self.beside, self.rest)
    }
}
