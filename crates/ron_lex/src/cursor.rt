//! A place in a text, and the stretch of the last word.
ghost use Rattle.std.specs.Prelude.{◌≡◌, ◌<◌, ◌≤◌, ◌+◌, ◌*◌, ◌++◌, [], true, false, chars, length, min, OnOk, OnErr, MatchResult};
ghost use Rattle.ron_spec_words.specs.Beyond.{bytes_in};
ghost use Rattle.ron_spec_words.specs.Characters.{slash};
ghost use Rattle.ron_spec_words.specs.Gap.{skip, gap_of};
ghost use Rattle.ron_spec_words.specs.Name.{name, opens_literal};
ghost use Rattle.ron_spec_words.specs.Reader.{got, failed, bad};
ghost use Rattle.ron_base.specs.Place.{IsNotAfter};
ghost use Rattle.ron_lex_text.specs.Stretch.{IsSuffix, is_ended, opens_with};
ghost use Rattle.ron_spec_words.specs.Runs.{is_at};
ghost use Rattle.ron_lex.specs.Identifier.{past_name_run};
ghost use Rattle.ron_lex.specs.Place.{Place, IsPositionBefore, is_at_start};
ghost use Rattle.ron_lex.specs.Turns.{Stays, Rests, GoesOver, Moves, Counts, Grows, passed, most_turns};
ghost use Rattle.ron_lex.specs.Kinds.{fill_rate};

mod counts;
mod literals;
mod looks;
mod ranges;
mod takes;
mod untyped;

use crate::gap::{GapFault, opens_gap, skip_gap, slash_error};
use crate::identifier::{IdentifierFault, bytes_of_run, split_identifier};
use crate::kinds::Table;
use crate::turns::bytes_of;
use ron_base::error::{Position, Span, position_after};
use ron_lex_text::text::{Class, before, end_of, is_all, is_at, is_at_class, is_ended, strip_char};
use std::marker::Model;

/// A place in a text. Only a string or byte string that holds an escape or a continuation takes memory, and the kinds of
/// what stands behind brackets (`kind`). Faults are told without their positions: `span` computes these from the
/// place and from the place before the last word, so a text is looked over for line ends only where an error is given
/// its span.
#[derive(Drop)]
pub struct Cursor<'a> {
    text: &'a str,
    rest: &'a str,
    /// What was left before the last word, or before the stretch at fault.
    token_start: &'a str,
    /// The gap directly before the place.
    gap: &'a str,
    /// How many bytes were gone over beside those before the place, by this cursor alone; at most the highest number.
    beside: u128,
    /// The kinds in the whole text, once they were asked for.
    kinds: Table,
}

impl<'a> Model for Cursor<'a> {
    ghost use Rattle.std.specs.Prelude.{chars, ◌++◌, ◌+◌, ◌<◌, ◌^◌};
    ghost use Rattle.ron_lex_text.specs.Stretch.{IsSuffix};
    ghost use Rattle.ron_spec_words.specs.Beyond.{bytes_in};
    ghost use Rattle.ron_lex.specs.Kinds.{fill_owed, AreKindsOf};
    ghost use Rattle.ron_lex.specs.Place.{Place};
    ghost use Rattle.ron_lex.specs.Turns.{count_at};

    ghost Value = { Place };

    ghost view = { λ c. record {
      text = chars c.text.now;
      rest = chars c.rest.now;
      token_start = chars c.token_start.now;
      gap = chars c.gap.now;
      counted = count_at c.beside (chars c.text.now) (chars c.rest.now);
      turns = count_at c.beside (chars c.text.now) (chars c.rest.now) + fill_owed c.kinds (chars c.text.now);
    } };

    ghost invariant = { λ c. IsSuffix (chars c.token_start.now) (chars c.text.now)
        × IsSuffix (chars c.rest.now) (chars c.token_start.now)
        × IsSuffix (chars c.gap.now ++ chars c.rest.now) (chars c.text.now)
        × (bytes_in (chars c.text.now) < 2 ^ 64)
        × AreKindsOf c.kinds (chars c.text.now) };
}

/// A place in a text, to come back to.
#[derive(Drop)]
pub struct Mark<'a> {
    text: &'a str,
    rest: &'a str,
    token_start: &'a str,
    gap: &'a str,
}

impl<'a> Model for Mark<'a> {
    ghost use Rattle.std.specs.Prelude.{chars, ◌++◌};
    ghost use Rattle.ron_lex_text.specs.Stretch.{IsSuffix};
    ghost use Rattle.ron_lex.specs.Place.{Place};

    ghost Value = { Place };

    ghost view = { λ c. record {
      text = chars c.text.now;
      rest = chars c.rest.now;
      token_start = chars c.token_start.now;
      gap = chars c.gap.now;
      counted = 0;
      turns = 0;
    } };

    ghost invariant = { λ c. IsSuffix (chars c.token_start.now) (chars c.text.now)
        × IsSuffix (chars c.rest.now) (chars c.token_start.now)
        × IsSuffix (chars c.gap.now ++ chars c.rest.now) (chars c.text.now) };
}

impl<'a> Cursor<'a> {
    /// At the start of a text, with no gap before the place.
    #[tactic(auto, unfolding(ron_lex_text::proofs::StretchLemmas::literals))]
    pub fn new(text: &'a str) -> Self
        ensures text { result.text ≡ chars text.now }
        ensures rest { result.rest ≡ chars text.now }
        ensures token_start { result.token_start ≡ chars text.now }
        ensures gap { result.gap ≡ [] }
        ensures counted { result.counted ≡ 0 }
        ensures turns { result.turns ≡ fill_rate * bytes_in (chars text.now) }
    {
        let _bytes = bytes_of(text);
        Cursor {
            text,
            rest: text,
            token_start: text,
            gap: "",
            beside: 0,
            kinds: Table::Unasked,
        }
    }

    /// The place, to come back to.
    pub fn mark(&self) -> Mark<'a>
        ensures { Stays self.now result }
    {
        Mark {
            text: self.text,
            rest: self.rest,
            token_start: self.token_start,
            gap: self.gap,
        }
    }

    /// The whole text.
    pub fn text(&self) -> &'a str
        ensures { chars result.now ≡ self.now.text }
    {
        self.text
    }

    /// What is left of the text.
    pub fn rest(&self) -> &'a str
        ensures rest { chars result.now ≡ self.now.rest }
        ensures end { IsSuffix self.now.rest self.now.text }
    {
        self.rest
    }

    /// The gap directly before the place.
    pub fn gap(&self) -> &'a str
        ensures gap { chars result.now ≡ self.now.gap }
        ensures end { IsSuffix (self.now.gap ++ self.now.rest) self.now.text }
    {
        self.gap
    }

    /// The text from an end of the gap before the place on.
    pub fn rest_behind(&self, gap_end: &str) -> &'a str
        requires { IsSuffix (chars gap_end.now) self.now.gap }
        ensures { chars result.now ≡ chars gap_end.now ++ self.now.rest }
    {
        end_of(self.text, gap_end, self.rest)
    }

    /// From before the last word, or before the stretch that the last call found at fault, to the place. What stands
    /// before these is gone over for it, and not counted: an error is given its span once.
    pub fn span(&self) -> Span
        ensures ordered { IsNotAfter result.start result.end }
        ensures start { IsPositionBefore self.now.text self.now.token_start result.start }
        ensures end { IsPositionBefore self.now.text self.now.rest result.end }
    {
        Span {
            start: self.position_before(self.token_start),
            end: self.position_before(self.rest),
        }
    }

    /// The position of the place where `rest` begins.
    fn position_before(&self, rest: &str) -> Position
        requires { IsSuffix (chars rest.now) self.now.text }
        ensures { IsPositionBefore self.now.text (chars rest.now) result }
    {
        position_after(before(self.text, rest))
    }

    /// Goes on to the end `rest` of what is left, over one word. No gap is directly before the place then.
    #[tactic(auto, unfolding(ron_lex_text::proofs::StretchLemmas::literals))]
    fn pass_to(&mut self, rest: &'a str)
        requires { IsSuffix (chars rest.now) self.old.rest }
        ensures text { self.new.text ≡ self.old.text }
        ensures rest { self.new.rest ≡ chars rest.now }
        ensures token_start { self.new.token_start ≡ self.old.rest }
        ensures gap { self.new.gap ≡ [] }
        ensures turns { GoesOver 1 self.old self.new }
        ensures all { self.new.counted ≡ min (self.old.counted + passed self.old.rest (chars rest.now)) most_turns }
    {
        self.token_start = self.rest;
        self.rest = rest;
        self.gap = "";
    }

    /// What was read takes the gap directly before the place: none is there then.
    #[tactic(auto, unfolding(ron_lex_text::proofs::StretchLemmas::literals))]
    pub fn forget_gap(&mut self)
        ensures text { self.new.text ≡ self.old.text }
        ensures rest { self.new.rest ≡ self.old.rest }
        ensures token_start { self.new.token_start ≡ self.old.token_start }
        ensures gap { self.new.gap ≡ [] }
        ensures turns { Rests self.old self.new }
        ensures counted { self.new.counted ≡ self.old.counted }
    {
        self.gap = "";
    }

    /// Goes past the longest gap. A gap is no word: the span is then the place behind it. Where a slash stands there,
    /// that is refused: by `UnclosedBlockComment` where a block comment begins that doesn't end, else by
    /// `UnexpectedChar` of the character behind the slash, or `Eof`. The cursor is then behind the stretch at fault.
    #[inline(always)]
    pub fn pass_gap(&mut self) -> Result<(), GapFault>
        ensures text { self.new.text ≡ self.old.text }
        ensures slash { MatchResult result (λ _. is_at slash (skip self.old.rest) ≡ false)
            (λ _. is_at slash (skip self.old.rest) ≡ true) }
        ensures rest { OnOk result (self.new.rest ≡ skip self.old.rest) }
        ensures token_start { self.new.token_start ≡ skip self.old.rest }
        ensures gap { OnOk result (self.new.gap ≡ gap_of self.old.rest) }
        ensures no_longer { length self.new.rest ≤ length self.old.rest }
        ensures turns { Moves 1 self.old result self.new }
        ensures grows { Grows self.old self.new }
    {
        if !opens_gap(self.rest) {
            self.token_start = self.rest;
            self.gap = "";
            return Ok(());
        }
        self.pass_opened_gap()
    }

    /// The same where a gap may begin: kept apart, so that the test before it costs little.
    #[inline(never)]
    fn pass_opened_gap(&mut self) -> Result<(), GapFault>
        ensures text { self.new.text ≡ self.old.text }
        ensures slash { MatchResult result (λ _. is_at slash (skip self.old.rest) ≡ false)
            (λ _. is_at slash (skip self.old.rest) ≡ true) }
        ensures rest { OnOk result (self.new.rest ≡ skip self.old.rest) }
        ensures token_start { self.new.token_start ≡ skip self.old.rest }
        ensures gap { OnOk result (self.new.gap ≡ gap_of self.old.rest) }
        ensures no_longer { length self.new.rest ≤ length self.old.rest }
        ensures turns { Moves 1 self.old result self.new }
        ensures grows { Grows self.old self.new }
    {
        let behind = skip_gap(self.rest);
        let gap = before(self.rest, behind);
        self.pass_to(behind);
        if strip_char(behind, '/').is_none() {
            self.token_start = behind;
            self.gap = gap;
            return Ok(());
        }
        let error = slash_error(behind);
        self.pass_to(error.rest);
        Err(error.fault)
    }

    /// Whether the text has ended.
    pub fn is_at_end(&self) -> bool
        ensures { result ≡ is_ended self.now.rest }
    {
        is_ended(self.rest)
    }

    /// Whether nothing but the gap directly before the place stands before it in the text.
    pub fn is_at_start(&self) -> bool
        ensures { result ≡ is_at_start self.now }
    {
        is_all(self.text, self.gap, self.rest)
    }

    /// Whether this character stands here.
    pub fn is_at(&self, character: char) -> bool
        ensures { result ≡ is_at character self.now.rest }
    {
        is_at(self.rest, character)
    }

    /// Whether a character of the class stands here.
    pub fn is_at_class(&self, class: Class) -> bool
        ensures { result ≡ opens_with class self.now.rest }
    {
        is_at_class(self.rest, class)
    }

    /// Goes past an identifier, and gives the name that it spells as a slice of the text. Where there is none, the
    /// cursor stays. It is refused by `Eof` at the end of the text, by `OnlyRaw` of the whole run where only a raw
    /// identifier could spell it, else by `NoIdentifier`.
    #[inline(always)]
    pub fn identifier(&mut self) -> Result<&'a str, IdentifierFault<'a>>
        ensures text { self.new.text ≡ self.old.text }
        ensures value { MatchResult result
            (λ n. name self.old.rest ≡ got (chars n.now) self.new.rest)
            (λ _. name self.old.rest ≡ failed bad) }
        ensures token_start { OnOk result (self.new.token_start ≡ self.old.rest) }
        ensures gap { OnOk result (self.new.gap ≡ []) }
        ensures shorter { OnOk result (length self.new.rest < length self.old.rest) }
        ensures no_longer { length self.new.rest ≤ length self.old.rest }
        ensures turns { Moves 1 self.old result self.new }
        ensures grows { Grows self.old self.new }
        ensures stays { OnErr result (Stays self.old self.new) }
        ensures least { OnErr result (opens_literal self.old.rest ≡ false
            → Counts (passed self.old.rest (past_name_run self.old.rest)) self.old self.new) }
    {
        match split_identifier(self.rest) {
            Ok((name, rest)) => {
                self.pass_to(rest);
                Ok(name)
            }
            Err(fault) => {
                self.count(bytes_of_run(fault));
                Err(fault)
            }
        }
    }
}
