//! Numbers and ranges of them at a place, where no type is given.
ghost use Rattle.std.specs.Prelude.{◌≡◌, ◌<◌, ◌≤◌, [], true, length, OnOk, MatchResult};
ghost use Rattle.ron_spec_words.specs.Reader.{got};
ghost use Rattle.ron_spec_words.specs.Range.{opens_points, opens_interval, points, number_or_range};
ghost use Rattle.ron_lex.specs.Turns.{Moves, Grows};
ghost use Rattle.ron_lex.specs.Range.{interval_view, start_view, RefusesInterval};

use crate::cursor::Cursor;
use crate::interval::{Interval, opens_integer};
use crate::numeral::Numeral;
use crate::untyped::UntypedIntegerFault;
use ron_lex_text::text::begins_with;

impl<'a> Cursor<'a> {
    /// Whether two points stand here.
    #[tactic(auto, unfolding(ron_lex_text::proofs::StretchLemmas::literals))]
    pub fn opens_points(&self) -> bool
        ensures { result ≡ opens_points self.now.rest }
    {
        begins_with(self.rest, "..")
    }

    /// Whether a number or a range begins here.
    pub fn opens_interval(&self) -> bool
        ensures { result ≡ opens_interval self.now.rest }
    {
        self.opens_points() || opens_integer(self.rest)
    }

    /// Goes past two points, which stand here, and what stands behind them: a range that starts so. Behind `..=` a
    /// number has to stand, and behind `..` one may. Where it is at fault, the cursor is left as `untyped_integer`
    /// leaves it.
    #[tactic(auto, unfolding(ron_lex_text::proofs::StretchLemmas::literals))]
    #[inline(never)]
    pub fn points(
        &mut self,
        start: Option<Numeral<'a>>,
    ) -> Result<Interval<'a>, UntypedIntegerFault>
        requires { opens_points self.old.rest ≡ true }
        ensures text { self.new.text ≡ self.old.text }
        ensures value { MatchResult result
            (λ i. points (start_view start.entry) self.old.rest ≡ got (interval_view i) self.new.rest)
            (λ _. RefusesInterval (points (start_view start.entry) self.old.rest)) }
        ensures gap { OnOk result (self.new.gap ≡ []) }
        ensures shorter { OnOk result (length self.new.rest < length self.old.rest) }
        ensures no_longer { length self.new.rest ≤ length self.old.rest }
        ensures turns { Moves 2 self.old result self.new }
        ensures grows { Grows self.old self.new }
    {
        if self.take_text("..=") {
            let end = self.untyped_integer()?;
            return Ok(Interval::Range {
                start,
                is_closed: true,
                end: Some(end),
            });
        }
        if !self.take_text("..") {
            unreachable!()
        }
        if !opens_integer(self.rest) {
            return Ok(Interval::Range {
                start,
                is_closed: false,
                end: None,
            });
        }
        let end = self.untyped_integer()?;
        Ok(Interval::Range {
            start,
            is_closed: false,
            end: Some(end),
        })
    }

    /// Goes past a number or a range of numbers where no type is given. Where a number is at fault, the cursor is left
    /// as `untyped_integer` leaves it.
    #[inline(always)]
    pub fn number_or_range(&mut self) -> Result<Interval<'a>, UntypedIntegerFault>
        ensures text { self.new.text ≡ self.old.text }
        ensures value { MatchResult result
            (λ i. number_or_range self.old.rest ≡ got (interval_view i) self.new.rest)
            (λ _. RefusesInterval (number_or_range self.old.rest)) }
        ensures gap { OnOk result (self.new.gap ≡ []) }
        ensures shorter { OnOk result (length self.new.rest < length self.old.rest) }
        ensures no_longer { length self.new.rest ≤ length self.old.rest }
        ensures turns { Moves 2 self.old result self.new }
        ensures grows { Grows self.old self.new }
    {
        if self.opens_points() {
            return self.points(None);
        }
        let number = self.untyped_integer()?;
        if self.opens_points() {
            return self.points(Some(number));
        }
        Ok(Interval::One(number))
    }
}
