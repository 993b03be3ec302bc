//! Names and integers at a place, where no type is given.
ghost use Rattle.std.specs.Prelude.{◌≡◌, ◌<◌, ◌≤◌, ◌+◌, ◌*◌, ◌++◌, [], false, chars, length, IfOk, IfSome, IfNone, OnOk, MatchOption, MatchResult};
ghost use Rattle.ron_spec_words.specs.Characters.{starts_name, continues_name};
ghost use Rattle.ron_spec_words.specs.Reader.{got, failed, bad, run};
ghost use Rattle.ron_spec_words.specs.Name.{untyped_name, opens_literal};
ghost use Rattle.ron_spec_words.specs.AnyInteger.{untyped_integer};
ghost use Rattle.ron_lex.specs.Numeral.{numeral_view};
ghost use Rattle.ron_lex.specs.Untyped.{RefusesUntyped, past_both};
ghost use Rattle.ron_lex.specs.Turns.{Stays, GoesOver, Looks, Moves, Counts, CountsTo, Grows, passed};

use crate::cursor::Cursor;
use crate::numeral::Numeral;
use crate::turns::{bytes_before, bytes_of};
use crate::untyped::{UntypedIntegerFault, split_untyped_integer, split_untyped_name};

impl<'a> Cursor<'a> {
    /// Goes past a name where no type is given, and gives it as a slice of the text. Where there is none, the cursor
    /// stays, and its look is counted.
    pub fn untyped_name(&mut self) -> Option<&'a str>
        ensures text { self.new.text ≡ self.old.text }
        ensures value { MatchOption result
            ((untyped_name self.old.rest ≡ failed bad) × Stays self.old self.new)
            (λ n. untyped_name self.old.rest ≡ got (chars n.now) self.new.rest) }
        ensures token_start { IfSome result (λ _. self.new.token_start ≡ self.old.rest) }
        ensures gap { IfSome result (λ _. self.new.gap ≡ []) }
        ensures shorter { IfSome result (λ _. length self.new.rest < length self.old.rest) }
        ensures turns { MatchOption result (Looks 1 self.old self.new) (λ _. GoesOver 1 self.old self.new) }
        ensures grows { Grows self.old self.new }
        ensures least { IfNone result (opens_literal self.old.rest ≡ false
            → CountsTo (run starts_name continues_name self.old.rest) self.old self.new) }
    {
        match split_untyped_name(self.rest) {
            Ok((name, rest)) => {
                self.pass_to(rest);
                Some(name)
            }
            Err(end) => {
                self.look_to(end);
                None
            }
        }
    }

    /// Goes past an integer or a byte literal where no type is given. A float is refused at its place, where the cursor
    /// stays; for any other fault of `split_untyped_integer` it goes past the stretch at fault.
    #[inline(always)]
    pub fn untyped_integer(&mut self) -> Result<Numeral<'a>, UntypedIntegerFault>
        ensures text { self.new.text ≡ self.old.text }
        ensures value { MatchResult result
            (λ n. untyped_integer self.old.rest ≡ got (numeral_view n) self.new.rest)
            (λ fault. RefusesUntyped self.old.rest fault self.new.rest) }
        ensures literal { IfOk result (λ n. self.old.rest ≡ chars n.literal.now ++ self.new.rest) }
        ensures token_start { OnOk result (self.new.token_start ≡ self.old.rest) }
        ensures gap { OnOk result (self.new.gap ≡ []) }
        ensures shorter { OnOk result (length self.new.rest < length self.old.rest) }
        ensures no_longer { length self.new.rest ≤ length self.old.rest }
        ensures turns { Moves 2 self.old result self.new }
        ensures grows { Grows self.old self.new }
        ensures least { MatchResult result (λ _. Counts (2 * passed self.old.rest self.new.rest) self.old self.new)
            (λ _. Counts (passed self.old.rest self.new.rest + passed self.old.rest (past_both self.old.rest)) self.old self.new) }
    {
        match split_untyped_integer(self.rest) {
            Ok((numeral, rest)) => {
                let over = bytes_before(self.rest, rest);
                self.pass_to(rest);
                // The test for a float has gone over the digits.
                self.count(over);
                Ok(numeral)
            }
            Err(refused) => {
                let seen = bytes_of(self.rest).saturating_sub(bytes_of(refused.seen));
                self.pass_to(refused.start);
                self.pass_to(refused.rest);
                self.count(seen);
                Err(refused.fault)
            }
        }
    }
}
