//! Char literals, integers, strings and byte strings at a place.
ghost use Rattle.std.specs.Prelude.{◌≡◌, ◌<◌, ◌≤◌, ◌*◌, ◌++◌, [], true, false, chars, length, min, if◌then◌else◌, IfOk, IfErr, OnOk, MatchResult};
ghost use Rattle.ron_spec_words.specs.Beyond.{bytes_in};
ghost use Rattle.ron_spec_words.specs.Reader.{got, failed, bad};
ghost use Rattle.ron_spec_words.specs.AnyInteger.{any_integer};
ghost use Rattle.ron_lex.specs.Numeral.{numeral_view};
ghost use Rattle.ron_lex.specs.AnyInteger.{RefusesAnyInteger};
ghost use Rattle.ron_spec_words.specs.Quoted.{char, String, string, ByteString, byte_string};
ghost use Rattle.ron_lex_text.specs.Stretch.{IsSuffix};
ghost use Rattle.ron_lex_text.specs.Parsed.{parsed_text, is_slice, parsed_bytes, is_byte_slice};
ghost use Rattle.ron_lex.specs.Quoted.{GivesOrMemory, IsSliceUnlessEscaped, StandsBetweenQuotes, StandAsBytes};
ghost use Rattle.ron_lex.specs.Quoted.{opens_escaped_string, opens_escaped_bytes, HoldsEscape};
ghost use Rattle.ron_lex.specs.Fault.{begins_none};
ghost use Rattle.ron_lex.specs.declared.fault.StringRefusal.TheVariants.{OutOfMemory};
ghost use Rattle.ron_lex.specs.Turns.{Stays, Moves, Counts, Grows};
ghost use Rattle.ron_lex.specs.Searched.{searched_string, searched_bytes, most_searched};

use crate::any_integer::{AnyIntegerFault, split_any_integer};
use crate::byte_string::split_byte_string;
use crate::character::split_char;
use crate::cursor::Cursor;
use crate::fault::{QuotedFault, StringRefusal};
use crate::numeral::Numeral;
use crate::searches::Searches;
use crate::string::split_string;
use crate::turns::bytes_before;
use ron_lex_text::parsed::{ParsedByteStr, ParsedStr};
use std::alloc::Global;

impl<'a> Cursor<'a> {
    /// Goes past a char literal, and gives its character. Where it is refused, by a fault of `split_char`, the cursor
    /// goes past the stretch at fault.
    pub fn character(&mut self) -> Result<char, QuotedFault>
        ensures text { self.new.text ≡ self.old.text }
        ensures value { MatchResult result
            (λ c. char self.old.rest ≡ got c self.new.rest)
            (λ _. char self.old.rest ≡ failed bad) }
        ensures token_start { OnOk result (self.new.token_start ≡ self.old.rest) }
        ensures gap { OnOk result (self.new.gap ≡ []) }
        ensures shorter { OnOk result (length self.new.rest < length self.old.rest) }
        ensures no_longer { length self.new.rest ≤ length self.old.rest }
        ensures turns { Moves 1 self.old result self.new }
        ensures grows { Grows self.old self.new }
    {
        match split_char(self.rest) {
            Ok((character, rest)) => {
                self.pass_to(rest);
                Ok(character)
            }
            Err(refused) => {
                self.pass_to(refused.rest);
                Err(refused.fault)
            }
        }
    }

    /// Goes past an integer or a byte literal. Where it is refused, by a fault of `split_any_integer`, the cursor goes
    /// past the stretch at fault.
    pub fn any_integer(&mut self) -> Result<Numeral<'a>, AnyIntegerFault>
        ensures text { self.new.text ≡ self.old.text }
        ensures value { MatchResult result
            (λ n. any_integer self.old.rest ≡ got (numeral_view n) self.new.rest)
            (λ fault. RefusesAnyInteger (any_integer self.old.rest) fault self.new.rest) }
        ensures literal { IfOk result (λ n. self.old.rest ≡ chars n.literal.now ++ self.new.rest) }
        ensures token_start { OnOk result (self.new.token_start ≡ self.old.rest) }
        ensures gap { OnOk result (self.new.gap ≡ []) }
        ensures shorter { OnOk result (length self.new.rest < length self.old.rest) }
        ensures no_longer { length self.new.rest ≤ length self.old.rest }
        ensures turns { Moves 1 self.old result self.new }
        ensures grows { Grows self.old self.new }
    {
        match split_any_integer(self.rest) {
            Ok((numeral, rest)) => {
                self.pass_to(rest);
                Ok(numeral)
            }
            Err(refused) => {
                self.pass_to(refused.start);
                self.pass_to(refused.rest);
                Err(refused.fault)
            }
        }
    }

    /// Goes past a string, and gives its text: a slice of the text, and no memory is taken, unless it holds an escape
    /// or a continuation. Where it is refused, by a fault of `split_string`, the cursor goes past the stretch at fault;
    /// where memory is wanted it stays.
    pub fn string(&mut self, alloc: Global) -> Result<ParsedStr<'a>, StringRefusal<'a>>
        ensures text { self.new.text ≡ self.old.text }
        ensures value { GivesOrMemory parsed_text result (string self.old.rest) self.new.rest }
        ensures slice { IfOk result (λ s. IsSliceUnlessEscaped self.old.rest self.new.rest (is_slice s)) }
        ensures between { IfOk result (λ s. is_slice s ≡ true →
            StandsBetweenQuotes self.old.rest self.new.rest (parsed_text s)) }
        ensures end { IsSuffix self.old.rest self.old.text }
        ensures memory { IfErr result (λ e. e ≡ OutOfMemory → opens_escaped_string self.old.rest ≡ true) }
        ensures escaped { IfErr result (λ e. e ≡ OutOfMemory → HoldsEscape String self.old.rest) }
        ensures stays { IfErr result (λ e. e ≡ OutOfMemory → Stays self.old self.new) }
        ensures token_start { OnOk result (self.new.token_start ≡ self.old.rest) }
        ensures gap { OnOk result (self.new.gap ≡ []) }
        ensures shorter { OnOk result (length self.new.rest < length self.old.rest) }
        ensures no_longer { length self.new.rest ≤ length self.old.rest }
        ensures turns { Moves 2 self.old result self.new }
        ensures grows { Grows self.old self.new }
        ensures least { OnOk result (Counts (min (searched_string self.old.rest self.new.rest) most_searched) self.old self.new) }
        ensures refused { IfErr result (λ e. begins_none e ≡ false → Counts (2 * bytes_in self.old.rest) self.old self.new) }
    {
        let mut searches = Searches::new();
        match split_string(alloc, &mut searches, self.rest) {
            Ok((text, rest)) => {
                let over = bytes_before(self.rest, rest);
                self.pass_to(rest);
                // What was passed is counted already.
                self.count(searches.covered.saturating_sub(over));
                Ok(text)
            }
            Err(StringRefusal::OutOfMemory) => {
                self.count_twice();
                Err(StringRefusal::OutOfMemory)
            }
            Err(StringRefusal::Refused(refused)) => {
                self.refuse(refused);
                Err(StringRefusal::Refused(refused))
            }
        }
    }

    /// Goes past a byte string, and gives its bytes: a slice of the text, and no memory is taken, unless it holds an
    /// escape or a continuation. Where it is refused, by a fault of `split_byte_string`, the cursor goes past the
    /// stretch at fault; where memory is wanted it stays.
    pub fn byte_string(&mut self, alloc: Global) -> Result<ParsedByteStr<'a>, StringRefusal<'a>>
        ensures text { self.new.text ≡ self.old.text }
        ensures value { GivesOrMemory parsed_bytes result (byte_string self.old.rest) self.new.rest }
        ensures slice { IfOk result (λ s. IsSliceUnlessEscaped self.old.rest self.new.rest (is_byte_slice s)) }
        ensures between { IfOk result (λ s. is_byte_slice s ≡ true →
            StandAsBytes self.old.rest self.new.rest (parsed_bytes s)) }
        ensures end { IsSuffix self.old.rest self.old.text }
        ensures memory { IfErr result (λ e. e ≡ OutOfMemory → opens_escaped_bytes self.old.rest ≡ true) }
        ensures escaped { IfErr result (λ e. e ≡ OutOfMemory → HoldsEscape ByteString self.old.rest) }
        ensures stays { IfErr result (λ e. e ≡ OutOfMemory → Stays self.old self.new) }
        ensures token_start { OnOk result (self.new.token_start ≡ self.old.rest) }
        ensures gap { OnOk result (self.new.gap ≡ []) }
        ensures shorter { OnOk result (length self.new.rest < length self.old.rest) }
        ensures no_longer { length self.new.rest ≤ length self.old.rest }
        ensures turns { Moves 2 self.old result self.new }
        ensures grows { Grows self.old self.new }
        ensures least { OnOk result (Counts (min (searched_bytes self.old.rest self.new.rest) most_searched) self.old self.new) }
        ensures refused { IfErr result (λ e. begins_none e ≡ false → Counts (2 * bytes_in self.old.rest) self.old self.new) }
    {
        let mut searches = Searches::new();
        match split_byte_string(alloc, &mut searches, self.rest) {
            Ok((bytes, rest)) => {
                let over = bytes_before(self.rest, rest);
                self.pass_to(rest);
                // What was passed is counted already.
                self.count(searches.covered.saturating_sub(over));
                Ok(bytes)
            }
            Err(StringRefusal::OutOfMemory) => {
                self.count_twice();
                Err(StringRefusal::OutOfMemory)
            }
            Err(StringRefusal::Refused(refused)) => {
                self.refuse(refused);
                Err(StringRefusal::Refused(refused))
            }
        }
    }
}
