//! Strings and byte strings, where one is wanted.
ghost use Rattle.std.specs.Prelude.{◌≡◌, ◌⊎◌, ◌≤◌, true, length, IfOk, IfErr};
ghost use Rattle.ron_spec_words.specs.Quoted.{String, ByteString, string, byte_string};
ghost use Rattle.ron_spec_words.specs.Reader.{failed, bad};
ghost use Rattle.ron_lex_text.specs.Parsed.{parsed_text, parsed_bytes, is_slice, is_byte_slice};
ghost use Rattle.ron_lex_text.specs.Stretch.{IsSuffix};
ghost use Rattle.ron_lex.specs.Quoted.{HoldsEscape, IsSliceUnlessEscaped, StandsBetweenQuotes, StandAsBytes};
ghost use Rattle.ron_lex.specs.Turns.{Grows, Moves};
ghost use Rattle.ron_de_steps.specs.Errors.{IsOfReading, IsMemoryOr};
ghost use Rattle.ron_de_steps.specs.Reads.{Reads};

use crate::faults::string_error;
use ron_base::error::Result;
use ron_lex::cursor::Cursor;
use ron_lex_text::parsed::{ParsedByteStr, ParsedStr};
use std::alloc::Global;

/// Goes past a string: a slice of the text, unless it holds an escape or a continuation; only then memory is wanted.
#[inline(always)]
pub fn read_string<'a>(alloc: Global, cursor: &mut Cursor<'a>) -> Result<ParsedStr<'a>>
    ensures text { cursor.new.text ≡ cursor.old.text }
    ensures value { Reads parsed_text result (string cursor.old.rest) cursor.new.rest }
    ensures refused { IfErr result (λ _. HoldsEscape String cursor.old.rest ⊎ (string cursor.old.rest ≡ failed bad)) }
    ensures slice { IfOk result (λ s. IsSliceUnlessEscaped cursor.old.rest cursor.new.rest (is_slice s)) }
    ensures between { IfOk result (λ s. is_slice s ≡ true →
        StandsBetweenQuotes cursor.old.rest cursor.new.rest (parsed_text s)) }
    ensures end { IsSuffix cursor.old.rest cursor.old.text }
    ensures no_longer { length cursor.new.rest ≤ length cursor.old.rest }
    ensures fault { IfErr result IsOfReading }
    ensures no_level { IfErr result (IsMemoryOr (Unit {0})) }
    ensures turns { Moves 2 cursor.old result cursor.new }
    ensures grows { Grows cursor.old cursor.new }
{
    match cursor.string(alloc) {
        Ok(text) => Ok(text),
        Err(refusal) => Err(string_error(refusal)),
    }
}

/// Goes past a byte string, likewise.
#[inline(always)]
pub fn read_byte_string<'a>(alloc: Global, cursor: &mut Cursor<'a>) -> Result<ParsedByteStr<'a>>
    ensures text { cursor.new.text ≡ cursor.old.text }
    ensures value { Reads parsed_bytes result (byte_string cursor.old.rest) cursor.new.rest }
    ensures refused { IfErr result (λ _.
        HoldsEscape ByteString cursor.old.rest ⊎ (byte_string cursor.old.rest ≡ failed bad)) }
    ensures slice { IfOk result (λ s. IsSliceUnlessEscaped cursor.old.rest cursor.new.rest (is_byte_slice s)) }
    ensures between { IfOk result (λ s. is_byte_slice s ≡ true →
        StandAsBytes cursor.old.rest cursor.new.rest (parsed_bytes s)) }
    ensures end { IsSuffix cursor.old.rest cursor.old.text }
    ensures no_longer { length cursor.new.rest ≤ length cursor.old.rest }
    ensures fault { IfErr result IsOfReading }
    ensures no_level { IfErr result (IsMemoryOr (Unit {0})) }
    ensures turns { Moves 2 cursor.old result cursor.new }
    ensures grows { Grows cursor.old cursor.new }
{
    match cursor.byte_string(alloc) {
        Ok(bytes) => Ok(bytes),
        Err(refusal) => Err(string_error(refusal)),
    }
}
