//! Characters, texts and words of the code, gone past where they stand at a place.
ghost use Rattle.std.specs.Prelude.{◌≡◌, ◌<◌, ◌≤◌, ◌∷◌, ◌++◌, ◌&&◌, [], true, false, chars, codes, drop, length, MatchBool};
ghost use Rattle.ron_spec_words.specs.Characters.{colon, left_parenthesis};
ghost use Rattle.ron_spec_words.specs.Directly.{stands, fixed_word};
ghost use Rattle.ron_spec_words.specs.Gap.{skip};
ghost use Rattle.ron_spec_words.specs.Lang.{done};
ghost use Rattle.ron_spec_words.specs.Name.{name};
ghost use Rattle.ron_spec_words.specs.Reader.{got, failed, bad};
ghost use Rattle.ron_spec_words.specs.Runs.{is_at, begins_with};
ghost use Rattle.ron_lex_text.specs.Stretch.{IsSuffix, opens_with, stands_called, parting};
ghost use Rattle.ron_lex_text.specs.declared.text.Class.TheVariants.{NameStart};
ghost use Rattle.ron_lex.specs.Turns.{Stays, GoesOver, Looks, Counts, Grows, passed};

use crate::cursor::Cursor;
use crate::gap::skip_gap;
use crate::lookahead::end_of_look;
use crate::word::strip_word;
use ron_lex_text::text::{Class, is_at_class, strip_called, strip_char, strip_text};

impl<'a> Cursor<'a> {
    /// Goes past this character and answers true, where it stands here; else the cursor stays.
    #[inline(always)]
    pub fn take(&mut self, character: char) -> bool
        ensures text { self.new.text ≡ self.old.text }
        ensures taken { MatchBool result (self.old.rest ≡ character ∷ self.new.rest)
            ((is_at character self.old.rest ≡ false) × (self.new ≡ self.old)) }
        ensures end { IsSuffix self.old.rest self.old.text }
        ensures token_start { result ≡ true → self.new.token_start ≡ self.old.rest }
        ensures gap { result ≡ true → self.new.gap ≡ [] }
        ensures turns { GoesOver 1 self.old self.new }
        ensures grows { Grows self.old self.new }
    {
        match strip_char(self.rest, character) {
            Some(rest) => {
                self.pass_to(rest);
                true
            }
            None => false,
        }
    }

    /// Goes past this name and the colon directly behind it and answers true, where they stand here and the name is of ASCII
    /// letters, digits and `_` alone and begins with no digit; else the cursor stays. So a name that is awaited is not read
    /// first and then compared.
    #[inline]
    pub fn take_called(&mut self, called: &str) -> bool
        ensures text { self.new.text ≡ self.old.text }
        ensures value { MatchBool result
            (name self.old.rest ≡ got (chars called.now) (colon ∷ self.new.rest))
            (Stays self.old self.new) }
        ensures taken { result ≡ (opens_with NameStart (chars called.now)
            && stands_called (chars called.now) self.old.rest) }
        ensures token_start { result ≡ true → self.new.token_start ≡ self.old.rest }
        ensures gap { result ≡ true → self.new.gap ≡ [] }
        ensures turns { MatchBool result (GoesOver 1 self.old self.new) (Looks 1 self.old self.new) }
        ensures grows { Grows self.old self.new }
        ensures least { result ≡ false → opens_with NameStart (chars called.now) ≡ true
            → Counts (passed self.old.rest (parting (chars called.now) self.old.rest)) self.old self.new }
    {
        if !is_at_class(called, Class::NameStart) {
            return false;
        }
        match strip_called(self.rest, called) {
            Ok(rest) => {
                self.pass_to(rest);
                true
            }
            Err(end) => {
                self.look_to(end);
                false
            }
        }
    }

    /// Goes past this character, which stands here.
    pub fn pass(&mut self, character: char)
        requires { is_at character self.old.rest ≡ true }
        ensures text { self.new.text ≡ self.old.text }
        ensures rest { self.old.rest ≡ character ∷ self.new.rest }
        ensures token_start { self.new.token_start ≡ self.old.rest }
        ensures gap { self.new.gap ≡ [] }
        ensures turns { GoesOver 1 self.old self.new }
        ensures grows { Grows self.old self.new }
    {
        if !self.take(character) {
            unreachable!()
        }
    }

    /// Goes past this text, such as `()`, and answers true, where it stands here; else the cursor stays.
    pub fn take_text(&mut self, front: &str) -> bool
        ensures text { self.new.text ≡ self.old.text }
        ensures taken { MatchBool result (self.old.rest ≡ chars front.now ++ self.new.rest)
            ((begins_with (chars front.now) self.old.rest ≡ false) × (self.new ≡ self.old)) }
        ensures token_start { result ≡ true → self.new.token_start ≡ self.old.rest }
        ensures gap { result ≡ true → self.new.gap ≡ [] }
        ensures turns { GoesOver 1 self.old self.new }
        ensures grows { Grows self.old self.new }
    {
        if let Some(rest) = strip_text(self.rest, front) {
            self.pass_to(rest);
            return true;
        }
        false
    }

    /// Goes past this word and answers true, where it stands here; else the cursor stays.
    pub fn take_word(&mut self, word: &str) -> bool
        ensures text { self.new.text ≡ self.old.text }
        ensures value { MatchBool result
            (fixed_word (chars word.now) done self.old.rest ≡ got done self.new.rest)
            (fixed_word (chars word.now) done self.old.rest ≡ failed bad) }
        ensures stands { result ≡ stands (chars word.now) self.old.rest }
        ensures taken { MatchBool result (self.old.rest ≡ chars word.now ++ self.new.rest) (self.new ≡ self.old) }
        ensures token_start { result ≡ true → self.new.token_start ≡ self.old.rest }
        ensures gap { result ≡ true → self.new.gap ≡ [] }
        ensures turns { GoesOver 1 self.old self.new }
        ensures grows { Grows self.old self.new }
    {
        let Some(rest) = strip_word(self.rest, word) else {
            return false;
        };
        self.pass_to(rest);
        true
    }

    /// Goes past the word `Some`, a gap and `(`, where they stand here; else the cursor stays.
    #[tactic(auto, unfolding(ron_lex_text::proofs::StretchLemmas::literals))]
    pub fn take_some(&mut self) -> bool
        ensures text { self.new.text ≡ self.old.text }
        ensures opens { result ≡ (stands (codes "Some") self.old.rest
            && is_at left_parenthesis (skip (drop 4 self.old.rest))) }
        ensures taken { MatchBool result (skip (drop 4 self.old.rest) ≡ left_parenthesis ∷ self.new.rest)
            (Stays self.old self.new) }
        ensures shorter { result ≡ true → length self.new.rest < length self.old.rest }
        ensures no_longer { length self.new.rest ≤ length self.old.rest }
        ensures turns { MatchBool result (GoesOver 1 self.old self.new) (Looks 1 self.old self.new) }
        ensures grows { Grows self.old self.new }
        ensures least { stands (codes "Some") self.old.rest ≡ true
            → Counts (passed self.old.rest (skip (drop 4 self.old.rest))) self.old self.new }
    {
        let Some(behind) = strip_word(self.rest, "Some") else {
            return false;
        };
        let opening = skip_gap(behind);
        let Some(inside) = strip_char(opening, '(') else {
            self.look_to(end_of_look(opening));
            return false;
        };
        self.pass_to(opening);
        self.pass_to(inside);
        true
    }
}
