//! Searches of a string that count what they go over.
// A text of its own is given room once, by the length up to its first quote, which is looked for once. What its
// searches and escapes go over is counted as they do.

ghost use Rattle.std.specs.Prelude.{◌≡◌, ◌≤◌, ◌*◌, chars, length};
ghost use Rattle.ron_spec_words.specs.Runs.{after_run};
ghost use Rattle.ron_lex_text.specs.Stretch.{IsSuffix, in_class};
ghost use Rattle.ron_lex_text.specs.declared.text.Class.TheVariants.{Unquoted, Plain};
ghost use Rattle.ron_lex.specs.Searched.{Gains};
ghost use Rattle.ron_lex.specs.Turns.{Covers, CoversAtMost, passed};

use crate::turns::bytes_before;
use ron_lex_text::search::{skip_to_quote, skip_to_quote_or_escape};

/// How many bytes were gone over. The number stays at the highest one.
#[derive(Drop)]
pub(crate) struct Searches {
    pub(crate) covered: usize,
}

impl Searches {
    /// No search yet.
    pub(crate) fn new() -> Searches
        ensures { result.covered ≡ 0 }
    {
        Searches { covered: 0 }
    }

    /// The text from its first `"` on.
    pub(crate) fn quote<'a>(&mut self, text: &'a str) -> &'a str
        ensures shorter { length result.now ≤ length text.now }
        ensures value { chars result.now ≡ after_run (in_class Unquoted) (chars text.now) }
        ensures covers { Covers self.old.covered (chars text.now) (chars result.now) self.new.covered }
    {
        let rest = skip_to_quote(text);
        self.pass(text, rest);
        rest
    }

    /// The text from its first `"` or backslash on.
    pub(crate) fn plain<'a>(&mut self, text: &'a str) -> &'a str
        ensures shorter { length result.now ≤ length text.now }
        ensures value { chars result.now ≡ after_run (in_class Plain) (chars text.now) }
        ensures covers { Covers self.old.covered (chars text.now) (chars result.now) self.new.covered }
    {
        let rest = skip_to_quote_or_escape(text);
        self.pass(text, rest);
        rest
    }

    /// Counts what stands before an end of a text twice.
    pub(crate) fn pass_twice(&mut self, text: &str, rest: &str)
        requires { IsSuffix (chars rest.now) (chars text.now) }
        ensures most { CoversAtMost 2 self.old.covered (chars text.now) (chars rest.now) self.new.covered }
        ensures least { Gains (2 * passed (chars text.now) (chars rest.now)) self.old.covered self.new.covered }
    {
        self.pass(text, rest);
        self.pass(text, rest);
    }

    /// Counts what stands before an end of a text.
    pub(crate) fn pass(&mut self, text: &str, rest: &str)
        requires { IsSuffix (chars rest.now) (chars text.now) }
        ensures { Covers self.old.covered (chars text.now) (chars rest.now) self.new.covered }
    {
        self.covered = self.covered.saturating_add(bytes_before(text, rest));
    }
}
