//! What strings and byte strings have in common behind the opening quote: plain characters, pieces that a backslash
//! begins, and the closing quote.
// One skeleton for strings and byte strings. What stands behind the quote is plain characters, pieces that a
// backslash begins, and the quote. A trait (`Content`) says what a piece and a character give; the loops that read it
// and that go past it are written once.

ghost use Rattle.std.specs.Prelude.{◌≡◌, ℕ, [], ◌∷◌, ◌++◌, chars, flat_map, OnOk, IfOk, IfErr};
ghost use Rattle.ron_spec_words.specs.Characters.{Text, double_quote};
ghost use Rattle.ron_spec_words.specs.Lang.{Lang};
ghost use Rattle.ron_spec_words.specs.Reader.{Reader};
ghost use Rattle.ron_spec_words.specs.Runs.{after_run};
ghost use Rattle.ron_spec_words.specs.Scan.{left_by};
ghost use Rattle.ron_lex_text.specs.Stretch.{IsSuffix, in_class};
ghost use Rattle.ron_lex_text.specs.declared.text.Class.TheVariants.{Plain};
ghost use Rattle.ron_lex.specs.Quoted.{SplitsBy, SplitsOrMemory, EndsIn, escape_piece};
ghost use Rattle.ron_lex.specs.Content.{IsContent};
ghost use Rattle.ron_lex.specs.Token.{Leaves};
ghost use Rattle.ron_lex.specs.Turns.{CoversAtMost, passed};
ghost use Rattle.ron_lex.specs.Searched.{Gains};

use crate::fault::{QuotedError, QuotedFault, StringRefusal};
use crate::searches::Searches;
use ron_lex_text::search::skip_to_quote_or_escape;
use ron_lex_text::text::{before, strip_char};
use std::alloc::{AllocError, Global};

/// What a string or a byte string is put together as, where a backslash stands in it.
pub(crate) trait Content: Sized + Drop {
    /// What a backslash and what stands behind it give.
    type Given: Copy;

    // what stands behind the opening quote
    ghost content: { Reader Text };

    // what a character gives
    ghost gives: { ℕ → Text };

    // what a backslash begins that is no continuation, and how that is spelled
    ghost escapes: { Reader Text };

    ghost spelled: { Lang Text };

    // what was made
    ghost made: { Self → Text };

    // what a piece gives
    ghost piece: { Self.Given → Text };

    ghost is_content: { IsContent content gives escapes spelled };

    fn with_room(alloc: Global, room: usize) -> Result<Self, AllocError>
        ensures { IfOk result (λ c. made c ≡ []) };

    fn push_given(&mut self, given: Self::Given) -> Result<(), AllocError>
        ensures { OnOk result (made self.new ≡ made self.old ++ piece given) };

    fn push_plain(&mut self, plain: &str) -> Result<(), AllocError>
        ensures { OnOk result (made self.new ≡ made self.old ++ flat_map gives (chars plain.now)) };

    /// What a backslash at the start of a text begins, and what follows it.
    fn split_piece(text: &str) -> Result<(Self::Given, &str), QuotedError<'_>>
        ensures value { SplitsBy piece result (escape_piece escapes (chars text.now)) }
        ensures err_end { IfErr result (λ e. IsSuffix (chars e.rest.now) (chars text.now)) };
}

/// What follows the content whose opening quote stands before a text, and its closing quote.
pub(crate) fn skip_content<C: Content>(text: &str) -> Option<&str>
    ensures { Leaves result (left_by (C.content (chars text.now))) }
{
    let mut rest = skip_to_quote_or_escape(text);
    while strip_char(rest, '\\').is_some() {
        let Ok((_, after)) = C::split_piece(rest) else {
            return None;
        };
        rest = skip_to_quote_or_escape(after);
    }
    strip_char(rest, '"')
}

/// The content whose opening quote stands before a text, and what follows its closing quote. Plain characters stand at
/// the start of the text, and `escape` behind them; `room` is how many bytes the content may have at first. Nothing that
/// stands behind is gone over twice.
pub(crate) fn split_escaped<'a, C: Content>(
    alloc: Global,
    searches: &mut Searches,
    text: &'a str,
    escape: &'a str,
    room: usize,
) -> Result<(C, &'a str), StringRefusal<'a>>
    requires { chars escape.now ≡ after_run (in_class Plain) (chars text.now) }
    ensures value { SplitsOrMemory C.made result (C.content (chars text.now)) }
    ensures err_end { IfErr result (λ e. EndsIn e (chars text.now)) }
    ensures closed { IfOk result (λ p. IsSuffix (double_quote ∷ chars p.1.now) (chars text.now)) }
    ensures covered { IfOk result (λ p.
        CoversAtMost 1 searches.old.covered (chars escape.now) (chars p.1.now) searches.new.covered) }
    ensures least { IfOk result (λ p. Gains (passed (chars escape.now) (double_quote ∷ chars p.1.now))
        searches.old.covered searches.new.covered) }
{
    let mut content = C::with_room(alloc, room)?;
    content.push_plain(before(text, escape))?;
    let mut place = text;
    let mut rest = escape;
    while strip_char(rest, '\\').is_some() {
        let (given, after) = C::split_piece(rest)?;
        searches.pass(rest, after);
        rest = searches.plain(after);
        content.push_given(given)?;
        content.push_plain(before(after, rest))?;
        place = after;
    }
    match strip_char(rest, '"') {
        Some(behind) => Ok((content, behind)),
        None => Err(QuotedError::new(QuotedFault::MissingStringEnd, place).into()),
    }
}
