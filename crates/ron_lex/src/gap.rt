//! Gaps: blanks and comments.
// The span of a refused slash begins at the slash, behind the gap before it, and the cursor then stands behind it. Of
// a block comment that is left open it goes from the outermost `/*` to the end of the text, so that it shows what
// isn't closed (`UnclosedBlockComment`). Else it is the slash and the character behind it (`UnexpectedChar`), or the
// slash alone where the text ends (`Eof`). Each call that passes a gap can refuse, also the one at the start of a
// text.

ghost use Rattle.std.specs.Prelude.{◌≡◌, ℕ, ◌<◌, ◌≤◌, true, ◌||◌, [], ◌∷◌, ◌++◌};
ghost use Rattle.std.specs.Prelude.{length, chars, None, Some, MatchOption, IfSome};
ghost use Rattle.ron_spec_words.specs.Characters.{comma, slash};
ghost use Rattle.ron_spec_words.specs.Gap.{after_line, after_block, after_comment, skip};
ghost use Rattle.ron_spec_words.specs.Runs.{is_at, after_run};
ghost use Rattle.ron_lex.specs.Gap.{goes_on, opens_open_line};
ghost use Rattle.ron_lex_text.specs.Stretch.{IsSuffix, in_class, opens_with};
ghost use Rattle.ron_lex_text.specs.declared.text.Class.TheVariants.{Blank, Comment};

use ron_lex_text::search::{skip_to_comment_mark, skip_to_line_end};
use ron_lex_text::text::{
    Class, is_at_class, is_ended, skip_blanks, split_first, strip_mark, strip_text,
};

/// Why a gap is refused that a slash follows.
#[derive(Clone, Copy)]
pub enum GapFault {
    /// The text ends behind the slash.
    Eof,
    /// A block comment begins there, and doesn't end.
    UnclosedBlockComment,
    /// Another character stands behind the slash.
    UnexpectedChar(char),
}

/// A fault, and what follows the stretch at fault.
#[derive(Clone, Copy)]
pub struct GapError<'a> {
    pub fault: GapFault,
    pub rest: &'a str,
}

/// Whether a blank or a slash stands at the start of a text, as where a gap does.
#[inline]
pub fn opens_gap(text: &str) -> bool
    ensures { result ≡ (opens_with Blank (chars text.now) || is_at slash (chars text.now)) }
{
    match split_first(text) {
        Some((first, _)) => first == '/' || Class::Blank.contains(first),
        None => false,
    }
}

/// What follows the longest gap at the start of a text. Where a slash stands there, it begins no comment that ends.
#[inline]
pub fn skip_gap(text: &str) -> &str
    ensures value { chars result.now ≡ skip (chars text.now) }
{
    if !opens_gap(text) {
        return text;
    }
    skip_opened_gap(text)
}

/// The same where a gap may begin: kept apart, so that the test before it costs little.
#[inline(never)]
fn skip_opened_gap(text: &str) -> &str
    ensures value { chars result.now ≡ skip (chars text.now) }
{
    let mut rest = skip_blanks(text);
    while let Some(after) = skip_comment(rest) {
        rest = skip_blanks(after);
    }
    rest
}

/// What follows the longest gap at the start of a text; none where it leaves a line comment open, in which a character
/// behind the text would then stand.
pub fn skip_closed_gap(text: &str) -> Option<&str>
    ensures { MatchOption result (skip (chars text.now ++ comma ∷ []) ≡ [])
        (λ rest. skip (chars text.now ++ comma ∷ []) ≡ chars rest.now ++ comma ∷ []) }
{
    let mut rest = skip_blanks(text);
    while let Some(after) = skip_comment(rest) {
        if is_ended(after) && is_open_line(rest) {
            return None;
        }
        rest = skip_blanks(after);
    }
    Some(rest)
}

/// Whether a line comment stands here that no LF ends.
#[tactic(auto, unfolding(ron_lex_text::proofs::StretchLemmas::literals))]
fn is_open_line(text: &str) -> bool
    ensures { result ≡ opens_open_line (chars text.now) }
{
    match strip_text(text, "//") {
        Some(line) => is_ended(skip_to_line_end(line)),
        None => false,
    }
}

/// What follows the comment at the start of a text, where one begins there and ends.
pub fn skip_comment(text: &str) -> Option<&str>
    ensures value { MatchOption result (after_comment (chars text.now) ≡ None)
        (λ rest. after_comment (chars text.now) ≡ Some (chars rest.now)) }
    ensures shorter { IfSome result (λ rest. length rest.now < length text.now) }
{
    let Some(after) = strip_mark(text, '/') else {
        return None;
    };
    if let Some(line) = strip_mark(after, '/') {
        return Some(skip_line(line));
    }
    match strip_mark(after, '*') {
        Some(inside) => skip_block(inside),
        None => None,
    }
}

/// What follows the end of the line.
pub fn skip_line(text: &str) -> &str
    ensures value { chars result.now ≡ after_line (chars text.now) }
    ensures shorter { length result.now ≤ length text.now }
{
    let end = skip_to_line_end(text);
    match split_first(end) {
        Some((_, rest)) => rest,
        None => end,
    }
}

/// What a star or a slash is inside of a block comment.
#[derive(Clone, Copy)]
enum Mark {
    /// `/*`.
    Opens,
    /// `*/`.
    Closes,
    /// A star or a slash alone.
    Other,
}

/// What follows the end of the block comment whose inside begins here, where it ends. Comments nest.
#[tactic(auto, using(crate::proofs::GapLemmas::opens_one, crate::proofs::GapLemmas::closes_one))]
fn skip_block(text: &str) -> Option<&str>
    ensures value { MatchOption result (after_block 0 (chars text.now) ≡ None)
        (λ rest. after_block 0 (chars text.now) ≡ Some (chars rest.now)) }
    ensures shorter { IfSome result (λ rest. length rest.now < length text.now) }
{
    let size = text.len();
    let mut open = 0;
    let mut rest = text;
    while let Some((mark, after)) = split_mark(rest) {
        rest = after;
        match mark {
            Mark::Opens => {
                prove!(open < size);
                open += 1;
            }
            Mark::Closes if open == 0 => return Some(after),
            Mark::Closes => open -= 1,
            Mark::Other => {}
        }
    }
    None
}

/// The next `*` or `/` of a text, as what it is in a block comment, and what follows it.
fn split_mark(text: &str) -> Option<(Mark, &str)>
    ensures value { (n : ℕ) → after_block n (chars text.now) ≡ goes_on n result }
    ensures shorter { IfSome result (λ p. length p.1.now < length text.now) }
{
    let Some((first, after)) = split_first(next_mark(text)) else {
        return None;
    };
    if first == '*' {
        return match strip_mark(after, '/') {
            Some(rest) => Some((Mark::Closes, rest)),
            None => Some((Mark::Other, after)),
        };
    }
    match strip_mark(after, '*') {
        Some(rest) => Some((Mark::Opens, rest)),
        None => Some((Mark::Other, after)),
    }
}

/// The text from its first `*` or `/` on. Such marks often stand in a row, so one that stands here is not searched for.
#[inline]
fn next_mark(text: &str) -> &str
    ensures shorter { length result.now ≤ length text.now }
    ensures value { chars result.now ≡ after_run (in_class Comment) (chars text.now) }
{
    if is_at_class(text, Class::Comment) {
        skip_to_comment_mark(text)
    } else {
        text
    }
}

/// What is wrong with a slash that ends a gap.
#[tactic(auto, unfolding(ron_lex_text::proofs::StretchLemmas::literals), using(ron_lex_text::proofs::StretchLemmas::end_nothing))]
pub(crate) fn slash_error(text: &str) -> GapError<'_>
    requires { is_at slash (chars text.now) ≡ true }
    ensures end { IsSuffix (chars result.rest.now) (chars text.now) }
{
    let Some((_, behind)) = split_first(text) else {
        unreachable!()
    };
    match split_first(behind) {
        None => GapError {
            fault: GapFault::Eof,
            rest: behind,
        },
        Some(('*', _)) => GapError {
            fault: GapFault::UnclosedBlockComment,
            rest: "",
        },
        Some((character, rest)) => GapError {
            fault: GapFault::UnexpectedChar(character),
            rest,
        },
    }
}
