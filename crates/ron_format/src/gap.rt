//! The comments of a stretch of text.
ghost use Rattle.std.specs.Prelude.{◌≡◌, [], ◌∷◌, ◌<◌, length, chars, MatchOption, IfSome, if◌then◌else◌};
ghost use Rattle.ron_spec_words.specs.Characters.{is_blank};
ghost use Rattle.ron_format_words.specs.Comments.{without_last_blanks, comments_of};

use ron_lex::gap::skip_comment;
use ron_lex_text::text::{Class, before, skip_blanks, split_first};

/// A text without the blanks at its end.
#[tactic(auto, using(crate::proofs::BlankLemmas::trimmed_start, crate::proofs::BlankLemmas::trimmed_on, crate::proofs::BlankLemmas::trimmed_end, crate::proofs::BlankLemmas::trimmed_all))]
pub fn trim_blanks(text: &str) -> &str
    ensures { chars result.now ≡ without_last_blanks (chars text.now) }
{
    let mut end = text;
    let mut rest = text;
    while let Some((first, after)) = split_first(rest) {
        end = end_behind(first, end, after);
        rest = after;
    }
    before(text, end)
}

/// Where a text ends without its last blanks: where it ended before this character, if that is a blank, else behind it.
#[inline(always)]
fn end_behind<'a>(character: char, end: &'a str, after: &'a str) -> &'a str
    ensures { chars result.now ≡ (if is_blank character then chars end.now else chars after.now) }
{
    if Class::Blank.contains(character) {
        end
    } else {
        after
    }
}

/// The first comment of a text, without blanks at its end, and what follows it.
#[tactic(auto, using(crate::proofs::CommentLemmas::comment_end, crate::proofs::CommentLemmas::comment_first, crate::proofs::CommentLemmas::comment_later, crate::proofs::CommentLemmas::no_comments, crate::proofs::CommentLemmas::blanks_gone))]
pub fn next_comment(text: &str) -> Option<(&str, &str)>
    ensures comments { MatchOption result (comments_of (chars text.now) ≡ [])
        (λ p. comments_of (chars text.now) ≡ chars p.0.now ∷ comments_of (chars p.1.now)) }
    ensures shorter { IfSome result (λ p. length p.1.now < length text.now) }
{
    let mut rest = skip_blanks(text);
    while let Some((_, after)) = split_first(rest) {
        if let Some(behind) = skip_comment(rest) {
            return Some((trim_blanks(before(rest, behind)), behind));
        }
        rest = skip_blanks(after);
    }
    None
}
