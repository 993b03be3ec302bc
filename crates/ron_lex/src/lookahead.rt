//! The lookahead over a text from an opening bracket on, where no type tells what stands there.
ghost use Rattle.std.specs.Prelude.{◌≡◌, ◌+◌, ◌*◌, ◌&&◌, [], true, false, codes, drop, chars, min, if◌then◌else◌};
ghost use Rattle.ron_spec_words.specs.Characters.{left_parenthesis, slash};
ghost use Rattle.ron_spec_words.specs.Beyond.{bytes_in, past_words};
ghost use Rattle.ron_spec_words.specs.Directly.{stands};
ghost use Rattle.ron_spec_words.specs.Lookahead.{seek, separates, holds_several, opens_field, opens_named_group};
ghost use Rattle.ron_spec_words.specs.Gap.{skip};
ghost use Rattle.ron_spec_words.specs.Name.{name, untyped_name};
ghost use Rattle.ron_spec_words.specs.Runs.{is_at};
ghost use Rattle.ron_spec_words.specs.Scan.{ends, is_opening, is_closing};
ghost use Rattle.ron_lex.specs.Turns.{IsLook, LooksPast, IsGapLook, most_turns};

use crate::gap::skip_gap;
use crate::identifier::split_name;
use crate::token::skip_token;
use crate::turns::bytes_of;
use crate::untyped::split_untyped_name;
use crate::word::strip_word;
use ron_lex_text::text::{is_at, split_first, strip_char};

/// Whether a name, a gap and `:` stand at the start of a text, and the end up to which it was gone over.
pub(crate) fn opens_field(text: &str) -> (bool, &str)
    ensures value { result.0 ≡ opens_field (chars text.now) }
    ensures end { LooksPast (name (chars text.now)) (chars result.1.now) }
    ensures seen { IsLook (chars text.now) (chars result.1.now) }
{
    match split_name(text) {
        Ok((_, rest)) => leads_to(rest, ':'),
        Err(end) => (false, end),
    }
}

/// Whether the word `Some`, a gap and `(` stand at the start of a text, and the end up to which it was gone over.
#[tactic(auto, unfolding(ron_lex_text::proofs::StretchLemmas::literals))]
pub(crate) fn opens_some(text: &str) -> (bool, &str)
    ensures value { result.0 ≡ (stands (codes "Some") (chars text.now)
        && is_at left_parenthesis (skip (drop 4 (chars text.now)))) }
    ensures end { stands (codes "Some") (chars text.now) ≡ true
        → chars result.1.now ≡ past_words (drop 4 (chars text.now)) }
    ensures seen { IsLook (chars text.now) (chars result.1.now) }
{
    match strip_word(text, "Some") {
        Some(rest) => leads_to(rest, '('),
        None => (false, text),
    }
}

/// Whether a name that is no word of a value, a gap and `(` stand at the start of a text, and the end up to which it was
/// gone over.
pub(crate) fn opens_named_group(text: &str) -> (bool, &str)
    ensures value { result.0 ≡ opens_named_group (chars text.now) }
    ensures end { LooksPast (untyped_name (chars text.now)) (chars result.1.now) }
    ensures seen { IsLook (chars text.now) (chars result.1.now) }
{
    match split_untyped_name(text) {
        Ok((_, rest)) => leads_to(rest, '('),
        Err(end) => (false, end),
    }
}

/// Whether the first comma outside all brackets separates items: more than a gap and `)` stands behind it. A comma in a
/// literal or in a comment is none. What is gone over for it is added to this count, which stays at the highest number:
/// the text twice at most, since hashes behind an `r` are looked at before they are passed.
#[tactic(auto, unfolding(ron_spec_words::specs::Lookahead::holds_several))]
pub(crate) fn holds_several(count: &mut u128, text: &str) -> bool
    ensures value { result ≡ holds_several (chars text.now) }
    ensures counted { count.new ≡ min (count.old + 2 * bytes_in (chars text.now)) most_turns }
{
    let bytes = bytes_of(text) as u128;
    *count = count.saturating_add(2 * bytes);
    separates(seek(text))
}

/// Whether a comma stands here, and behind it more than a gap and `)`.
pub(crate) fn separates(text: &str) -> bool
    ensures { result ≡ separates (chars text.now) }
{
    match strip_char(text, ',') {
        Some(behind) => !leads_to(behind, ')').0,
        None => false,
    }
}

/// Whether this character stands behind a gap, and the end up to which the text was gone over.
pub(crate) fn leads_to(text: &str, character: char) -> (bool, &str)
    ensures value { result.0 ≡ is_at character (skip (chars text.now)) }
    ensures end { chars result.1.now ≡ past_words (chars text.now) }
    ensures seen { IsGapLook (chars text.now) (chars result.1.now) }
{
    let behind = skip_gap(text);
    (is_at(behind, character), end_of_look(behind))
}

/// The end up to which a text was gone over for its gap, behind which this stands: a comment that doesn't end was gone
/// over to its end.
#[tactic(auto, unfolding(ron_lex_text::proofs::StretchLemmas::literals))]
pub(crate) fn end_of_look(behind: &str) -> &str
    ensures { chars result.now ≡ (if is_at slash (chars behind.now) then [] else chars behind.now) }
{
    if is_at(behind, '/') { "" } else { behind }
}

/// The text from the first token on that ends what stands outside all brackets: a comma or a closing bracket. Nothing,
/// where the text ends or a token is broken before.
#[tactic(auto, unfolding(ron_lex_text::proofs::StretchLemmas::literals))]
fn seek(text: &str) -> &str
    ensures { chars result.now ≡ seek 0 0 (chars text.now) }
{
    let size = text.len();
    let mut open = 0;
    let mut rest = text;
    while let Some((first, _)) = split_first(rest) {
        if ends_item(open, first) {
            return rest;
        }
        let Some(after) = skip_token(rest) else {
            return "";
        };
        rest = after;
        if is_opening(first) {
            prove!(open < size);
            open += 1;
        } else if is_closing(first) {
            open -= 1;
        }
    }
    rest
}

/// Whether a token that begins so ends what stands outside all brackets, where so many are open.
pub(crate) fn ends_item(depth: usize, first: char) -> bool
    ensures { result ≡ ends false depth first }
{
    depth == 0 && (is_closing(first) || first == ',')
}

/// Whether this is an opening bracket.
pub(crate) fn is_opening(first: char) -> bool
    ensures { result ≡ is_opening first }
{
    matches!(first, '(' | '[' | '{')
}

/// Whether this is a closing bracket.
pub(crate) fn is_closing(first: char) -> bool
    ensures { result ≡ is_closing first }
{
    matches!(first, ')' | ']' | '}')
}
