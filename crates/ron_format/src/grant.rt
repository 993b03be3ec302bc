//! What may stand between two words: the one place where that is settled, whatever a layout wishes.
ghost use Rattle.std.specs.Prelude.{◌≡◌, ◌==◌, if◌then◌else◌, drop, chars};
ghost use lib.Pointwise.{pointwise};
ghost use Rattle.ron_spec_words.specs.Characters.{comma};
ghost use Rattle.ron_spec_words.specs.Runs.{begins, same_text};
ghost use Rattle.ron_spec_words.specs.Gap.{skip};
ghost use Rattle.ron_spec_words.specs.Scan.{is_closing};
ghost use Rattle.ron_format_words.specs.Alike.{is_mark, ends_item, may_replace, as_empty, a_word};
ghost use Rattle.ron_format_words.specs.Comments.{comments_of};
ghost use Rattle.ron_format_words.specs.Edge.{holds_comma, is_closed, is_closed_edge, takes_last_comma, may_stand, permitted, granted};
ghost use Rattle.ron_format.specs.View.{before_view, commas_at};

use crate::gap::next_comment;
use crate::place::{Before, Spot, is_mark};
use ron_lex::gap::{skip_closed_gap, skip_gap};
use ron_lex_text::text::{is_at, is_ended, is_same, split_first, strip_char};

/// What an edge stands between: what is before it, and the text behind it.
#[derive(Clone, Copy)]
pub struct Around<'a> {
    pub spot: Spot,
    pub rest: &'a str,
}

/// The wish where it may stand in the place of the edge, else the edge as it stands.
#[tactic(auto, unfolding(ron_format_words::specs::Edge::granted), using(crate::proofs::GrantLemmas::granted_same))]
pub fn granted<'a>(around: &Around<'_>, edge: &'a str, wish: &'a str) -> &'a str
    ensures { chars result.now ≡ granted (commas_at around.now.spot.place (chars around.now.rest.now)) (before_view around.now.spot.before)
        (chars edge.now) (chars wish.now) (chars around.now.rest.now) }
{
    if is_same(edge, wish) {
        return edge;
    }
    if is_permitted(around, edge, wish) {
        wish
    } else {
        edge
    }
}

/// Whether the wish may stand in the place of the edge.
#[tactic(auto, unfolding(ron_format_words::specs::Edge::permitted))]
fn is_permitted(around: &Around<'_>, edge: &str, wish: &str) -> bool
    ensures { result ≡ permitted (commas_at around.now.spot.place (chars around.now.rest.now)) (before_view around.now.spot.before)
        (chars edge.now) (chars wish.now) (chars around.now.rest.now) }
{
    is_closed_edge(wish) && has_same_comments(edge, wish) && may_stand(around, edge, wish)
}

/// Whether what stands here is an edge that leaves no line comment open.
fn is_closed_edge(edge: &str) -> bool
    ensures { result ≡ is_closed_edge (chars edge.now) }
{
    is_closed(last_gap(edge))
}

/// The gap behind the comma of an edge; all of it where it holds none.
fn last_gap(edge: &str) -> &str
    ensures { chars result.now ≡ (if holds_comma (chars edge.now) then drop 1 (skip (chars edge.now)) else chars edge.now) }
{
    match strip_char(skip_gap(edge), ',') {
        Some(second) => second,
        None => edge,
    }
}

/// Whether a text is a gap that leaves no line comment open.
#[tactic(auto, using(crate::proofs::GrantLemmas::closed_by_rest, crate::proofs::GrantLemmas::left_open))]
fn is_closed(gap: &str) -> bool
    ensures { result ≡ is_closed (chars gap.now) }
{
    match skip_closed_gap(gap) {
        Some(rest) => is_ended(rest),
        None => false,
    }
}

/// Whether an edge holds a comma.
fn holds_comma(edge: &str) -> bool
    ensures { result ≡ holds_comma (chars edge.now) }
{
    is_at(skip_gap(edge), ',')
}

/// Whether the wish may stand in the place of the edge, where both hold the same comments.
fn may_stand(around: &Around<'_>, edge: &str, wish: &str) -> bool
    ensures { result ≡ may_stand (commas_at around.now.spot.place (chars around.now.rest.now)) (before_view around.now.spot.before)
        (chars edge.now) (chars wish.now) (chars around.now.rest.now) }
{
    if holds_comma(edge) {
        return holds_comma(wish) || takes_last_comma(around);
    }
    if holds_comma(wish) {
        takes_last_comma(around)
    } else {
        may_replace(around, edge, wish)
    }
}

/// Whether a last comma may come or go.
fn takes_last_comma(around: &Around<'_>) -> bool
    ensures { result ≡ takes_last_comma (commas_at around.now.spot.place (chars around.now.rest.now)) (before_view around.now.spot.before)
        (chars around.now.rest.now) }
{
    around.spot.place.takes_commas() && around.spot.before.ends_item() && opens_closing(around.rest)
}

/// Whether a closing bracket stands here.
fn opens_closing(rest: &str) -> bool
    ensures { result ≡ begins is_closing (chars rest.now) }
{
    match split_first(rest) {
        Some((first, _)) => matches!(first, ')' | ']' | '}'),
        None => false,
    }
}

/// Whether a gap may stand in the place of another.
fn may_replace(around: &Around<'_>, gap: &str, wish: &str) -> bool
    ensures { result ≡ may_replace (before_view around.now.spot.before) (chars gap.now) (chars wish.now) (chars around.now.rest.now) }
{
    match around.spot.before {
        Before::Mark | Before::End => true,
        Before::Parenthesis => !is_at(around.rest, ')') || is_as_empty(gap, wish),
        Before::Word => may_replace_behind_word(gap, wish, around.rest),
    }
}

/// The same behind a word.
fn may_replace_behind_word(gap: &str, wish: &str, rest: &str) -> bool
    ensures { result ≡ may_replace a_word (chars gap.now) (chars wish.now) (chars rest.now) }
{
    if is_at(rest, '(') {
        return !is_ended(gap) || is_ended(wish);
    }
    is_ended(rest) || opens_mark(rest) || is_as_empty(gap, wish)
}

/// Whether both are empty, or neither is.
fn is_as_empty(gap: &str, wish: &str) -> bool
    ensures { result ≡ as_empty (chars gap.now) (chars wish.now) }
{
    if is_ended(gap) {
        is_ended(wish)
    } else {
        !is_ended(wish)
    }
}

/// Whether a mark stands here.
fn opens_mark(rest: &str) -> bool
    ensures { result ≡ begins is_mark (chars rest.now) }
{
    match split_first(rest) {
        Some((first, _)) => is_mark(first),
        None => false,
    }
}

/// Whether both hold the same comments in the same order.
#[tactic(auto, using(crate::proofs::GrantLemmas::pair_same, crate::proofs::GrantLemmas::pair_apart, crate::proofs::GrantLemmas::one_more, crate::proofs::GrantLemmas::other_more, crate::proofs::GrantLemmas::none_more))]
fn has_same_comments(edge: &str, wish: &str) -> bool
    ensures { result ≡ pointwise same_text (comments_of (chars edge.now)) (comments_of (chars wish.now)) }
{
    let mut one = edge;
    let mut other = wish;
    while let Some((comment, after)) = next_comment(one) {
        let Some((wished, behind)) = next_comment(other) else {
            return false;
        };
        if !is_same(comment, wished) {
            return false;
        }
        one = after;
        other = behind;
    }
    match next_comment(other) {
        Some(_) => false,
        None => true,
    }
}
