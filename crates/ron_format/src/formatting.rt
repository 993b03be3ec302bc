//! A text laid out anew.
//!
//! The text is gone over twice: it is cut into a document, of which the layout is planned, and then its tokens are written
//! as they stand, with what is granted between them.
ghost use Rattle.std.specs.Prelude.{◌≡◌, chars, string_bytes, OnOk, IfOk, MatchResult};
ghost use Rattle.ron_format_words.specs.Comments.{said};
ghost use Rattle.ron_format_words.specs.Places.{SameText};
ghost use Rattle.ron_format_words.specs.Written.{Kept, before_edge, place_past};
ghost use Rattle.ron_format.specs.Answer.{TellsSame};
ghost use Rattle.ron_format.specs.Refused.{IsRefused};
ghost use Rattle.ron_format.specs.Whole.{IsWhole};
ghost use Rattle.ron_format.specs.View.{before_view, place_view, PutsGranted, PassesEdge, BeginsWithEdge};

use crate::document::Document;
use crate::grant::{Around, granted};
use crate::laying::Laying;
use crate::layout::Layout;
use crate::place::{Before, Place, Spot};
use crate::plan::Planned;
use crate::refusal::Refusal;
use crate::word::{Sort, TAB_WIDTH, column_behind};
use ron_base::error::{Error, SpannedError, SpannedResult};
use ron_lex::gap::skip_gap;
use ron_lex::token::skip_token;
use ron_lex_text::text::{before, is_ended, is_same, strip_char};
use std::alloc::{AllocError, Global};

/// A text laid out anew: its words are those of the text but for last commas, and each comment stands between the same
/// words. It ends with a line end, unless it is empty. No word's place is looked at, so it need not be read by any schema.
///
/// It is refused where a token is broken, by what the readers report of it, and where a bracket is closed by one of another
/// kind, closes none or is left open; and by `OutOfMemory`. `Document::of` tells also where such a bracket was opened.
///
/// `Point(x:1,y:2,)` is laid out as `Point(x: 1, y: 2)` and a line end.
#[tactic(auto, using(crate::proofs::WholeLemmas::whole_end))]
pub fn format(alloc: Global, text: &str, layout: &Layout) -> SpannedResult<String>
    ensures words { IfOk result (λ u. SameText (chars text.now) (chars (string_bytes u))) }
    ensures comments { IfOk result (λ u. said (chars text.now) ≡ said (chars (string_bytes u))) }
    ensures refused { MatchResult result (λ _. IsWhole (chars text.now)) (IsRefused (chars text.now)) }
{
    let document = match Document::of(alloc, text) {
        Ok(document) => document,
        Err(refusal) => return Err(SpannedError::from(refusal)),
    };
    match lay_out_by(alloc, text, document, *layout) {
        Ok(laid) => Ok(laid),
        Err(_) => Err(SpannedError::from(Refusal::of(text, text, text, Error::OutOfMemory))),
    }
}

/// Whether `format` leaves a text as it is. Refused as that is.
pub fn is_formatted(alloc: Global, text: &str, layout: &Layout) -> SpannedResult<bool>
    ensures value { IfOk result (TellsSame (chars text.now)) }
    ensures refused { MatchResult result (λ _. IsWhole (chars text.now)) (IsRefused (chars text.now)) }
{
    let laid = format(alloc, text, layout)?;
    Ok(is_same(laid.as_str(), text))
}

/// A text laid out by its document.
fn lay_out_by(
    alloc: Global,
    text: &str,
    document: Document<'_>,
    layout: Layout,
) -> Result<String, AllocError>
    ensures { IfOk result (λ u. IsWhole (chars text.now) → Kept (chars text.now) (chars (string_bytes u))) }
{
    let mut planned = Planned::of(alloc, document, layout)?;
    planned.measure(alloc)?;
    lay_out(alloc, text, &planned)
}

/// The same by a plan.
fn lay_out(alloc: Global, text: &str, planned: &Planned<'_>) -> Result<String, AllocError>
    ensures { IfOk result (λ u. IsWhole (chars text.now) → Kept (chars text.now) (chars (string_bytes u))) }
{
    let mut laying = Laying::new(alloc, planned);
    let mut out = String::new(alloc);
    let mut next = pass_edge(&mut out, &mut laying, Spot::start(), text)?;
    while let Some(after) = skip_token(next.rest) {
        let token = before(next.rest, after);
        out.push_str(token)?;
        laying.pass_token(token)?;
        next = pass_edge(&mut out, &mut laying, next.behind(), after)?;
    }
    Ok(out)
}

/// A word or a mark: where it stands, and the text from it on.
#[derive(Clone, Copy)]
struct Next<'t> {
    place: Place,
    rest: &'t str,
}

impl Next<'_> {
    /// What stands before the edge behind its first token.
    fn behind(&self) -> Spot
        ensures before { before_view result.before ≡ before_edge (chars self.now.rest.now) }
        ensures place { place_view result.place ≡ place_past (place_view self.now.place) (chars self.now.rest.now) }
    {
        Spot {
            before: Before::behind(self.rest),
            place: self.place.past(self.rest),
        }
    }
}

/// Puts what is granted in the place of the edge at the start of a text, and answers what follows the edge.
#[tactic(auto, using(crate::proofs::LayLemmas::passes_edge, crate::proofs::LayLemmas::edge_end))]
fn pass_edge<'t>(
    out: &mut String,
    laying: &mut Laying<'_, '_>,
    spot: Spot,
    text: &'t str,
) -> Result<Next<'t>, AllocError>
    ensures { IfOk result (λ next. PassesEdge spot (chars text.now) (chars (string_bytes out.old)) (chars (string_bytes out.new)) next) }
{
    let rest = skip_edge(spot.before, text);
    let edge = before(text, rest);
    put_edge(out, laying, &Around { spot, rest }, edge)?;
    Ok(Next {
        place: spot.place.past_edge(edge),
        rest,
    })
}

/// Puts what is granted in the place of an edge.
fn put_edge(
    out: &mut String,
    laying: &mut Laying<'_, '_>,
    around: &Around<'_>,
    edge: &str,
) -> Result<(), AllocError>
    ensures { OnOk result (PutsGranted (chars (string_bytes out.old)) (chars (string_bytes out.new)) around.now (chars edge.now)) }
{
    // Within a word nothing stands, and nothing is wished for.
    if around.spot.before == Before::Word
        && is_ended(edge)
        && Sort::of(around.rest) == Sort::Solid
    {
        out.push_str(edge)?;
        return Ok(());
    }
    laying.make_wish()?;
    let given = granted(around, edge, laying.wish.as_str());
    out.push_str(given)?;
    let column = column_behind(laying.column, given, TAB_WIDTH);
    laying.column = column;
    Ok(())
}

/// What follows the edge at the start of a text: a gap, and behind an item also a comma and a gap.
fn skip_edge(behind: Before, rest: &str) -> &str
    ensures { BeginsWithEdge (chars rest.now) (chars result.now) }
{
    let end = skip_gap(rest);
    if behind.ends_item() {
        if let Some(second) = strip_char(end, ',') {
            return skip_gap(second);
        }
    }
    end
}
