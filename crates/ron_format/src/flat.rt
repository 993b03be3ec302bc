//! What stands between two words on one line.

use crate::document::{Between, Blanks, Comment};
use crate::layout::LastCommas;
use crate::plan::{Kind, Planned};
use crate::word::{Sort, is_name};
use std::alloc::AllocError;

impl Planned<'_> {
    /// Whether a comma stands in an edge, where the group around has an item a line or not.
    pub fn has_comma(&self, at: &Between, is_broken: bool) -> bool {
        let is_last = at.word == Sort::Closing && at.before.ends_item();
        if !is_last || self.layout.last_commas == LastCommas::Keep {
            return at.edge.separates;
        }
        match self.plan_at(at.index) {
            Some(plan) if !plan.keeps_commas => is_broken,
            _ => at.edge.separates,
        }
    }

    /// Writes what stands in an edge on one line.
    pub fn put_flat(&self, at: &Between, out: &mut String) -> Result<(), AllocError> {
        if !at.edge.holds_comments {
            return out.push_str(self.bare(at));
        }
        let has_comma = self.has_comma(at, false);
        let (before, behind) = self.document.comments(at.index);
        let opens = at.before == Sort::Opening;
        put_spaced(before, opens, out)?;
        if has_comma {
            out.push(',')?;
        }
        let is_begun = has_comma || !before.is_empty();
        put_spaced(behind, opens && !is_begun, out)?;
        out.push_str(match at.word {
            Sort::Closing => "",
            Sort::Colon if !behind.is_empty() || !has_comma => "",
            _ => " ",
        })
    }

    /// What stands in an edge without comments on one line.
    pub fn bare(&self, at: &Between) -> &'static str {
        if !self.has_comma(at, false) {
            return self.joint(at);
        }
        if at.word == Sort::Closing { "," } else { ", " }
    }

    /// The blank in an edge that holds neither a comma nor a comment.
    fn joint(&self, at: &Between) -> &'static str {
        match (at.before, at.word) {
            (Sort::Opening, Sort::Closing) if self.is_parenthesized(at.index) => blank_as_in(at),
            (Sort::Opening, _) | (_, Sort::Closing | Sort::Colon) => "",
            (Sort::Colon, _) => " ",
            (Sort::Solid, Sort::Opening) if self.is_called(at.index) => "",
            (_, Sort::Opening) if self.kind_at(at.index) == Some(Kind::Attribute) => "",
            _ => blank_as_in(at),
        }
    }

    /// Whether `(` stands before a word, and `)` is that.
    fn is_parenthesized(&self, index: usize) -> bool {
        self.document.is_mark(index.saturating_sub(1), b'(') && self.document.is_mark(index, b')')
    }

    /// Whether a name stands before a word, and `(` is that.
    fn is_called(&self, index: usize) -> bool {
        self.document.is_mark(index, b'(') && is_name(self.document.word_before(index))
    }
}

/// A blank where any gap stands in the edge.
fn blank_as_in(at: &Between) -> &'static str {
    if at.edge.blanks == Blanks::Nothing {
        ""
    } else {
        " "
    }
}

/// Writes comments with a blank before each, but before the first where that follows an opening bracket.
fn put_spaced(comments: &[Comment<'_>], opens: bool, out: &mut String) -> Result<(), AllocError> {
    let mut is_first = opens;
    for comment in comments {
        if !is_first {
            out.push(' ')?;
        }
        is_first = false;
        out.push_str(comment.text)?;
    }
    Ok(())
}
