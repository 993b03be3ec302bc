//! What the layout wishes for an edge. Nothing is promised of it: another place sees to it that it may stand there.

use crate::document::{Between, Blanks, Comment, Touch};
use crate::laying::Laying;
use crate::plan::Kind;
use crate::word::{Sort, characters_in};
use std::alloc::AllocError;

/// An edge, and what the layout makes of it.
#[derive(Clone, Copy)]
struct Place {
    at: Between,
    /// Whether a line of its own begins behind it, as that of an item or of the closing bracket.
    is_item: bool,
    /// Whether a comma stands in it.
    has_comma: bool,
    /// How many levels a line is indented that begins in it.
    depth: usize,
}

impl Place {
    /// How many levels the line is indented that begins behind the edge.
    fn depth_behind(&self) -> usize {
        if self.is_item && self.at.word == Sort::Closing {
            self.depth.saturating_sub(1)
        } else {
            self.depth
        }
    }
}

impl Laying<'_, '_> {
    /// Makes the wish for the next edge.
    pub fn make_wish(&mut self) -> Result<(), AllocError> {
        let index = self.edges;
        self.edges = index.saturating_add(1);
        self.wish.clear();
        let planned = self.planned;
        let at = planned.document.between(index);
        if self.is_outermost(&at) {
            return self.wish_outermost(&at);
        }
        let place = self.place(at);
        if at.edge.touch == Touch::Beside {
            return self.wish_beside(place);
        }
        if !place.is_item {
            return planned.put_flat(&at, &mut self.wish);
        }
        if self.stays_in_row(place) {
            return self.wish.push_str(if place.has_comma { ", " } else { " " });
        }
        self.wish_break(place)
    }

    /// Whether the edge stands at an end of the text, or behind an attribute.
    fn is_outermost(&self, at: &Between) -> bool {
        if at.index == 0 || at.word == Sort::End {
            return true;
        }
        self.open.is_empty() && self.planned.ends_attribute(at)
    }

    /// What is made of an edge inside.
    fn place(&self, at: Between) -> Place {
        let ends = at.before == Sort::Opening || at.word == Sort::Closing || at.edge.separates;
        let (is_item, has_items, depth) = match self.innermost() {
            Some(group) => match group.kind {
                Kind::Empty => (at.edge.touch == Touch::Beside, false, group.depth),
                Kind::Plain | Kind::Row => (group.is_broken && ends, group.is_broken, group.depth),
                Kind::Wrapper | Kind::Attribute => (false, false, group.depth),
            },
            None => (false, false, 0),
        };
        Place {
            at,
            is_item,
            has_comma: self.planned.has_comma(&at, has_items),
            depth: depth.saturating_add(usize::from(!is_item)),
        }
    }

    /// Whether the next item of a row stays on the line: the author had it there, and it fits.
    fn stays_in_row(&self, place: Place) -> bool {
        let is_row = match self.innermost() {
            Some(group) => group.kind == Kind::Row,
            None => false,
        };
        let at = place.at;
        is_row
            && at.before != Sort::Opening
            && at.word != Sort::Closing
            && !at.edge.holds_comments
            && at.edge.blanks != Blanks::OverLines
            && self.fits_in_row(place)
    }

    /// Whether the next item of a row fits on the line, with a comma behind it.
    fn fits_in_row(&self, place: Place) -> bool {
        let width = characters_in(self.planned.document.word(place.at.index)).saturating_add(2);
        let end = self
            .column
            .saturating_add(width)
            .saturating_add(usize::from(place.has_comma));
        end <= self.planned.layout.width
    }

    /// The wish for an edge in which comments are beside line ends.
    fn wish_beside(&mut self, place: Place) -> Result<(), AllocError> {
        let planned = self.planned;
        let (before, behind) = planned.document.comments(place.at.index);
        let edge = place.at.edge;
        if edge.separates {
            self.put_before(before)?;
        }
        let comments = if edge.separates { behind } else { before };
        if place.has_comma {
            self.wish.push(',')?;
        }
        let is_broken = self.put_over_lines(comments, place)?;
        let is_open = match comments.last() {
            Some(comment) => comment.is_line,
            None => false,
        };
        let closes = place.at.word == Sort::Closing;
        if is_open || edge.lines > 0 || (place.is_item && (closes || !is_broken)) {
            return self.end_line(place.depth_behind(), edge.lines > 1 && !closes);
        }
        if place.at.word != Sort::Colon && !closes {
            self.wish.push(' ')?;
        }
        Ok(())
    }

    /// Wishes for comments on the line, each behind a blank.
    fn put_before(&mut self, comments: &[Comment<'_>]) -> Result<(), AllocError> {
        for comment in comments {
            self.wish.push(' ')?;
            self.wish.push_str(comment.text)?;
        }
        Ok(())
    }

    /// Wishes for comments on the lines that they are on, and answers whether a line ends before one.
    fn put_over_lines(
        &mut self,
        comments: &[Comment<'_>],
        place: Place,
    ) -> Result<bool, AllocError> {
        let mut is_open = false;
        let mut is_broken = false;
        let mut is_first = place.at.before == Sort::Opening;
        for comment in comments {
            if comment.lines > 0 || is_open {
                self.end_line(place.depth, comment.lines > 1 && !is_first)?;
                is_broken = true;
            } else {
                self.wish.push(' ')?;
            }
            self.wish.push_str(comment.text)?;
            is_open = comment.is_line;
            is_first = false;
        }
        Ok(is_broken)
    }

    /// The wish for an edge in which a line ends, and no comment is beside a line end.
    fn wish_break(&mut self, place: Place) -> Result<(), AllocError> {
        let planned = self.planned;
        let at = place.at;
        let (before, behind) = planned.document.comments(at.index);
        if at.before == Sort::Opening {
            self.end_line(place.depth, false)?;
            return self.put_behind(before, at.word);
        }
        self.put_before(before)?;
        if place.has_comma {
            self.wish.push(',')?;
        }
        if at.word == Sort::Closing {
            self.put_before(behind)?;
            return self.end_line(place.depth_behind(), false);
        }
        self.end_line(place.depth, at.edge.lines > 1)?;
        self.put_behind(behind, at.word)
    }

    /// Wishes for comments at the beginning of a line, each before a blank, but for one directly before a colon.
    fn put_behind(&mut self, comments: &[Comment<'_>], word: Sort) -> Result<(), AllocError> {
        let mut is_first = true;
        for comment in comments {
            if !is_first {
                self.wish.push(' ')?;
            }
            self.wish.push_str(comment.text)?;
            is_first = false;
        }
        if !is_first && word != Sort::Colon {
            self.wish.push(' ')?;
        }
        Ok(())
    }

    /// The wish for an edge outside all groups that ends lines: comments stay on the lines that they are on.
    fn wish_outermost(&mut self, at: &Between) -> Result<(), AllocError> {
        let planned = self.planned;
        let (before, behind) = planned.document.comments(at.index);
        let edge = at.edge;
        if edge.separates {
            self.wish.push(',')?;
        }
        let mut tail = Tail {
            is_written: at.index > 0,
            is_open: false,
            is_broken: false,
        };
        self.put_outermost(before, &mut tail)?;
        self.put_outermost(behind, &mut tail)?;
        if !tail.is_written {
            return Ok(());
        }
        if at.word == Sort::End {
            return self.wish.push_str(self.new_line);
        }
        let stays = if at.index == 0 {
            !tail.is_open && edge.lines == 0
        } else {
            tail.is_broken && !tail.is_open && edge.lines == 0
        };
        if stays {
            return Ok(self.wish.push(' ')?);
        }
        self.end_line(0, edge.lines > 1)
    }

    /// Wishes for comments outside all groups.
    fn put_outermost(
        &mut self,
        comments: &[Comment<'_>],
        tail: &mut Tail,
    ) -> Result<(), AllocError> {
        for comment in comments {
            if tail.is_written && (comment.lines > 0 || tail.is_open) {
                self.end_line(0, comment.lines > 1)?;
            } else if tail.is_written {
                self.wish.push(' ')?;
            }
            self.wish.push_str(comment.text)?;
            tail.is_written = true;
            tail.is_open = comment.is_line;
            tail.is_broken = tail.is_broken || comment.lines > 0;
        }
        Ok(())
    }
}

/// What stands at the end of what is wished for so far.
#[derive(Clone, Copy)]
struct Tail {
    /// Whether anything does.
    is_written: bool,
    /// Whether a line comment does.
    is_open: bool,
    /// Whether a line end stood before a comment.
    is_broken: bool,
}
