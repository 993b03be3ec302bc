//! An edge while the text is cut.

use crate::document::{Blanks, Comment, Comments, Edge, Touch};
use crate::gap::trim_blanks;
use crate::word::spans_lines;

/// What was found of an edge so far.
#[derive(Clone, Copy)]
pub struct Finding {
    edge: Edge,
    comments: Comments,
    /// Whether a comment stands in it, on this side of the separator.
    has_comment: bool,
}

impl Finding {
    /// Nothing yet, behind so many comments.
    pub fn new(comments: usize) -> Self {
        Finding {
            edge: Edge::empty(),
            comments: Comments::none_behind(comments),
            has_comment: false,
        }
    }

    /// The edge as it was found.
    pub fn edge(&self) -> Edge {
        self.edge
    }

    /// Its comments as they were found.
    pub fn comments(&self) -> Comments {
        self.comments
    }

    /// Whether a comma separates already.
    pub fn separates(&self) -> bool {
        self.edge.separates
    }

    /// Whether nothing stands in it yet.
    pub fn is_empty(&self) -> bool {
        !self.edge.separates && self.edge.blanks == Blanks::Nothing
    }

    /// A gap begins.
    pub fn begin_gap(&mut self) {
        if self.edge.blanks == Blanks::Nothing {
            self.edge.blanks = Blanks::OnOneLine;
        }
    }

    /// A line ends between comments.
    pub fn end_line(&mut self) {
        self.edge.blanks = Blanks::OverLines;
        self.edge.lines = self.edge.lines.saturating_add(1);
        if self.has_comment {
            self.edge.touch = Touch::Beside;
        }
    }

    /// A comment as it stands. It is answered as it is held.
    pub fn comment<'a>(&mut self, text: &'a str) -> Comment<'a> {
        let is_line = text.as_bytes().starts_with(b"//");
        let comment = Comment {
            text: if is_line { trim_blanks(text) } else { text },
            is_line,
            lines: self.edge.lines,
        };
        if is_line {
            self.edge.blanks = Blanks::OverLines;
        }
        self.edge.touch = self.touch_behind(comment);
        self.edge.lines = u8::from(is_line);
        self.edge.holds_comments = true;
        self.comments.end = self.comments.end.saturating_add(1);
        if !self.edge.separates {
            self.comments.split = self.comments.end;
        }
        self.has_comment = true;
        comment
    }

    /// How the comments stand to line ends, this one too.
    fn touch_behind(&self, comment: Comment<'_>) -> Touch {
        if comment.is_line || comment.lines > 0 {
            return Touch::Beside;
        }
        if self.edge.touch == Touch::Apart && spans_lines(comment.text) {
            return Touch::Spans;
        }
        self.edge.touch
    }

    /// A comma separates. Comments before it that are beside a line end are held to stand behind it.
    pub fn separate(&mut self) {
        self.edge.separates = true;
        self.has_comment = false;
        if self.edge.touch == Touch::Beside {
            self.comments.split = self.comments.first;
        } else {
            self.edge.lines = 0;
        }
    }
}
