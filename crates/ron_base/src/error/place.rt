//! Places in a text: how they are found and shown.

ghost use Rattle.std.specs.Prelude.{◌≡◌, Some, chars};
ghost use Rattle.ron_spec_words.specs.Position.{line_after, column_after};
ghost use Rattle.ron_base.specs.Place.{position_text, span_text};

use super::{Position, Span};
use std::fmt;

/// The position of the place that a front of a text leads to.
pub fn position_after(front: &str) -> Position
    ensures line { result.line ≡ line_after (chars front.now) }
    ensures col { result.col ≡ column_after (chars front.now) }
{
    let mut line = 1usize;
    let mut col = 1usize;
    for c in front.chars() {
        if c == '\n' {
            line += 1;
            col = 1;
        } else {
            col += 1;
        }
    }
    Position { line, col }
}

impl fmt::Display for Position {
    ghost output = { λ p. Some (position_text p) };

    fn fmt<W: fmt::Write>(&self, f: &mut fmt::Formatter<W>) -> fmt::Result {
        write!(f, "{}:{}", self.line, self.col)
    }
}

impl fmt::Display for Span {
    ghost output = { λ s. Some (span_text s) };

    fn fmt<W: fmt::Write>(&self, f: &mut fmt::Formatter<W>) -> fmt::Result {
        if self.start == self.end {
            write!(f, "{}", self.start)
        } else {
            write!(f, "{}-{}", self.start, self.end)
        }
    }
}
