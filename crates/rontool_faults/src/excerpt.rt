//! An excerpt of a text: the line of a place, and carets under it.
use crate::carets::{Marked, push_carets, push_times};
use crate::shown::push_shown;
use crate::window::{Window, window_at};
use ron_base::error::Span;
use std::alloc::{AllocError, Global};

/// Writes the line in which a span begins, and a line with carets under it. Of a span that goes on in other lines the
/// carets stand to the end of the first.
pub(crate) fn push_excerpt(
    alloc: Global,
    out: &mut String,
    text: &str,
    span: Span,
) -> Result<(), AllocError> {
    let line = line_of(text, span.start.line);
    let length = line.chars().count();
    let from = span.start.col.saturating_sub(1);
    let to = if span.end.line == span.start.line {
        span.end.col.saturating_sub(1)
    } else {
        length
    };
    let window = window_at(length, from);
    let number = format!(in alloc; "{}", span.start.line)?;
    out.push_str(number.as_str())?;
    out.push_str(" | ")?;
    push_line(out, line, window, length)?;
    push_times(out, ' ', number.len())?;
    out.push_str(" | ")?;
    if window.first > 0 {
        out.push(' ')?;
    }
    let marked = Marked {
        first: window.first,
        from,
        to: to.min(window.end),
    };
    push_carets(out, line, marked)?;
    out.push('\n')
}

/// The line of a text with this number, without its end.
pub(crate) fn line_of(text: &str, number: usize) -> &str {
    let line = match text.split('\n').nth(number.saturating_sub(1)) {
        Some(line) => line,
        None => "",
    };
    match line.strip_suffix('\r') {
        Some(line) => line,
        None => line,
    }
}

/// Writes the part of a line that is shown, with `…` where it was cut.
fn push_line(
    out: &mut String,
    line: &str,
    window: Window,
    length: usize,
) -> Result<(), AllocError> {
    if window.first > 0 {
        out.push('…')?;
    }
    let many = window.end.saturating_sub(window.first);
    for c in line.chars().skip(window.first).take(many) {
        push_shown(out, c)?;
    }
    if window.end < length {
        out.push('…')?;
    }
    out.push('\n')
}
