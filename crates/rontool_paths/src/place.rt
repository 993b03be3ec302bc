//! Spans of stretches of a text.
use ron_base::error::{Span, position_after};

/// The span of a stretch of a text, told by what stands from it on and by what follows it, with which the text ends.
pub fn span_between(text: &str, from: &str, after: &str) -> Span {
    Span {
        start: position_after(front_of(text, from)),
        end: position_after(front_of(text, after)),
    }
}

/// What stands before `rest` in a text that ends with it.
fn front_of<'a>(text: &'a str, rest: &str) -> &'a str {
    text.get(..text.len().saturating_sub(rest.len()))
        .unwrap_or(text)
}
