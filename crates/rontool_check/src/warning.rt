//! What a reader takes without a word, but who wrote it may not have meant.
use ron_base::error::Span;
use rontool_paths::word::{Bracket, Sort, Word, next_word};

/// What somebody may not have meant.
#[derive(Clone, Copy, PartialEq, Eq)]
pub enum Warning {
    /// A field or a key stands twice in its group.
    GivenTwice,
    /// A name that other formats have for no value.
    NoNull,
    /// A truth value that is spelled otherwise.
    NoBoolean,
    /// `some(..)` or `none`.
    NoOption,
    /// An extension is announced again, or nothing in the text may be spelled by it.
    NoEffect,
}

/// A warning, and the place of the word that it speaks of.
#[derive(Clone, Copy, PartialEq, Eq)]
pub struct Warned {
    pub span: Span,
    pub warning: Warning,
}

impl Warning {
    /// What is said of it.
    pub fn message(self) -> &'static str {
        match self {
            Warning::GivenTwice => "given twice: readers take the last one, or refuse it",
            Warning::NoNull =>
                "a name to readers: an option without a value is `None`, a unit `()`",
            Warning::NoBoolean => "a name to readers: truth values are `true` and `false`",
            Warning::NoOption => "a name to readers: options are `Some(..)` and `None`",
            Warning::NoEffect =>
                "announced to no effect: nothing here is spelled by it, or it is announced before",
        }
    }

    /// What is to be said of a word by itself. A name before a colon is a field's.
    pub(crate) fn of_word(word: Word<'_>) -> Option<Warning> {
        let next = match next_word(word.after) {
            Some(next) => next.sort,
            None => Sort::Comma,
        };
        match word.text {
            _ if next == Sort::Colon => None,
            "null" | "Null" | "NULL" | "nil" | "undefined" => Some(Warning::NoNull),
            "True" | "False" | "TRUE" | "FALSE" => Some(Warning::NoBoolean),
            "none" => Some(Warning::NoOption),
            "some" if next == Sort::Opening(Bracket::Round) => Some(Warning::NoOption),
            _ => None,
        }
    }
}
