//! A text as JSON, or why it has none.
ghost use Rattle.std.specs.Prelude.{◌≡◌, true, string_bytes, IfOk};
ghost use Rattle.rontool_json.specs.Json.{IsJson};

use crate::walk::{Stop, Walk};
use ron_base::error::Span;
use rontool_paths::place::span_between;
use rontool_paths::value::body_of;
use rontool_paths::word::next_word;
use serde_json::Value;
use serde_json::error::Category;
use std::alloc::{AllocError, Global};

/// Why a word has no like in JSON.
#[derive(Clone, Copy, PartialEq, Eq)]
pub enum Why {
    /// A float is infinite or no number.
    NoNumber,
    /// An integer that most readers of JSON don't keep.
    TooLarge,
    /// A key that is no text.
    NoTextKey,
    /// Several values in one `Some`.
    SeveralInSome,
    /// A word that is no value.
    NoValue,
    /// A reader of JSON doesn't take what results.
    Unread,
}

/// A stretch of a text that has no like in JSON.
#[derive(Clone, Copy, PartialEq, Eq)]
pub struct Unfit {
    pub span: Span,
    pub why: Why,
}

/// Why a text isn't told as JSON.
#[derive(Clone, Copy, PartialEq, Eq)]
pub enum Refusal {
    /// An allocation failed.
    OutOfMemory,
    /// A stretch of it has no like in JSON.
    Unfit(Unfit),
}

impl From<AllocError> for Refusal {
    fn from(_: AllocError) -> Self {
        Refusal::OutOfMemory
    }
}

impl Why {
    /// What is said of it.
    pub fn message(self) -> &'static str {
        match self {
            Why::NoNumber => "JSON has no such number",
            Why::TooLarge =>
                "readers of JSON don't keep an integer past 2^53: `--large-as-text` writes it as a text",
            Why::NoTextKey => "a key of JSON is a text",
            Why::SeveralInSome => "a `Some` holds one value",
            Why::NoValue => "this is no value",
            Why::Unread =>
                "readers of JSON don't take what this becomes: it is too deep, or holds a number too large",
        }
    }
}

/// The value of a text of the grammar as JSON: unit and `None` are `null`, what a `Some` holds stands alone, a name by itself
/// is a text, and one before brackets is left out. Bytes are a list of numbers, floats keep their digits. Integers past 2^53
/// are refused, or written as texts where that is asked for.
pub fn to_json(alloc: Global, text: &str, large_as_text: bool) -> Result<String, Refusal>
    ensures { IfOk result (λ json. IsJson (string_bytes json)) }
{
    let body = body_of(text);
    let mut walk = Walk::new(alloc, large_as_text);
    let mut rest = body;
    for _ in 0..u64::MAX {
        let Some(word) = next_word(rest) else {
            break;
        };
        match walk.pass(word) {
            Ok(()) => rest = word.after,
            Err(Stop::OutOfMemory) => return Err(Refusal::OutOfMemory),
            Err(Stop::At(why)) => return Err(misfit(text, word.from, word.after, why)),
        }
    }
    let json = walk.finish();
    if reads(alloc, json.as_str())? {
        Ok(json)
    } else {
        Err(misfit(text, body, rest, Why::Unread))
    }
}

/// Whether a text is one of JSON that readers take.
fn reads(alloc: Global, text: &str) -> Result<bool, AllocError>
    ensures { IfOk result (λ is. is ≡ true → IsJson text.now) }
{
    match Value::from_str(alloc, text) {
        Ok(_) => Ok(true),
        Err(error) if error.classify() == Category::Memory => Err(AllocError),
        Err(_) => Ok(false),
    }
}

/// Tells that a stretch of a text has no like in JSON.
fn misfit(text: &str, from: &str, after: &str, why: Why) -> Refusal {
    let span = span_between(text, from, after);
    Refusal::Unfit(Unfit { span, why })
}
