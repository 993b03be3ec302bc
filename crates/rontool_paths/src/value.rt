//! The values of a text, and the items of groups.
ghost use Rattle.std.specs.Prelude.{◌≡◌, chars, IfSome};
ghost use Rattle.ron_lex_text.specs.Stretch.{IsSuffix};
ghost use Rattle.rontool_paths.specs.Stretch.{IsStretch, IsItemIn, IsGroupIn};

use crate::word::{Bracket, Sort, Word, is_name, next_word};

/// A stretch of a text in which a value stands, with the name before its brackets.
#[derive(Clone, Copy)]
pub struct Value<'t> {
    /// The text from the value on.
    pub from: &'t str,
    /// What follows it.
    pub behind: &'t str,
}

/// An item of a group.
#[derive(Clone, Copy)]
pub struct Item<'t> {
    /// The field's name or the key, where a colon stands.
    pub key: Option<Value<'t>>,
    pub value: Value<'t>,
    /// What follows it and the comma behind it.
    pub rest: &'t str,
}

/// A group of items, with or without a name before it.
#[derive(Clone, Copy)]
pub struct Group<'t> {
    pub bracket: Bracket,
    /// What follows its opening bracket.
    pub inside: &'t str,
}

/// The next value of a text whose brackets match, where one is next.
pub fn next_value(text: &str) -> Option<Value<'_>>
    ensures { IfSome result (IsStretch (chars text.now)) }
{
    let word = next_word(text)?;
    match word.sort {
        Sort::Opening(_) => past_group(word.from, word.after),
        Sort::Solid => past_solid(word),
        Sort::Closing | Sort::Colon | Sort::Comma => None,
    }
}

impl<'t> Value<'t> {
    /// The value that begins with one text, and behind which another follows.
    fn between(from: &'t str, behind: &'t str) -> Self
        requires { IsSuffix (chars behind.now) (chars from.now) }
        ensures { IsStretch (chars from.now) result }
    {
        Value { from, behind }
    }
}

/// The value that begins with this word.
fn past_solid(word: Word<'_>) -> Option<Value<'_>>
    requires { IsSuffix (chars word.after.now) (chars word.from.now) }
    ensures { IfSome result (IsStretch (chars word.entry.from.now)) }
{
    if !is_name(word.text) {
        return Some(Value::between(word.from, word.after));
    }
    match past_mark(word.after, Sort::Opening(Bracket::Round)) {
        Some(inside) => past_group(word.from, inside),
        None => Some(Value::between(word.from, word.after)),
    }
}

/// The value that begins with this text, behind whose opening bracket so much follows.
#[tactic(auto, using(crate::proofs::StretchLemmas::word_on))]
fn past_group<'t>(from: &'t str, inside: &'t str) -> Option<Value<'t>>
    requires { IsSuffix (chars inside.now) (chars from.now) }
    ensures { IfSome result (IsStretch (chars from.now)) }
{
    let mut open = 0u64;
    let mut rest = inside;
    'words: for _ in 0..u64::MAX {
        let word = next_word(rest)?;
        rest = word.after;
        match word.sort {
            Sort::Opening(_) => open = open.saturating_add(1),
            Sort::Closing if open == 0 => return Some(Value::between(from, rest)),
            Sort::Closing => open = open.saturating_sub(1),
            Sort::Colon | Sort::Comma | Sort::Solid => {}
        }
    }
    None
}

/// The next item of a group of which so much is left, where one is next.
pub fn next_item(text: &str) -> Option<Item<'_>>
    ensures { IfSome result (IsItemIn (chars text.now)) }
{
    let first = next_value(text)?;
    match past_mark(first.behind, Sort::Colon) {
        Some(behind) => {
            let value = next_value(behind)?;
            let rest = past_comma(value.behind);
            Some(Item {
                key: Some(first),
                value,
                rest,
            })
        }
        None => {
            let end = past_comma(first.behind);
            Some(Item {
                key: None,
                value: first,
                rest: end,
            })
        }
    }
}

/// What follows the comma that is the next word, or the text where none is.
fn past_comma(text: &str) -> &str
    ensures { IsSuffix (chars result.now) (chars text.now) }
{
    match past_mark(text, Sort::Comma) {
        Some(rest) => rest,
        None => text,
    }
}

/// What follows this mark, where it is the next word.
fn past_mark(text: &str, mark: Sort) -> Option<&str>
    ensures { IfSome result (λ rest. IsSuffix (chars rest.now) (chars text.now)) }
{
    match next_word(text) {
        Some(word) if word.sort == mark => Some(word.after),
        _ => None,
    }
}

/// The group that a value is, with or without a name before it.
pub fn group_of(text: &str) -> Option<Group<'_>>
    ensures { IfSome result (IsGroupIn (chars text.now)) }
{
    let word = next_word(text)?;
    match word.sort {
        Sort::Opening(bracket) => Some(Group {
            bracket,
            inside: word.after,
        }),
        Sort::Solid if is_name(word.text) => match past_mark(
            word.after,
            Sort::Opening(Bracket::Round),
        ) {
            Some(inside) => Some(Group {
                bracket: Bracket::Round,
                inside,
            }),
            None => None,
        },
        _ => None,
    }
}

/// The text behind its attributes.
#[tactic(auto, using(crate::proofs::StretchLemmas::end_on, ron_lex_text::proofs::StretchLemmas::end_whole))]
pub fn body_of(text: &str) -> &str
    ensures { IsSuffix (chars result.now) (chars text.now) }
{
    let mut rest = text;
    'attributes: for _ in 0..u64::MAX {
        let Some(after) = past_attribute(rest) else {
            break;
        };
        rest = after;
    }
    rest
}

/// What follows the attribute at the start of a text.
fn past_attribute(text: &str) -> Option<&str>
    ensures { IfSome result (λ rest. IsSuffix (chars rest.now) (chars text.now)) }
{
    let inside = past_hash(text)?;
    let value = next_value(inside)?;
    Some(value.behind)
}

/// What follows the marks with which an attribute begins, between which a gap may stand.
fn past_hash(text: &str) -> Option<&str>
    ensures { IfSome result (λ rest. IsSuffix (chars rest.now) (chars text.now)) }
{
    let mark = next_word(text)?;
    if mark.text == "#!" {
        return Some(mark.after);
    }
    if mark.text != "#" {
        return None;
    }
    let second = next_word(mark.after)?;
    Some(second.after)
}
