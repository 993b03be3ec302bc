//! A value at a path.
ghost use Rattle.std.specs.Prelude.{◌≡◌, chars, IfSome, IfOk, MatchResult};
ghost use Rattle.rontool_paths.specs.Stretch.{IsStretch};

use crate::value::{Value, body_of, group_of, next_item, next_value};
use crate::word::{Bracket, is_name, name_of, next_word};
use ron_lex::token::skip_token;
use ron_lex_text::text::{before, is_ended, strip_char};

/// A step of a path.
#[derive(Clone, Copy)]
pub enum Step<'p> {
    /// To the field of this name.
    Field(&'p str),
    /// To the value of this key, or to the item of this number, counted from zero.
    At(&'p str),
}

/// Why a step leads nowhere.
#[derive(Clone, Copy)]
pub enum Why {
    /// No step begins there: the path is at fault.
    NoStep,
    /// There is no value.
    NoValue,
    /// The value has no items.
    NoGroup,
    /// It has no field of the name.
    NoField,
    /// It has no item of the number.
    NoItem,
    /// It has no such key.
    NoKey,
}

/// Where a path ends that leads nowhere.
#[derive(Clone, Copy)]
pub struct Astray<'t, 'p> {
    /// The last value that it leads to.
    pub at: Value<'t>,
    /// The path from the step on that leads nowhere.
    pub left: &'p str,
    pub why: Why,
}

/// The value at a path in a text whose brackets match. A path is `.`, which leads to the whole value, or steps: a field's
/// name, with a point before it where another step is; and in square brackets a key as the text spells it, or an item's
/// number.
#[tactic(auto, using(crate::proofs::StretchLemmas::stretch_on))]
pub fn find<'t, 'p>(text: &'t str, path: &'p str) -> Result<Value<'t>, Astray<'t, 'p>>
    ensures { MatchResult result (IsStretch (chars text.now)) (λ astray. IsStretch (chars text.now) astray.at) }
{
    let body = body_of(text);
    let Some(whole) = next_value(body) else {
        let at = Value {
            from: body,
            behind: body,
        };
        return Err(Astray {
            at,
            left: path,
            why: Why::NoValue,
        });
    };
    find_in(text, whole, steps_of(path))
}

/// The value at a path in a value of a text.
#[tactic(auto, using(crate::proofs::StretchLemmas::deeper))]
fn find_in<'t, 'p>(
    text: &'t str,
    whole: Value<'t>,
    path: &'p str,
) -> Result<Value<'t>, Astray<'t, 'p>>
    requires { IsStretch (chars text.now) whole }
    ensures { MatchResult result (IsStretch (chars text.now)) (λ astray. IsStretch (chars text.now) astray.at) }
{
    let mut at = whole;
    let mut left = path;
    'steps: for _ in 0..u64::MAX {
        let Some((step, after)) = next_step(left) else {
            break;
        };
        let value = match value_at(at.from, step) {
            Ok(value) => value,
            Err(why) => return Err(Astray { at, left, why }),
        };
        at = value;
        left = after;
    }
    if is_ended(left) {
        return Ok(at);
    }
    let why = Why::NoStep;
    Err(Astray { at, left, why })
}

/// Whether a path is made of steps.
pub fn is_path(path: &str) -> bool {
    let mut left = steps_of(path);
    for _ in 0..u64::MAX {
        match next_step(left) {
            Some((_, after)) => left = after,
            None => break,
        }
    }
    is_ended(left)
}

/// The steps of a path: `.` has none.
fn steps_of(path: &str) -> &str {
    if path == "." { "" } else { path }
}

/// The first step of a path, and those behind it.
fn next_step(path: &str) -> Option<(Step<'_>, &str)> {
    if let Some(inside) = strip_char(path, '[') {
        return step_at(inside);
    }
    let name = match strip_char(path, '.') {
        Some(name) => name,
        None => path,
    };
    let after = skip_token(name)?;
    let word = before(name, after);
    if is_name(word) {
        Some((Step::Field(word), after))
    } else {
        None
    }
}

/// The step whose opening bracket stands before this, and those behind it.
fn step_at(inside: &str) -> Option<(Step<'_>, &str)> {
    let key = next_value(inside)?;
    let end = next_word(key.behind)?;
    if end.text == "]" {
        Some((Step::At(before(key.from, key.behind)), end.after))
    } else {
        None
    }
}

/// The value that a step leads to from a value.
#[tactic(auto, using(crate::proofs::StretchLemmas::stretch_on))]
fn value_at<'t>(text: &'t str, step: Step<'_>) -> Result<Value<'t>, Why>
    ensures { IfOk result (IsStretch (chars text.now)) }
{
    match group_of(text) {
        Some(group) => match value_in(group.inside, group.bracket, step) {
            Some(value) => Ok(value),
            None => Err(why_not(group.bracket, step)),
        },
        None => Err(Why::NoGroup),
    }
}

/// The value that a step leads to in a group.
fn value_in<'t>(inside: &'t str, bracket: Bracket, step: Step<'_>) -> Option<Value<'t>>
    ensures { IfSome result (IsStretch (chars inside.now)) }
{
    match (step, bracket) {
        (Step::Field(name), Bracket::Round) => field(inside, name),
        (Step::Field(_), _) => None,
        (Step::At(key), Bracket::Curly) => keyed(inside, key),
        (Step::At(key), _) => match key.parse::<u64>() {
            Ok(number) => numbered(inside, number),
            Err(_) => None,
        },
    }
}

/// Why a step leads nowhere in a group.
fn why_not(bracket: Bracket, step: Step<'_>) -> Why {
    match (step, bracket) {
        (Step::Field(_), _) => Why::NoField,
        (Step::At(_), Bracket::Curly) => Why::NoKey,
        (Step::At(_), _) => Why::NoItem,
    }
}

/// The value of the first field of this name in a group.
#[tactic(auto, using(crate::proofs::StretchLemmas::item_value_on, crate::proofs::StretchLemmas::item_rest_on, ron_lex_text::proofs::StretchLemmas::end_whole))]
fn field<'t>(inside: &'t str, name: &str) -> Option<Value<'t>>
    ensures { IfSome result (IsStretch (chars inside.now)) }
{
    let mut rest = inside;
    'items: for _ in 0..u64::MAX {
        let item = next_item(rest)?;
        if let Some(key) = item.key {
            if name_of(before(key.from, key.behind)) == name_of(name) {
                return Some(item.value);
            }
        }
        rest = item.rest;
    }
    None
}

/// The value of the first key in a group that is spelled so.
#[tactic(auto, using(crate::proofs::StretchLemmas::item_value_on, crate::proofs::StretchLemmas::item_rest_on, ron_lex_text::proofs::StretchLemmas::end_whole))]
fn keyed<'t>(inside: &'t str, wanted: &str) -> Option<Value<'t>>
    ensures { IfSome result (IsStretch (chars inside.now)) }
{
    let mut rest = inside;
    'items: for _ in 0..u64::MAX {
        let item = next_item(rest)?;
        if let Some(key) = item.key {
            if has_same_words(before(key.from, key.behind), wanted) {
                return Some(item.value);
            }
        }
        rest = item.rest;
    }
    None
}

/// The item of this number in a group, without its key.
#[tactic(auto, using(crate::proofs::StretchLemmas::item_value_on, crate::proofs::StretchLemmas::item_rest_on, ron_lex_text::proofs::StretchLemmas::end_whole))]
fn numbered(inside: &str, number: u64) -> Option<Value<'_>>
    ensures { IfSome result (IsStretch (chars inside.now)) }
{
    let mut rest = inside;
    'items: for _ in 0..number {
        rest = next_item(rest)?.rest;
    }
    let item = next_item(rest)?;
    Some(item.value)
}

/// Whether two texts have the same words.
fn has_same_words(one: &str, other: &str) -> bool {
    let mut one = one;
    let mut other = other;
    for _ in 0..u64::MAX {
        match (next_word(one), next_word(other)) {
            (Some(word), Some(same)) if word.text == same.text => {
                one = word.after;
                other = same.after;
            }
            (None, None) => return true,
            _ => return false,
        }
    }
    false
}
