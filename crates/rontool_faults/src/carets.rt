//! Marks under the characters of a line.
ghost use Rattle.std.specs.Prelude.{◌≡◌, ◌-◌, ◌<◌, [], ◌∷◌, ◌++◌, chars, drop, replicate, OnOk, MatchOption, string_bytes};
ghost use Rattle.rontool_faults.specs.Shown.{under_one, under, or_caret, caret_line};

use crate::shown::columns_of;
use std::alloc::AllocError;

/// A stretch of a line that is marked, and where the line is shown from, counted in characters from zero.
#[derive(Clone, Copy)]
pub(crate) struct Marked {
    pub first: usize,
    pub from: usize,
    pub to: usize,
}

/// Writes blanks up to a stretch of a line, as wide as what is shown before it, and carets under the stretch: one at
/// least. A tab stays a tab.
pub(crate) fn push_carets(out: &mut String, line: &str, marked: Marked) -> Result<(), AllocError>
    ensures { OnOk result (string_bytes out.new ≡
        string_bytes out.old ++ caret_line marked.first marked.from marked.to (chars line.now)) }
{
    let Marked { first, from, to } = marked;
    push_under(out, behind(line, first), from.saturating_sub(first), ' ')?;
    push_marked(out, behind(line, from), to.saturating_sub(from))
}

/// Writes carets as wide as the first characters of a text, and one at least.
#[tactic(auto, using(crate::proofs::CaretLemmas::one_caret))]
fn push_marked(out: &mut String, text: &str, many: usize) -> Result<(), AllocError>
    ensures { OnOk result (string_bytes out.new ≡ string_bytes out.old ++ or_caret (under 94 many (chars text.now))) }
{
    let before = out.len();
    push_under(out, text, many, '^')?;
    if out.len() == before {
        return out.push('^');
    }
    Ok(())
}

/// Writes marks as wide as the first characters of a text.
fn push_under(out: &mut String, text: &str, many: usize, mark: char) -> Result<(), AllocError>
    requires { mark < 128 }
    ensures { OnOk result (string_bytes out.new ≡ string_bytes out.old ++ under mark many (chars text.now)) }
{
    if many == 0 {
        return Ok(());
    }
    if let Some((first, after)) = split_first(text) {
        push_one(out, first, mark)?;
        push_under(out, after, many - 1, mark)?;
    }
    Ok(())
}

/// Writes marks as wide as a character.
fn push_one(out: &mut String, c: char, mark: char) -> Result<(), AllocError>
    requires { mark < 128 }
    ensures { OnOk result (string_bytes out.new ≡ string_bytes out.old ++ under_one mark c) }
{
    if c == '\t' {
        return out.push(if mark == ' ' { '\t' } else { mark });
    }
    push_times(out, mark, columns_of(c))
}

/// Writes a mark so often.
pub(crate) fn push_times(out: &mut String, mark: char, times: usize) -> Result<(), AllocError>
    requires { mark < 128 }
    ensures { OnOk result (string_bytes out.new ≡ string_bytes out.old ++ replicate times mark) }
{
    for i in 0..times {
        out.push(mark)?;
    }
    Ok(())
}

/// What follows the first characters of a text.
fn behind(text: &str, many: usize) -> &str
    ensures { chars result.now ≡ drop many (chars text.now) }
{
    let mut rest = text;
    for i in 0..many {
        match split_first(rest) {
            Some((_, after)) => rest = after,
            None => return rest,
        }
    }
    rest
}

/// The first character of a text, and what follows it.
fn split_first(text: &str) -> Option<(char, &str)>
    ensures { MatchOption result (chars text.now ≡ []) (λ p. chars text.now ≡ p.0 ∷ chars p.1.now) }
{
    let mut characters = text.chars();
    let first = characters.next()?;
    Some((first, characters.as_str()))
}
