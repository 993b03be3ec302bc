//! The brackets of a text that are open.
ghost use Rattle.std.specs.Prelude.{◌≡◌, [], Some, chars, MatchResult, MatchOption};
ghost use Rattle.ron_format.specs.Fault.{innermost, IsFault};
ghost use Rattle.ron_format.specs.Whole.{next_open, next_behind, closed_by, closes, is_pair, open_view};
ghost use Rattle.ron_spec_words.specs.Scan.{is_opening, is_closing};

use crate::refusal::BracketFault;
use ron_lex_text::text::split_first;
use std::alloc::Global;

/// A bracket that is open: its group, and the text from it on.
#[derive(Clone, Copy)]
struct Opened<'a> {
    group: usize,
    rest: &'a str,
}

/// The brackets that are open, the innermost last.
#[derive(Drop)]
pub struct Brackets<'a> {
    open: Vec<Opened<'a>>,
}

impl<'a> Brackets<'a> {
    /// None is open.
    pub fn new(alloc: Global) -> Self
        ensures { open_view result ≡ [] }
    {
        Brackets {
            open: Vec::new(alloc),
        }
    }

    /// Goes on over the token at `rest`, where so many groups stand before it. The group is answered that it opens or
    /// closes; `usize::MAX` where it does neither.
    pub fn pass(&mut self, rest: &'a str, groups: usize) -> Result<usize, BracketFault<'a>>
        ensures { MatchResult result
            (λ _. next_open (open_view self.old) (chars rest.now) ≡ Some (open_view self.new))
            (IsFault (open_view self.old) (next_open (open_view self.old) (chars rest.now))) }
    {
        match split_first(rest) {
            Some((first, _)) => self.pass_first(first, rest, groups),
            None => Ok(usize::MAX),
        }
    }

    /// The same for a token that begins so.
    fn pass_first(
        &mut self,
        first: char,
        rest: &'a str,
        groups: usize,
    ) -> Result<usize, BracketFault<'a>>
        ensures { MatchResult result
            (λ _. next_behind (open_view self.old) first (chars rest.now) ≡ Some (open_view self.new))
            (IsFault (open_view self.old) (next_behind (open_view self.old) first (chars rest.now))) }
    {
        if is_opening(first) {
            self.open.push(Opened {
                group: groups,
                rest,
            })?;
            return Ok(groups);
        }
        if is_closing(first) {
            return self.close(first);
        }
        Ok(usize::MAX)
    }

    /// The same for a closing bracket.
    fn close(&mut self, bracket: char) -> Result<usize, BracketFault<'a>>
        ensures { MatchResult result
            (λ _. closed_by bracket (open_view self.old) ≡ Some (open_view self.new))
            (IsFault (open_view self.old) (closed_by bracket (open_view self.old))) }
    {
        let Some(opened) = self.open.pop() else {
            return Err(BracketFault::ClosesNone);
        };
        if closes(opened.rest, bracket) {
            Ok(opened.group)
        } else {
            Err(BracketFault::NotClosed(opened.rest))
        }
    }

    /// Takes the innermost bracket that is open away: the text from it on.
    pub fn take_innermost(&mut self) -> Option<&'a str>
        ensures { MatchOption result (open_view self.old ≡ []) (λ bracket. innermost (open_view self.old) ≡ Some (chars bracket.now)) }
    {
        match self.open.pop() {
            Some(opened) => Some(opened.rest),
            None => None,
        }
    }
}

/// Whether a bracket closes the one with which a text begins.
fn closes(opening: &str, closing: char) -> bool
    ensures { result ≡ closes (chars opening.now) closing }
{
    match split_first(opening) {
        Some((bracket, _)) => is_pair(bracket, closing),
        None => false,
    }
}

/// Whether the second bracket closes what the first opens.
fn is_pair(opening: char, closing: char) -> bool
    ensures { result ≡ is_pair opening closing }
{
    match opening {
        '(' => closing == ')',
        '[' => closing == ']',
        _ => closing == '}',
    }
}

/// `(`, `[` or `{`.
fn is_opening(character: char) -> bool
    ensures { result ≡ is_opening character }
{
    matches!(character, '(' | '[' | '{')
}

/// `)`, `]` or `}`.
pub fn is_closing(character: char) -> bool
    ensures { result ≡ is_closing character }
{
    matches!(character, ')' | ']' | '}')
}
