//! The words of a text, one after another.
ghost use Rattle.std.specs.Prelude.{◌≡◌, ◌++◌, chars, IfSome};
ghost use Rattle.ron_lex_text.specs.Stretch.{IsSuffix, IsProperSuffix};
ghost use Rattle.rontool_paths.specs.Stretch.{IsWordIn};

use ron_base::name;
use ron_base::name::is_plain_identifier;
use ron_lex::gap::{opens_gap, skip_gap};
use ron_lex::token::skip_token;
use ron_lex_text::text::{before, split_first};

/// What a bracket is that opens a group.
#[derive(Clone, Copy, PartialEq, Eq)]
pub enum Bracket {
    /// `(`.
    Round,
    /// `[`.
    Square,
    /// `{`.
    Curly,
}

/// What a word is.
#[derive(Clone, Copy, PartialEq, Eq)]
pub enum Sort {
    /// It opens a group.
    Opening(Bracket),
    /// It closes one.
    Closing,
    /// `:`.
    Colon,
    /// `,`.
    Comma,
    /// It is none of these marks: a name, a number, a text.
    Solid,
}

/// A word of a text.
#[derive(Clone, Copy)]
pub struct Word<'t> {
    pub sort: Sort,
    /// The text from the word on.
    pub from: &'t str,
    /// The word as it stands.
    pub text: &'t str,
    /// What follows it.
    pub after: &'t str,
}

/// The next word of a text, where there is one more and it is whole. A mark, which is a bracket, a colon or a comma, is a
/// word by itself; any other goes up to a gap or a mark.
pub fn next_word(text: &str) -> Option<Word<'_>>
    ensures { IfSome result (IsWordIn (chars text.now)) }
{
    let from = skip_gap(text);
    let sort = sort_of(from)?;
    let after = skip_word(from, sort)?;
    Some(Word {
        sort,
        from,
        text: before(from, after),
        after,
    })
}

/// What follows the word that begins here.
fn skip_word(text: &str, sort: Sort) -> Option<&str>
    ensures { IfSome result (λ rest. IsProperSuffix (chars rest.now) (chars text.now)) }
{
    let after = skip_token(text)?;
    if sort == Sort::Solid {
        Some(skip_solids(after))
    } else {
        Some(after)
    }
}

/// What follows the tokens at the start of a text that are neither gaps nor marks.
#[tactic(auto, using(crate::proofs::StretchLemmas::past_on, ron_lex_text::proofs::StretchLemmas::end_whole))]
fn skip_solids(text: &str) -> &str
    ensures { IsSuffix (chars result.now) (chars text.now) }
{
    let mut rest = text;
    'tokens: for _ in 0..u64::MAX {
        let Some(after) = skip_solid(rest) else {
            break;
        };
        rest = after;
    }
    rest
}

/// What follows the token at the start of a text, where it is neither a gap nor a mark.
fn skip_solid(text: &str) -> Option<&str>
    ensures { IfSome result (λ rest. IsProperSuffix (chars rest.now) (chars text.now)) }
{
    if opens_gap(text) || sort_of(text) != Some(Sort::Solid) {
        None
    } else {
        skip_token(text)
    }
}

/// What begins a text that doesn't begin with a gap.
fn sort_of(text: &str) -> Option<Sort> {
    let (first, _) = split_first(text)?;
    Some(match first {
        '(' => Sort::Opening(Bracket::Round),
        '[' => Sort::Opening(Bracket::Square),
        '{' => Sort::Opening(Bracket::Curly),
        ')' | ']' | '}' => Sort::Closing,
        ':' => Sort::Colon,
        ',' => Sort::Comma,
        _ => Sort::Solid,
    })
}

/// Whether a word is a name: a plain or a raw identifier, and nothing else.
pub fn is_name(word: &str) -> bool {
    match word.strip_prefix("r#") {
        Some(name) => name::is_name(name),
        None => is_plain_identifier(word),
    }
}

/// What a name spells: a raw identifier spells what stands behind its `r#`.
pub fn name_of(word: &str) -> &str {
    match word.strip_prefix("r#") {
        Some(name) => name,
        None => word,
    }
}
