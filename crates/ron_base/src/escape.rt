//! Escaped texts and characters.

ghost use Rattle.std.specs.Prelude.{◌≡◌, Some, encode_utf8_all, chars};
ghost use Rattle.std.specs.Fmt.{WritesOnOk};
ghost use Rattle.ron_base.specs.Escape.{short_escape, does_not_show, is_hidden, stands_as_it_is, escaped_char};
ghost use Rattle.ron_base.specs.Escape.{escaped, quoted, quoted_char};

pub mod bytes;

use std::fmt;
use unicode::properties::GeneralCategory;

/// Which quotation marks take a backslash.
#[derive(Clone, Copy)]
pub enum Quotes {
    Both,
    Double,
    Single,
}

// A character as an escaped text shows it.
#[derive(Clone, Copy)]
struct EscapedChar {
    c: char,
    quotes: Quotes,
}

impl fmt::Display for EscapedChar {
    ghost output = { λ e. Some (encode_utf8_all (escaped_char e.quotes e.c)) };

    fn fmt<W: fmt::Write>(&self, f: &mut fmt::Formatter<W>) -> fmt::Result {
        let c = self.c;
        if let Some(letter) = short_escape(self.quotes, c) {
            write!(f, "\\{letter}")
        } else if is_hidden(c) {
            write!(f, "\\u{{{:x}}}", c as u32)
        } else {
            f.write_char(c)
        }
    }
}

// A text with its characters escaped, without quotation marks around it.
#[derive(Clone, Copy)]
struct Escaped<'a> {
    text: &'a str,
    quotes: Quotes,
}

impl fmt::Display for Escaped<'_> {
    ghost output = { λ e. Some (encode_utf8_all (escaped e.quotes (chars e.text.now))) };

    fn fmt<W: fmt::Write>(&self, f: &mut fmt::Formatter<W>) -> fmt::Result {
        write_escaped(f, self.text, self.quotes)
    }
}

/// A text as messages quote it: escaped between `"`, with `'` as it is.
#[derive(Clone, Copy)]
pub struct Quoted<'a>(pub &'a str);

impl fmt::Display for Quoted<'_> {
    ghost output = { λ q. Some (quoted q.0.now) };

    #[tactic(auto, unfolding(crate::specs::Escape::quoted))]
    fn fmt<W: fmt::Write>(&self, f: &mut fmt::Formatter<W>) -> fmt::Result {
        let text = Escaped {
            text: self.0,
            quotes: Quotes::Double,
        };
        write!(f, "\"{text}\"")
    }
}

/// A character as messages quote it: escaped between `'`, with `"` as it is.
#[derive(Clone, Copy)]
pub struct QuotedChar(pub char);

impl fmt::Display for QuotedChar {
    ghost output = { λ q. Some (quoted_char q.0) };

    #[tactic(auto, unfolding(crate::specs::Escape::quoted_char))]
    fn fmt<W: fmt::Write>(&self, f: &mut fmt::Formatter<W>) -> fmt::Result {
        let c = EscapedChar {
            c: self.0,
            quotes: Quotes::Single,
        };
        write!(f, "'{c}'")
    }
}

fn write_escaped<W: fmt::Write>(
    f: &mut fmt::Formatter<W>,
    text: &str,
    quotes: Quotes,
) -> fmt::Result
    ensures { WritesOnOk W.write_str_gives f.old result (encode_utf8_all (escaped quotes (chars text.now))) f.new }
{
    for c in text.chars() {
        write!(f, "{}", EscapedChar { c, quotes })?;
    }
    Ok(())
}

/// Whether a character of an escaped text stands for itself: it has no short escape, and isn't escaped by its number.
#[tactic(auto, unfolding(crate::specs::Escape::stands_as_it_is))]
pub fn stands_as_it_is(quotes: Quotes, c: char) -> bool
    ensures { result ≡ stands_as_it_is quotes c }
{
    short_escape(quotes, c).is_none() && !is_hidden(c)
}

// The letter after the backslash, for a character that has a short escape.
#[tactic(auto, unfolding(crate::specs::Escape::short_escape))]
fn short_escape(quotes: Quotes, c: char) -> Option<char>
    ensures { result ≡ short_escape quotes c }
{
    match c {
        '\0' => Some('0'),
        '\t' => Some('t'),
        '\r' => Some('r'),
        '\n' => Some('n'),
        '\\' => Some('\\'),
        '\'' => match quotes {
            Quotes::Double => None,
            Quotes::Both | Quotes::Single => Some('\''),
        },
        '"' => match quotes {
            Quotes::Single => None,
            Quotes::Both | Quotes::Double => Some('"'),
        },
        _ => None,
    }
}

// Whether a character is escaped by its number.
#[tactic(auto, unfolding(crate::specs::Escape::is_hidden))]
fn is_hidden(c: char) -> bool
    ensures { result ≡ is_hidden c }
{
    if c.is_ascii() {
        c.is_ascii_control()
    } else {
        does_not_show(GeneralCategory::for_char(c))
    }
}

// Whether the characters of a category do not show by themselves.
fn does_not_show(category: GeneralCategory) -> bool
    ensures { result ≡ does_not_show category }
{
    match category {
        GeneralCategory::Control
        | GeneralCategory::Format
        | GeneralCategory::PrivateUse
        | GeneralCategory::Unassigned
        | GeneralCategory::LineSeparator
        | GeneralCategory::ParagraphSeparator
        | GeneralCategory::SpaceSeparator
        | GeneralCategory::NonspacingMark
        | GeneralCategory::EnclosingMark => true,
        _ => false,
    }
}
