//! Names, and how messages show them.

ghost use Rattle.std.specs.Prelude.{◌≡◌, ◌||◌, ◌==◌, Some, chars};
ghost use Rattle.std.specs.List.{list_all};
ghost use Rattle.std.specs.Char.{is_ascii_alphanumeric};
ghost use Rattle.ron_spec_words.specs.Characters.{starts_name, continues_name, in_raw_name};
ghost use Rattle.ron_spec_words.specs.Name.{is_name, is_plain_identifier};
ghost use Rattle.unicode_ident.specs.Ident.{is_xid_start};
ghost use Rattle.ron_base.specs.Name.{name_text};

use crate::escape::Quoted;
use std::fmt;
use unicode_ident::{is_xid_continue, is_xid_start};

/// A name as messages show it.
#[derive(Clone, Copy)]
pub struct Name<'a>(pub &'a str);

impl fmt::Display for Name<'_> {
    ghost output = { λ n. Some (name_text n.0.now) };

    #[tactic(auto, unfolding(crate::specs::Name::name_text))]
    fn fmt<W: fmt::Write>(&self, f: &mut fmt::Formatter<W>) -> fmt::Result {
        let name = self.0;
        if is_plain_identifier(name) {
            write!(f, "`{name}`")
        } else if is_name(name) {
            write!(f, "`r#{name}`")
        } else {
            write!(f, "{}_[invalid identifier]", Quoted(name))
        }
    }
}

/// Whether a name is made as a plain identifier is.
pub fn is_plain_identifier(name: &str) -> bool
    ensures { result ≡ is_plain_identifier (chars name.now) }
{
    let mut rest = name.chars();
    match rest.next() {
        Some(c) => starts_name(c) && all_continue(rest.as_str()),
        None => false,
    }
}

/// Whether some identifier spells a name.
pub fn is_name(name: &str) -> bool
    ensures { result ≡ is_name (chars name.now) }
{
    !name.is_empty() && are_in_raw_name(name)
}

/// Whether a plain identifier may go on with each character of a text.
fn all_continue(text: &str) -> bool
    ensures { result ≡ list_all continues_name (chars text.now) }
{
    is_ascii_word(text) || text.chars().all(continues_name)
}

/// Whether each character of a text may stand in a raw name.
fn are_in_raw_name(text: &str) -> bool
    ensures { result ≡ list_all in_raw_name (chars text.now) }
{
    is_ascii_word(text) || text.chars().all(in_raw_name)
}

/// Whether a text is ASCII letters, digits and `_` alone, as most names are: its bytes say so, and none is decoded.
fn is_ascii_word(text: &str) -> bool
    ensures { result ≡ list_all (λ b. is_ascii_alphanumeric b || (b == 95)) text.now }
{
    text.as_bytes()
        .iter()
        .all(|byte| byte.is_ascii_alphanumeric() | (*byte == b'_'))
}

/// Whether a plain identifier may begin with a character.
#[inline]
pub fn starts_name(c: char) -> bool
    ensures { result ≡ starts_name c }
{
    c == '_' || is_start(c)
}

/// Whether a plain identifier may go on with a character. Of ASCII that is known without Unicode's tables.
#[inline]
pub fn continues_name(c: char) -> bool
    ensures { result ≡ continues_name c }
{
    if c.is_ascii() {
        c.is_ascii_alphanumeric() | (c == '_')
    } else {
        is_xid_continue(c)
    }
}

/// Whether a character is XID_Start. Of ASCII that is known without Unicode's tables.
#[inline]
fn is_start(c: char) -> bool
    ensures { result ≡ is_xid_start c }
{
    if c.is_ascii() {
        c.is_ascii_alphabetic()
    } else {
        is_xid_start(c)
    }
}

/// Whether a character may stand in a raw name.
#[inline]
pub fn in_raw_name(c: char) -> bool
    ensures { result ≡ in_raw_name c }
{
    c == '.' || c == '+' || c == '-' || continues_name(c)
}
