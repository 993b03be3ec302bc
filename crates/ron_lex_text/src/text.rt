//! A text by its characters. Only this module and `search` look at bytes: all else takes a text and answers what
//! follows.
// A name is compared by its characters. `is_same` compares bytes, and its contract speaks of characters, as the
// grammar does.

ghost use Rattle.std.specs.Prelude.{◌≡◌, ◌+◌, ◌==◌, ◌<◌, ◌≤◌, [], ◌∷◌, ◌++◌, ◌&&◌, true, false, not};
ghost use Rattle.std.specs.Prelude.{nat_lt, length, chars, MatchOption, IfSome, MatchResult, OnOk, IfErr};
ghost use Rattle.ron_spec_words.specs.Characters.{colon};
ghost use Rattle.ron_spec_words.specs.Runs.{after_run, begins_with, same_text, is_at};
ghost use Rattle.ron_spec_words.specs.Reader.{run, got, failed, bad};
ghost use Rattle.ron_lex_text.specs.Stretch.{IsSuffix, in_class, is_ended, is_space, opens_with, stands_called, parting};
ghost use Rattle.ron_lex_text.specs.declared.text.Class.TheVariants.{Blank, NameContinue};

use ron_base::name::{continues_name, in_raw_name, starts_name};

/// The first character of a text, and what follows it.
#[inline]
pub fn split_first(text: &str) -> Option<(char, &str)>
    ensures chars { MatchOption result (chars text.now ≡ []) (λ p. chars text.now ≡ p.0 ∷ chars p.1.now) }
    ensures shorter { IfSome result (λ p. length p.1.now < length text.now) }
{
    let mut characters = text.chars();
    let first = characters.next()?;
    Some((first, characters.as_str()))
}

/// Whether a text has no character.
#[inline]
pub fn is_ended(text: &str) -> bool
    ensures { result ≡ is_ended (chars text.now) }
{
    match split_first(text) {
        Some(_) => false,
        None => true,
    }
}

/// What stands before `rest` in a text that ends with it.
#[inline]
pub fn before<'a>(text: &'a str, rest: &str) -> &'a str
    requires { IsSuffix (chars rest.now) (chars text.now) }
    ensures { chars text.now ≡ chars result.now ++ chars rest.now }
{
    &text[..text.len() - rest.len()]
}

/// Whether a gap and what follows it, with which a text ends, are all of it.
pub fn is_all(text: &str, gap: &str, rest: &str) -> bool
    requires { IsSuffix (chars gap.now ++ chars rest.now) (chars text.now) }
    ensures { result ≡ (length (chars gap.now) + length (chars rest.now) == length (chars text.now)) }
{
    text.len() - rest.len() == gap.len()
}

/// Whether a text begins with a word.
#[inline]
pub fn begins_with(text: &str, word: &str) -> bool
    ensures { result ≡ begins_with (chars word.now) (chars text.now) }
{
    text.as_bytes().starts_with(word.as_bytes())
}

/// What follows these characters at the start of a text.
#[inline]
pub fn strip_text<'a>(text: &'a str, front: &str) -> Option<&'a str>
    ensures { MatchOption result (begins_with (chars front.now) (chars text.now) ≡ false)
        (λ rest. chars text.now ≡ chars front.now ++ chars rest.now) }
{
    if begins_with(text, front) {
        Some(behind(text, front))
    } else {
        None
    }
}

/// What follows these characters, with which a text begins.
#[inline]
pub fn behind<'a>(text: &'a str, front: &str) -> &'a str
    requires { begins_with (chars front.now) (chars text.now) ≡ true }
    ensures { chars text.now ≡ chars front.now ++ chars result.now }
{
    &text[front.len()..]
}

/// The end of a text that is made of these two.
pub fn end_of<'a>(text: &'a str, front: &str, rest: &str) -> &'a str
    requires { IsSuffix (chars front.now ++ chars rest.now) (chars text.now) }
    ensures { chars result.now ≡ chars front.now ++ chars rest.now }
{
    behind(text, before(before(text, rest), front))
}

/// What follows the character at the start of a text.
#[inline]
pub fn strip_char(text: &str, character: char) -> Option<&str>
    ensures { MatchOption result (is_at character (chars text.now) ≡ false)
        (λ rest. chars text.now ≡ character ∷ chars rest.now) }
{
    strip_mark(text, character)
}

/// The same, for loops: what follows is shorter.
#[inline]
pub fn strip_mark(text: &str, mark: char) -> Option<&str>
    ensures chars { MatchOption result (is_at mark (chars text.now) ≡ false)
        (λ rest. chars text.now ≡ mark ∷ chars rest.now) }
    ensures shorter { IfSome result (λ rest. length rest.now < length text.now) }
{
    match split_first(text) {
        Some((first, rest)) if first == mark => Some(rest),
        _ => None,
    }
}

/// Whether this character stands at the start of a text.
#[inline]
pub fn is_at(text: &str, character: char) -> bool
    ensures { result ≡ is_at character (chars text.now) }
{
    strip_char(text, character).is_some()
}

/// The classes of characters that the words of a text are made of.
#[derive(Clone, Copy)]
pub enum Class {
    /// One of the eleven blanks.
    Blank,
    /// White space, as std's `trim` has it.
    White,
    /// Any character but LF.
    Line,
    /// What a plain identifier begins with: `_` or XID_Start.
    NameStart,
    /// What a plain identifier goes on with: XID_Continue.
    NameContinue,
    /// `.`, `+` or `-`, which a raw name may hold and a plain one may not.
    NameMark,
    /// What a raw name is made of: `.`, `+`, `-` or XID_Continue.
    RawName,
    /// A hexadecimal digit.
    HexDigit,
    /// A hexadecimal digit or `_`.
    HexDigits,
    /// `#`, of which the ends of a raw string are made.
    Hash,
    /// Any character but `"`.
    Unquoted,
    /// Any character but `"` and a backslash.
    Plain,
    /// Any character but `*` and `/`.
    Comment,
    /// A space, tab, LF or CR, which a continuation drops.
    Continuation,
}

impl Class {
    /// Whether the character is of the class.
    #[inline(always)]
    pub fn contains(self, character: char) -> bool
        ensures { result ≡ in_class self character }
    {
        match self {
            Class::Blank => matches!(
                character,
                '\t'..='\r' | ' ' | '\u{85}' | '\u{200e}' | '\u{200f}' | '\u{2028}' | '\u{2029}'
            ),
            Class::White => character.is_whitespace(),
            Class::Line => character != '\n',
            Class::NameStart => starts_name(character),
            Class::NameContinue => continues_name(character),
            Class::NameMark => matches!(character, '.' | '+' | '-'),
            Class::RawName => in_raw_name(character),
            Class::HexDigit => character.is_ascii_hexdigit(),
            Class::HexDigits => character.is_ascii_hexdigit() | (character == '_'),
            Class::Hash => character == '#',
            Class::Unquoted => character != '"',
            Class::Plain => !matches!(character, '"' | '\\'),
            Class::Comment => !matches!(character, '*' | '/'),
            Class::Continuation => matches!(character, ' ' | '\t' | '\n' | '\r'),
        }
    }
}

/// Whether a character of the class stands at the start of a text.
#[inline]
pub fn is_at_class(text: &str, class: Class) -> bool
    ensures { result ≡ opens_with class (chars text.now) }
{
    match split_first(text) {
        Some((first, _)) => class.contains(first),
        None => false,
    }
}

/// What follows the longest run of characters of the class.
#[inline(always)]
pub fn skip_run(text: &str, class: Class) -> &str
    ensures shorter { length result.now ≤ length text.now }
    ensures value { chars result.now ≡ after_run (in_class class) (chars text.now) }
{
    let mut rest = text;
    while let Some((first, after)) = split_first(rest) {
        if !class.contains(first) {
            return rest;
        }
        rest = after;
    }
    rest
}

/// What follows the longest run of blanks. Most are spaces, which are gone over by bytes, and by fours where they stand
/// behind another blank, as where a line is indented.
#[inline]
pub fn skip_blanks(text: &str) -> &str
    ensures shorter { length result.now ≤ length text.now }
    ensures value { chars result.now ≡ after_run (in_class Blank) (chars text.now) }
{
    let mut rest = skip_spaces(text);
    while let Some((first, after)) = split_first(rest) {
        if !is_other_blank(first) {
            return rest;
        }
        rest = skip_spaces(skip_fours(after));
    }
    rest
}

/// The bytes of four spaces as a number.
const FOUR_SPACES: u32 = 0x2020_2020;

/// What follows as many groups of four spaces as stand at the start of a text.
#[inline]
fn skip_fours(text: &str) -> &str
    ensures shorter { length result.now ≤ length text.now }
    ensures value { after_run is_space (chars result.now) ≡ after_run is_space (chars text.now) }
{
    let mut rest = text;
    while let Some(four) = rest.as_bytes().first_chunk::<4>() {
        if u32::from_ne_bytes(*four) != FOUR_SPACES {
            return rest;
        }
        rest = &rest[4..];
    }
    rest
}

/// What follows the longest run of spaces.
#[inline]
fn skip_spaces(text: &str) -> &str
    ensures shorter { length result.now ≤ length text.now }
    ensures value { chars result.now ≡ after_run is_space (chars text.now) }
{
    let bytes = text.as_bytes();
    let mut place = 0;
    while place < bytes.len() {
        if bytes[place] != b' ' {
            return &text[place..];
        }
        place += 1;
    }
    ""
}

/// Whether the character is a blank, and no space.
#[inline]
fn is_other_blank(character: char) -> bool
    ensures { result ≡ (not (is_space character) && in_class Blank character) }
{
    if character.is_ascii() {
        matches!(character, '\t'..='\r')
    } else {
        Class::Blank.contains(character)
    }
}

/// What follows the longest run of characters with which a plain name goes on. Most are of ASCII, and are gone over by
/// bytes; one of ASCII that ends the name is known by its byte too.
#[inline]
pub fn skip_name(text: &str) -> &str
    ensures shorter { length result.now ≤ length text.now }
    ensures value { chars result.now ≡ after_run (in_class NameContinue) (chars text.now) }
{
    let bytes = text.as_bytes();
    let mut place = 0;
    while place < bytes.len() {
        let byte = bytes[place];
        if !is_name_byte(byte) {
            let rest = &text[place..];
            if byte.is_ascii() {
                return rest;
            }
            return skip_run(rest, Class::NameContinue);
        }
        place += 1;
    }
    ""
}

/// The bytes that a name goes on with, each at its own place, and a comma at every other place.
static NAME_BYTES: [u8; 256] = *b"\
    ,,,,,,,,,,,,,,,,,,,,,,,,,,,,,,,,\
    ,,,,,,,,,,,,,,,,0123456789,,,,,,\
    ,ABCDEFGHIJKLMNOPQRSTUVWXYZ,,,,_\
    ,abcdefghijklmnopqrstuvwxyz,,,,,\
    ,,,,,,,,,,,,,,,,,,,,,,,,,,,,,,,,\
    ,,,,,,,,,,,,,,,,,,,,,,,,,,,,,,,,\
    ,,,,,,,,,,,,,,,,,,,,,,,,,,,,,,,,\
    ,,,,,,,,,,,,,,,,,,,,,,,,,,,,,,,,";

/// Whether the byte is such a character by itself.
#[inline]
fn is_name_byte(byte: u8) -> bool
    ensures { result ≡ (nat_lt byte 128 && in_class NameContinue byte) }
{
    NAME_BYTES[usize::from(byte)] != b','
}

/// What follows the longest run of characters of the class, the quicker way where these are a name's.
#[inline(always)]
fn skip_class(text: &str, class: Class) -> &str
    ensures { chars result.now ≡ after_run (in_class class) (chars text.now) }
{
    match class {
        Class::NameContinue => skip_name(text),
        _ => skip_run(text, class),
    }
}

/// A character of the class `first` with the longest run of the class `more` behind it, and what follows them.
#[inline(always)]
pub fn split_word(text: &str, first: Class, more: Class) -> Option<(&str, &str)>
    ensures value { MatchOption result (run (in_class first) (in_class more) (chars text.now) ≡ failed bad)
        (λ p. run (in_class first) (in_class more) (chars text.now) ≡ got (chars p.0.now) (chars p.1.now)) }
    ensures joined { IfSome result (λ p. chars text.now ≡ chars p.0.now ++ chars p.1.now) }
{
    let Some((character, after)) = split_first(text) else {
        return None;
    };
    if !first.contains(character) {
        return None;
    }
    let rest = skip_class(after, more);
    Some((before(text, rest), rest))
}

/// What follows a name and a colon directly behind it, where they stand at the start of a text and the name is of ASCII
/// letters, digits and `_` alone; else the end of the text from where it and the name part. Names are short, so that a
/// loop of its own costs less than to call one that compares.
#[inline]
pub fn strip_called<'a>(text: &'a str, name: &str) -> Result<&'a str, &'a str>
    ensures value { MatchResult result
        (λ rest. chars text.now ≡ chars name.now ++ colon ∷ chars rest.now)
        (λ _. stands_called (chars name.now) (chars text.now) ≡ false) }
    ensures stands { OnOk result (stands_called (chars name.now) (chars text.now) ≡ true) }
    ensures end { IfErr result (λ end. chars end.now ≡ parting (chars name.now) (chars text.now)) }
{
    let bytes = text.as_bytes();
    let wanted = name.as_bytes();
    let mut place = 0;
    while place < wanted.len() {
        let byte = wanted[place];
        if place >= bytes.len() || bytes[place] != byte || !is_name_byte(byte) {
            return Err(&text[place..]);
        }
        place += 1;
    }
    let end = &text[place..];
    match strip_char(end, ':') {
        Some(rest) => Ok(rest),
        None => Err(end),
    }
}

/// Whether two texts are the same.
pub fn is_same(one: &str, other: &str) -> bool
    ensures { result ≡ same_text (chars one.now) (chars other.now) }
{
    one == other
}
