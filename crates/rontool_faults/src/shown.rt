//! Characters as they are shown.
ghost use Rattle.std.specs.Prelude.{◌≡◌};
ghost use Rattle.rontool_faults.specs.Shown.{is_hidden, is_unseen, columns_of, number_columns};

use std::alloc::AllocError;
use unicode_width::UnicodeWidthChar;

/// Whether a character is shown by its number: a control character other than a tab, or one that turns the direction in
/// which a text is read, ends its line or has no shape.
pub(crate) fn is_hidden(c: char) -> bool
    ensures { result ≡ is_hidden c }
{
    c != '\t' && (is_unseen(c) || c.is_control())
}

/// Whether a character turns the direction in which a text is read, ends its line or has no shape.
fn is_unseen(c: char) -> bool
    ensures { result ≡ is_unseen c }
{
    ('\u{200e}' <= c && c <= '\u{200f}')
        || ('\u{2028}' <= c && c <= '\u{202e}')
        || ('\u{2066}' <= c && c <= '\u{2069}')
        || c == '\u{feff}'
}

/// Writes a character as it is shown.
pub(crate) fn push_shown(out: &mut String, c: char) -> Result<(), AllocError> {
    if is_hidden(c) {
        out.push_str("\\u{")?;
        push_hex(out, u32::from(c))?;
        out.push('}')
    } else {
        out.push(c)
    }
}

/// Writes a number in hexadecimal digits.
fn push_hex(out: &mut String, number: u32) -> Result<(), AllocError> {
    if number >= 16 {
        push_hex(out, number / 16)?;
    }
    match char::from_digit(number % 16, 16) {
        Some(digit) => out.push(digit),
        None => Ok(()),
    }
}

/// How many columns a character takes as it is shown. A tab has none of its own.
pub(crate) fn columns_of(c: char) -> usize
    ensures { result ≡ columns_of c }
{
    if is_hidden(c) {
        number_columns(c)
    } else {
        c.width().unwrap_or(0)
    }
}

/// How many columns a character's number takes.
fn number_columns(c: char) -> usize
    ensures { result ≡ number_columns c }
{
    let number = u32::from(c);
    if number <= 0xf {
        5
    } else if number <= 0xff {
        6
    } else {
        8
    }
}

/// Writes a text as it is shown in one line.
pub(crate) fn push_text(out: &mut String, text: &str) -> Result<(), AllocError> {
    for c in text.chars() {
        push_shown(out, c)?;
    }
    Ok(())
}
