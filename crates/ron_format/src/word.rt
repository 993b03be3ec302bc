//! What a word is, by its first character, and how wide it is.

use ron_base::name::starts_name;
use ron_lex_text::text::{Class, begins_with, is_at_class, split_first};

/// What stands at a place of a text.
#[derive(Clone, Copy, PartialEq, Eq)]
pub enum Sort {
    /// The text has ended.
    End,
    /// A blank or a comment.
    Gap,
    /// `(`, `[` or `{`.
    Opening,
    /// `)`, `]` or `}`.
    Closing,
    /// `:`.
    Colon,
    /// `,`.
    Comma,
    /// A word that is no mark.
    Solid,
}

impl Sort {
    /// What stands at the start of a text.
    pub fn of(text: &str) -> Sort {
        match text.as_bytes().first() {
            Some(b'/') => Sort::Gap,
            Some(byte) if byte.is_ascii() => Sort::of_ascii(*byte),
            Some(_) if is_at_class(text, Class::Blank) => Sort::Gap,
            Some(_) => Sort::Solid,
            None => Sort::End,
        }
    }

    /// What begins with this character of ASCII.
    #[inline]
    fn of_ascii(byte: u8) -> Sort {
        if matches!(byte, b'\t'..=b'\r' | b' ') {
            Sort::Gap
        } else {
            Sort::of_word(byte)
        }
    }

    /// What a word is whose first byte this is.
    #[inline]
    pub fn of_word(byte: u8) -> Sort {
        match byte {
            b'(' | b'[' | b'{' => Sort::Opening,
            b')' | b']' | b'}' => Sort::Closing,
            b':' => Sort::Colon,
            b',' => Sort::Comma,
            _ => Sort::Solid,
        }
    }

    /// Whether an item may end there: a comma behind it separates.
    pub fn ends_item(self) -> bool {
        matches!(self, Sort::Closing | Sort::Solid)
    }
}

/// `(`, `[`, `{`, `)`, `]` or `}`.
pub fn is_bracket(byte: u8) -> bool {
    matches!(byte, b'(' | b'[' | b'{' | b')' | b']' | b'}')
}

/// Whether a name begins the word.
pub fn is_name(word: &str) -> bool {
    match split_first(word) {
        Some((first, _)) => starts_name(first) || begins_with(word, "r#"),
        None => false,
    }
}

/// How many characters a text has.
pub fn characters_in(text: &str) -> usize {
    let mut count = 0usize;
    for byte in text.as_bytes() {
        count = count.saturating_add(width_of(*byte));
    }
    count
}

/// How many characters the first line of a text has.
pub fn first_line(text: &str) -> usize {
    let mut count = 0usize;
    for byte in text.as_bytes() {
        if *byte == b'\n' {
            return count;
        }
        count = count.saturating_add(width_of(*byte));
    }
    count
}

/// The column behind this text, which begins at a column. A tab is so many characters wide.
pub fn column_behind(column: usize, text: &str, tab: usize) -> usize {
    let mut column = column;
    for byte in text.as_bytes() {
        column = match *byte {
            b'\n' => 0,
            b'\t' => column.saturating_add(tab),
            byte => column.saturating_add(width_of(byte)),
        };
    }
    column
}

/// How many characters begin with this byte.
#[inline]
fn width_of(byte: u8) -> usize {
    usize::from(!matches!(byte, 0x80..=0xBF))
}

/// How many characters a tab counts as.
pub const TAB_WIDTH: usize = 4;

/// Whether the text holds a line end.
pub fn spans_lines(text: &str) -> bool {
    text.as_bytes().contains(&b'\n')
}
