//! Which bytes a byte string shows as they are.
ghost use Rattle.std.specs.Prelude.{◌≡◌};
ghost use Rattle.ron_base.specs.Escape.{short_byte, is_printed, byte_stands_as_it_is};

/// Whether a byte stands for itself in a byte string: it is an ASCII character that shows, and takes no backslash.
#[tactic(auto, unfolding(crate::specs::Escape::byte_stands_as_it_is))]
pub fn byte_stands_as_it_is(byte: u8) -> bool
    ensures { result ≡ byte_stands_as_it_is byte }
{
    short_escape(byte).is_none() && is_printed(byte)
}

// What stands after the backslash, for a byte that has a short escape.
#[tactic(auto, unfolding(crate::specs::Escape::short_byte))]
fn short_escape(byte: u8) -> Option<char>
    ensures { result ≡ short_byte byte }
{
    match byte {
        b'\t' => Some('t'),
        b'\r' => Some('r'),
        b'\n' => Some('n'),
        b'\'' => Some('\''),
        b'"' => Some('"'),
        b'\\' => Some('\\'),
        _ => None,
    }
}

// Whether a byte is an ASCII character that shows.
fn is_printed(byte: u8) -> bool
    ensures { result ≡ is_printed byte }
{
    matches!(byte, b' '..=b'~')
}
