//! Stretches of a text in bytes.
ghost use Rattle.std.specs.Prelude.{◌≡◌, ◌+◌, chars};
ghost use Rattle.ron_spec_words.specs.Beyond.{bytes_in};
ghost use Rattle.ron_lex_text.specs.Stretch.{IsSuffix};

/// How many bytes a text has.
#[inline(always)]
pub(crate) fn bytes_of(text: &str) -> usize
    ensures { result ≡ bytes_in (chars text.now) }
{
    text.len()
}

/// How many bytes stand before an end of a text.
#[inline(always)]
pub(crate) fn bytes_before(text: &str, rest: &str) -> usize
    requires { IsSuffix (chars rest.now) (chars text.now) }
    ensures { result + bytes_in (chars rest.now) ≡ bytes_in (chars text.now) }
{
    text.len() - rest.len()
}
