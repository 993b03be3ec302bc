//! Fixed words, such as `true`.
ghost use Rattle.std.specs.Prelude.{◌≡◌, ◌++◌, true, false, chars, IfSome, MatchOption};
ghost use Rattle.ron_spec_words.specs.Lang.{done};
ghost use Rattle.ron_spec_words.specs.Reader.{got, failed, bad};
ghost use Rattle.ron_spec_words.specs.Directly.{stands, fixed_word};

use ron_lex_text::text::{Class, is_at_class, strip_text};

/// What follows this word at the start of a text. It counts only where no XID_Continue character follows it.
pub(crate) fn strip_word<'a>(text: &'a str, word: &str) -> Option<&'a str>
    ensures value { MatchOption result
        (fixed_word (chars word.now) done (chars text.now) ≡ failed bad)
        (λ rest. fixed_word (chars word.now) done (chars text.now) ≡ got done (chars rest.now)) }
    ensures stands { MatchOption result (stands (chars word.now) (chars text.now) ≡ false)
        (λ _. stands (chars word.now) (chars text.now) ≡ true) }
    ensures joined { IfSome result (λ rest. chars text.now ≡ chars word.now ++ chars rest.now) }
{
    let rest = strip_text(text, word)?;
    if is_at_class(rest, Class::NameContinue) {
        return None;
    }
    Some(rest)
}
