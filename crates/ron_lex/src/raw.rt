//! Raw strings: a text between two quotes with as many hashes at each end.
ghost use Rattle.std.specs.Prelude.{◌≡◌, [], ◌∷◌, ◌++◌, false, chars, IfErr, MatchOption, MatchResult};
ghost use Rattle.ron_spec_words.specs.Reader.{failed, got, bad};
ghost use Rattle.ron_spec_words.specs.Runs.{after_run, begins_with};
ghost use Rattle.ron_spec_words.specs.Quoted.{raw, upto};
ghost use Rattle.ron_lex_text.specs.Stretch.{IsSuffix, in_class};
ghost use Rattle.ron_lex_text.specs.declared.text.Class.TheVariants.{Hash};
ghost use Rattle.ron_lex.specs.Quoted.{SplitsBy, characters};

use crate::fault::{QuotedError, QuotedFault};
use ron_lex_text::search::skip_to_quote;
use ron_lex_text::text::{Class, before, skip_run, strip_char};

/// The content of a raw string behind its `r`, as a slice of the text, and what follows the string.
///
/// Hashes and a quote stand before it, and it goes on up to the first quote with as many hashes behind it. Where no
/// quote follows the hashes, the error is `missing`; where nothing ends the string, it is `MissingStringEnd`.
pub(crate) fn split_raw(text: &str, missing: QuotedFault) -> Result<(&str, &str), QuotedError<'_>>
    ensures value { SplitsBy characters result (raw (chars text.now)) }
    ensures err_end { IfErr result (λ e. IsSuffix (chars e.rest.now) (chars text.now)) }
{
    let opening = skip_run(text, Class::Hash);
    let Some(content) = strip_char(opening, '"') else {
        return Err(QuotedError::new(missing, opening));
    };
    let hashes = before(text, opening);
    match split_at_ending(content, hashes) {
        Some((inner, rest)) => Ok((inner, rest)),
        None => Err(QuotedError::new(QuotedFault::MissingStringEnd, content)),
    }
}

/// What stands before the first quote with these hashes behind it, and what follows the hashes.
fn split_at_ending<'a>(text: &'a str, hashes: &str) -> Option<(&'a str, &'a str)>
    requires { after_run (in_class Hash) (chars hashes.now) ≡ [] }
    ensures { MatchOption result (upto (34 ∷ chars hashes.now) (chars text.now) ≡ failed bad)
        (λ p. upto (34 ∷ chars hashes.now) (chars text.now) ≡ got (chars p.0.now) (chars p.1.now)) }
{
    let mut quote = skip_to_quote(text);
    while let Some(behind) = strip_char(quote, '"') {
        match strip_hashes(behind, hashes) {
            Ok(rest) => return Some((before(text, quote), rest)),
            // No quote stands among the hashes that were passed.
            Err(end) => quote = skip_to_quote(end),
        }
    }
    None
}

/// What follows these hashes, where they stand at the start of a text; else what follows the hashes that stand there.
fn strip_hashes<'a>(text: &'a str, hashes: &str) -> Result<&'a str, &'a str>
    requires { after_run (in_class Hash) (chars hashes.now) ≡ [] }
    ensures value { MatchResult result
        (λ rest. chars text.now ≡ chars hashes.now ++ chars rest.now)
        (λ _. begins_with (chars hashes.now) (chars text.now) ≡ false) }
    ensures end { IfErr result (λ end. chars end.now ≡ after_run (in_class Hash) (chars text.now)) }
{
    let mut rest = text;
    let mut left = hashes;
    while let Some(more) = strip_char(left, '#') {
        let Some(after) = strip_char(rest, '#') else {
            return Err(rest);
        };
        rest = after;
        left = more;
    }
    Ok(rest)
}
