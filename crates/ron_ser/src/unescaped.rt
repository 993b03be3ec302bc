//! Texts that are written as they are, raw where quotes alone would not hold them.
ghost use Rattle.std.specs.Prelude.{◌≡◌, chars, encode_utf8_all};
ghost use Rattle.std.specs.Fmt.{WritesInCalls};
ghost use Rattle.ron_spec_words.specs.Quoted.{hashes};
ghost use Rattle.ron_spec_layout.specs.Unescaped.{longest_hashes, needs_raw, unescaped};

use crate::lines::write_times;
use ron_base_device::output::Output;
use ron_lex_text::search::skip_to_quote_or_escape;
use ron_lex_text::text::{is_ended, split_first};

/// Writes a text between `"` as it is. Where a quote or a backslash stands in it, it is raw, with one hash more than
/// its longest run of hashes.
pub fn write_unescaped<O: Output>(out: &mut O, text: &str)
    ensures { WritesInCalls O.puts out.old
        (encode_utf8_all (unescaped (chars text.now))) out.new }
{
    if !needs_raw(text) {
        out.put("\"");
        out.put(text);
        out.put("\"");
        return;
    }
    let longest = longest_hashes(text);
    out.put("r#");
    write_hashes(out, longest);
    out.put("\"");
    out.put(text);
    out.put("\"#");
    write_hashes(out, longest);
}

/// Writes so many hashes.
fn write_hashes<O: Output>(out: &mut O, n: usize)
    ensures { WritesInCalls O.puts out.old (hashes n) out.new }
{
    write_times(out, "#", n);
}

/// Whether a quote or a backslash stands in a text.
fn needs_raw(text: &str) -> bool
    ensures { result ≡ needs_raw (chars text.now) }
{
    !is_ended(skip_to_quote_or_escape(text))
}

/// The length of the longest run of hashes in a text.
fn longest_hashes(text: &str) -> usize
    ensures { result ≡ longest_hashes (chars text.now) }
{
    let size = text.len();
    let mut longest = 0;
    let mut run = 0;
    let mut rest = text;
    while let Some((c, after)) = split_first(rest) {
        if c == '#' {
            prove!(run < size);
            run += 1;
        } else {
            run = 0;
        }
        longest = longest.max(run);
        rest = after;
    }
    longest
}
