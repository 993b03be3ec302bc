//! Comments that are written: docs before fields, and numbers before items.
ghost use Rattle.std.specs.Prelude.{◌≡◌, ◌∷◌, [], ◌++◌, ◌<◌, length, codes, flat_map, chars, encode_utf8_all, IfSome, MatchOption};
ghost use Rattle.std.specs.Fmt.{WritesInCalls, decimal};
ghost use Rattle.std.specs.Str.Lines.{lines, strip_carriage_return};
ghost use Rattle.ron_spec_layout.specs.Config.{line_at};
ghost use Rattle.ron_ser.specs.Stand.{place_of};

use crate::lines::begin_line;
use crate::writing::Writing;
use itoa::Buffer;
use ron_base_device::output::Output;
use ron_lex_text::search::skip_to_line_end;
use ron_lex_text::text::{before, is_ended, split_first};

/// Writes the number of an item as a comment before it.
pub fn write_item_comment<O: Output>(out: &mut O, n: usize)
    ensures { WritesInCalls O.puts out.old
        (codes "/*[" ++ (decimal n ++ codes "]*/ ")) out.new }
{
    out.put("/*[");
    out.put(Buffer::new().format(n));
    out.put("]*/ ");
}

/// Writes each line of a doc as a comment, and the indentation of a level on the line that follows it.
pub fn write_doc<O: Output>(out: &mut O, doc: &str, level: usize, writing: &Writing)
    ensures { WritesInCalls O.puts out.old
        (encode_utf8_all (flat_map
        (λ t. codes "/// " ++ (t ++ line_at (place_of writing.now).config level))
        (lines (chars doc.now)))) out.new }
{
    let mut rest = doc;
    while let Some((line, after)) = split_line(rest) {
        out.put("/// ");
        out.put(line);
        begin_line(out, level, writing);
        rest = after;
    }
}

/// The first line of a text without its end, which is LF or CR and LF, and what follows it. There is none in an empty
/// text.
fn split_line(text: &str) -> Option<(&str, &str)>
    ensures lines { MatchOption result (lines (chars text.now) ≡ [])
        (λ p. lines (chars text.now) ≡ chars p.0.now ∷ lines (chars p.1.now)) }
    ensures shorter { IfSome result (λ p. length p.1.now < length text.now) }
{
    if is_ended(text) {
        return None;
    }
    let end = skip_to_line_end(text);
    match split_first(end) {
        Some((_, rest)) => Some((without_return(before(text, end)), rest)),
        None => Some((text, "")),
    }
}

/// A line without the carriage return at its end.
fn without_return(line: &str) -> &str
    ensures { chars result.now ≡ strip_carriage_return (chars line.now) }
{
    match line.strip_suffix('\r') {
        Some(front) => front,
        None => line,
    }
}
