//! Characters, strings and bytes as they are written: between quotes.
// Runs in writing. A string is written with one put for each run of characters that stand as they are. There is one
// for an escape by a letter, and a few for one by its number. Bytes are written likewise, whose runs are ASCII and so
// handed out as a `&str` without a copy. No clause says so: any cutting into puts meets the contract.

ghost use Rattle.std.specs.Prelude.{◌≡◌, ◌≤◌, ◌==◌, ◌||◌, true, nat_lt, length, chars, encode_utf8_all};
ghost use Rattle.std.specs.List.{list_all};
ghost use Rattle.std.specs.Fmt.{WritesInCalls};
ghost use Rattle.ron_spec_words.specs.Characters.{backslash, single_quote};
ghost use Rattle.ron_spec_words.specs.Runs.{after_run};
ghost use Rattle.ron_base.specs.Escape.{stands_as_it_is, escaped, byte_stands_as_it_is, escaped_bytes};
ghost use Rattle.ron_base.specs.declared.escape.Quotes.TheVariants.{Both};
ghost use Rattle.ron_spec_layout.specs.Literals.{written_char};
ghost use Rattle.ron_spec_layout.specs.Unescaped.{string_text, bytes_text};

use crate::escapes::{put_char, write_byte_escape, write_escape};
use crate::unescaped::write_unescaped;
use ron_base::escape::bytes::byte_stands_as_it_is;
use ron_base::escape::{Quotes, stands_as_it_is};
use ron_base_device::output::Output;
use ron_lex_text::text::{before, split_first};

/// Writes a character between `'`, with a backslash before a backslash and `'`.
pub fn write_character<O: Output>(out: &mut O, c: char)
    ensures { WritesInCalls O.puts out.old (encode_utf8_all (written_char c)) out.new }
{
    if takes_backslash(c) {
        out.put("'\\");
        put_char(out, c);
        out.put("'");
    } else {
        out.put("'");
        put_char(out, c);
        out.put("'");
    }
}

/// Whether a backslash stands before a character between `'`.
fn takes_backslash(c: char) -> bool
    ensures { result ≡ ((c == backslash) || (c == single_quote)) }
{
    c == '\\' || c == '\''
}

/// Writes a text between `"`: escaped, in one call what stands as it is between two escapes, or as it is.
pub fn write_string<O: Output>(out: &mut O, text: &str, escape: bool)
    ensures { WritesInCalls O.puts out.old
        (encode_utf8_all (string_text escape (chars text.now))) out.new }
{
    if !escape {
        write_unescaped(out, text);
        return;
    }
    out.put("\"");
    write_escaped(out, text);
    out.put("\"");
}

/// Writes bytes between `b"` and `"`, likewise. Those that are no UTF-8 are escaped whatever is asked for.
pub fn write_byte_string<O: Output>(out: &mut O, bytes: &[u8], escape: bool)
    ensures text { WritesInCalls O.puts out.old
        (encode_utf8_all (bytes_text escape bytes.now)) out.new }
    ensures below { list_all (λ b. nat_lt b 256) bytes.now ≡ true }
{
    if !escape {
        if let Ok(text) = str::from_utf8(bytes) {
            out.put("b");
            write_unescaped(out, text);
            return;
        }
    }
    out.put("b\"");
    write_escaped_bytes(out, bytes);
    out.put("\"");
}

/// Writes the characters of a text, escaped.
fn write_escaped<O: Output>(out: &mut O, text: &str)
    ensures { WritesInCalls O.puts out.old
        (encode_utf8_all (escaped Both (chars text.now))) out.new }
{
    let mut rest = text;
    while let Some((c, after)) = split_first(rest) {
        if stands_as_it_is(Quotes::Both, c) {
            let end = skip_standing(after);
            out.put(before(rest, end));
            rest = end;
        } else {
            write_escape(out, c);
            rest = after;
        }
    }
}

/// What follows the characters at the start of a text that stand as they are.
fn skip_standing(text: &str) -> &str
    ensures shorter { length result.now ≤ length text.now }
    ensures value { chars result.now ≡ after_run (stands_as_it_is Both) (chars text.now) }
{
    let mut rest = text;
    while let Some((c, after)) = split_first(rest) {
        if !stands_as_it_is(Quotes::Both, c) {
            return rest;
        }
        rest = after;
    }
    rest
}

/// Writes bytes, escaped.
fn write_escaped_bytes<O: Output>(out: &mut O, bytes: &[u8])
    ensures { WritesInCalls O.puts out.old (escaped_bytes bytes.now) out.new }
{
    let mut rest = bytes;
    while let Some((byte, after)) = rest.split_first() {
        if byte_stands_as_it_is(*byte) {
            let end = skip_standing_bytes(after);
            write_run(out, &rest[..rest.len() - end.len()]);
            rest = end;
        } else {
            write_byte_escape(out, *byte);
            rest = after;
        }
    }
}

/// What follows the bytes at the start that stand as they are.
fn skip_standing_bytes(bytes: &[u8]) -> &[u8]
    ensures { result.now ≡ after_run byte_stands_as_it_is bytes.now }
{
    let mut rest = bytes;
    while let Some((byte, after)) = rest.split_first() {
        if !byte_stands_as_it_is(*byte) {
            return rest;
        }
        rest = after;
    }
    rest
}

/// Writes bytes that stand as they are, in one call.
fn write_run<O: Output>(out: &mut O, run: &[u8])
    requires { list_all byte_stands_as_it_is run.now ≡ true }
    ensures { WritesInCalls O.puts out.old run.now out.new }
{
    match str::from_utf8(run) {
        Ok(text) => out.put(text),
        Err(_) => unreachable!(),
    }
}
