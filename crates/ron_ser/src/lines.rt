//! Lines and their indentation.
ghost use Rattle.std.specs.Prelude.{◌++◌, codes, chars, encode_utf8_all};
ghost use Rattle.std.specs.Fmt.{WritesInCalls};
ghost use Rattle.ron_spec_layout.specs.Config.{line_at, times};
ghost use Rattle.ron_ser.specs.Stand.{place_of};

use crate::writing::Writing;
use ron_base_device::output::Output;
use ron_lex_text::text::is_same;

/// Sixteen levels of four spaces.
const SPACES: &str = "                                                                ";

/// Begins a line at a level.
#[tactic(auto, unfolding(crate::specs::Stand::place_of))]
pub(crate) fn begin_line<O: Output>(out: &mut O, level: usize, writing: &Writing)
    ensures { WritesInCalls O.puts out.old
        (encode_utf8_all (line_at (place_of writing.now).config level)) out.new }
{
    let new_line = writing.config.new_line.as_str();
    let indentor = writing.config.indentor.as_str();
    write_line(out, new_line, indentor, level)
}

/// Writes a new line, and the indentation of a level.
fn write_line<O: Output>(out: &mut O, new_line: &str, indentor: &str, level: usize)
    ensures { WritesInCalls O.puts out.old
        (encode_utf8_all (chars new_line.now ++ times level (chars indentor.now))) out.new }
{
    out.put(new_line);
    write_times(out, indentor, level);
}

/// Writes a text so many times in a row: of four spaces, which most indentations are made of, sixteen in one call.
pub fn write_times<O: Output>(out: &mut O, text: &str, n: usize)
    ensures { WritesInCalls O.puts out.old
        (encode_utf8_all (times n (chars text.now))) out.new }
{
    if is_same(text, "    ") {
        write_spaces(out, n);
    } else {
        write_each(out, text, n);
    }
}

/// Writes four spaces so many times.
fn write_spaces<O: Output>(out: &mut O, n: usize)
    ensures { WritesInCalls O.puts out.old (times n (codes "    ")) out.new }
{
    let mut left = n;
    while left > 16 {
        out.put(SPACES);
        left -= 16;
    }
    out.put(&SPACES[..4 * left]);
}

/// Writes a text so many times, each in a call of its own.
fn write_each<O: Output>(out: &mut O, text: &str, n: usize)
    ensures { WritesInCalls O.puts out.old
        (encode_utf8_all (times n (chars text.now))) out.new }
{
    for _ in 0..n {
        out.put(text);
    }
}
