//! Characters and bytes that don't stand as they are, and what stands for them.
ghost use Rattle.std.specs.Prelude.{◌≡◌, ◌<◌, ◌^◌, ℕ, suc, false, None, [], ◌∷◌, ◌++◌, codes, encode_utf8_all, MatchOption};
ghost use Rattle.std.specs.Fmt.{WritesInCalls, digits_onto, digit_glyph};
ghost use Rattle.ron_base.specs.Escape.{short_escape, stands_as_it_is, escaped_char, short_byte, byte_stands_as_it_is, escaped_byte};
ghost use Rattle.ron_base.specs.declared.escape.Quotes.TheVariants.{Both};

use ron_base_device::output::Output;

/// Puts a character as it is.
pub fn put_char<O: Output>(out: &mut O, c: char)
    ensures { WritesInCalls O.puts out.old (encode_utf8_all (c ∷ [])) out.new }
{
    let mut bytes = [0; 4];
    out.put(c.encode_utf8(&mut bytes));
}

/// Writes the escape of a character: by a letter where it has one, and else by its number.
pub fn write_escape<O: Output>(out: &mut O, c: char)
    requires { stands_as_it_is Both c ≡ false }
    ensures { WritesInCalls O.puts out.old (encode_utf8_all (escaped_char Both c)) out.new }
{
    match letter_escape(c) {
        Some(text) => out.put(text),
        None => write_numbered(out, c),
    }
}

/// The escape of a character by a letter, where it has one.
#[tactic(auto, unfolding(ron_base::specs::Escape::short_escape))]
fn letter_escape(c: char) -> Option<&'static str>
    ensures { MatchOption result (short_escape Both c ≡ None) (λ text. text.now ≡ encode_utf8_all (escaped_char Both c)) }
{
    match c {
        '\0' => Some("\\0"),
        '\t' => Some("\\t"),
        '\r' => Some("\\r"),
        '\n' => Some("\\n"),
        '\\' => Some("\\\\"),
        '\'' => Some("\\'"),
        '"' => Some("\\\""),
        _ => None,
    }
}

/// Writes the escape of a character by its number.
fn write_numbered<O: Output>(out: &mut O, c: char)
    requires hidden { stands_as_it_is Both c ≡ false }
    requires long { short_escape Both c ≡ None }
    ensures { WritesInCalls O.puts out.old (encode_utf8_all (escaped_char Both c)) out.new }
{
    out.put("\\u{");
    write_hexadecimal(out, c as u32);
    out.put("}");
}

/// Writes a number in base 16.
fn write_hexadecimal<O: Output>(out: &mut O, n: u32)
    ensures { (k : ℕ) → n < 16 ^ suc k → WritesInCalls O.puts out.old (digits_onto (suc k) 16 false n []) out.new }
{
    if n < 16 {
        out.put(hexadecimal_digit(n % 16));
        return;
    }
    write_hexadecimal(out, n / 16);
    out.put(hexadecimal_digit(n % 16));
}

/// The digit of a number in base 16.
fn hexadecimal_digit(n: u32) -> &'static str
    requires { n < 16 }
    ensures { result.now ≡ digit_glyph false n ∷ [] }
{
    match n {
        0 => "0",
        1 => "1",
        2 => "2",
        3 => "3",
        4 => "4",
        5 => "5",
        6 => "6",
        7 => "7",
        8 => "8",
        9 => "9",
        10 => "a",
        11 => "b",
        12 => "c",
        13 => "d",
        14 => "e",
        _ => "f",
    }
}

/// Writes the escape of a byte: by a letter where it has one, and else by its number in base 16.
pub fn write_byte_escape<O: Output>(out: &mut O, byte: u8)
    requires { byte_stands_as_it_is byte ≡ false }
    ensures { WritesInCalls O.puts out.old (escaped_byte byte) out.new }
{
    match letter_byte_escape(byte) {
        Some(text) => out.put(text),
        None => {
            out.put(high_digit(byte / 16));
            out.put(hexadecimal_digit(u32::from(byte % 16)));
        }
    }
}

/// The first digit of a byte's number in base 16, with `\x` before it.
fn high_digit(digit: u8) -> &'static str
    requires { digit < 16 }
    ensures { result.now ≡ codes "\\x" ++ (digit_glyph false digit ∷ []) }
{
    match digit {
        0 => "\\x0",
        1 => "\\x1",
        2 => "\\x2",
        3 => "\\x3",
        4 => "\\x4",
        5 => "\\x5",
        6 => "\\x6",
        7 => "\\x7",
        8 => "\\x8",
        9 => "\\x9",
        10 => "\\xa",
        11 => "\\xb",
        12 => "\\xc",
        13 => "\\xd",
        14 => "\\xe",
        _ => "\\xf",
    }
}

/// The escape of a byte by a letter, where it has one.
#[tactic(auto, unfolding(ron_base::specs::Escape::short_byte))]
fn letter_byte_escape(byte: u8) -> Option<&'static str>
    ensures { MatchOption result (short_byte byte ≡ None) (λ text. text.now ≡ escaped_byte byte) }
{
    match byte {
        b'\t' => Some("\\t"),
        b'\r' => Some("\\r"),
        b'\n' => Some("\\n"),
        b'\\' => Some("\\\\"),
        b'\'' => Some("\\'"),
        b'"' => Some("\\\""),
        _ => None,
    }
}
