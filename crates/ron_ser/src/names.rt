//! Names as they are written.
ghost use Rattle.std.specs.Prelude.{◌≡◌, ◌==◌, true, chars, OnOk, OnErr, IfErr};
ghost use Rattle.std.specs.List.{list_any};
ghost use Rattle.std.specs.Fmt.{WritesInCalls};
ghost use Rattle.ron_spec_words.specs.Runs.{begins, same_text};
ghost use Rattle.ron_spec_words.specs.Name.{is_name, value_words};
ghost use Rattle.ron_spec_layout.specs.Name.{is_plain_name};
ghost use Rattle.ron_spec_layout.specs.Bytes.{name_bytes};
ghost use Rattle.ron_ser.specs.Refusal.{RefusesName};
ghost use Rattle.ron_ser.specs.Piece.{required_name};
ghost use Rattle.ron_ser.specs.Stand.{place_of};

use crate::refusal::{Refusal, Written};
use crate::writing::Writing;
use ron_base::name::{is_name, is_plain_identifier};
use ron_base_device::output::Output;
use ron_lex_text::text::{is_same, split_first};

/// Refuses a name that no identifier spells: an empty one, or one with a character other than `.`, `+`, `-` and
/// XID_Continue.
#[inline(always)]
pub fn check_name(name: &str) -> Written<'_>
    ensures name { OnOk result (is_name (chars name.now) ≡ true) }
    ensures refused { IfErr result (RefusesName (chars name.now)) }
{
    if is_name(name) {
        Ok(())
    } else {
        Err(Refusal::Name(name))
    }
}

/// Whether a plain identifier of this spelling stands for a value or begins one.
fn is_value_word(name: &str) -> bool
    ensures { result ≡ list_any (same_text (chars name.now)) value_words }
{
    // none is shorter than `inf` and `NaN`, and of many names that is all to be seen
    if name.len() < 3 {
        return false;
    }
    let Some((first, _)) = split_first(name) else {
        return false;
    };
    if !begins_value_word(first) {
        return false;
    }
    let words = [
        "true", "false", "Some", "None", "inf", "inff32", "inff64", "NaN", "NaNf32", "NaNf64",
    ];
    is_among(&words, name)
}

/// Whether one of these words begins with the character: of most names that says at once that they are none.
fn begins_value_word(c: char) -> bool
    ensures { result ≡ list_any (begins (λ d. c == d)) value_words }
{
    (c == 't') | (c == 'f') | (c == 'S') | (c == 'N') | (c == 'i')
}

/// Whether one of the words is the name.
fn is_among(words: &[&str], name: &str) -> bool
    ensures { result ≡ list_any (λ word. same_text (chars name.now) (chars word.now)) words.now }
{
    words.iter().any(|word| is_same(name, word))
}

/// Whether a plain identifier spells the name, and no word for a value does.
fn is_plain_name(name: &str) -> bool
    ensures { result ≡ is_plain_name (chars name.now) }
{
    is_plain_identifier(name) && !is_value_word(name)
}

/// Writes a name as an identifier, with `r#` where a plain one doesn't spell it. A name that no identifier spells is
/// refused, and nothing is written.
#[inline(always)]
pub fn write_name<'a, O: Output>(out: &mut O, name: &'a str) -> Written<'a>
    ensures text { OnOk result (WritesInCalls O.puts out.old (name_bytes (chars name.now)) out.new) }
    ensures name { OnOk result (is_name (chars name.now) ≡ true) }
    ensures refused { IfErr result (RefusesName (chars name.now)) }
    ensures unchanged { OnErr result (out.new ≡ out.old) }
{
    if is_plain_name(name) {
        out.put(name);
        return Ok(());
    }
    check_name(name)?;
    out.put("r#");
    out.put(name);
    Ok(())
}

/// Writes a struct's name where names are required and the struct is neither bare nor unwrapped, and else only checks
/// it. A name that no identifier spells is refused, and nothing is written.
#[inline(always)]
pub fn write_struct_name<'a, O: Output>(
    out: &mut O,
    name: &'a str,
    bare: bool,
    writing: &Writing,
) -> Written<'a>
    ensures text { OnOk result (WritesInCalls O.puts out.old
        (required_name (place_of writing.now) bare (chars name.now)) out.new) }
    ensures name { OnOk result (is_name (chars name.now) ≡ true) }
    ensures refused { IfErr result (RefusesName (chars name.now)) }
    ensures unchanged { OnErr result (out.new ≡ out.old) }
{
    if !bare && writing.requires_names() {
        write_name(out, name)
    } else {
        check_name(name)
    }
}
