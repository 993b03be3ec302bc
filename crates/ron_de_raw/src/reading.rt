//! Reading raw texts within a text.
ghost use Rattle.std.specs.Prelude.{◌≤◌, ◌+◌, ◌*◌, IfOk};
ghost use Rattle.ron_spec_words.specs.Beyond.{bytes_in};
ghost use Rattle.ron_lex.specs.Turns.{Stays, Counts, passed};
ghost use Rattle.ron_de_raw.specs.Raw.{raw_text_of};
ghost use Rattle.ron_de_raw.specs.Reading.{ReadsRaw, IsStretchOf};
ghost use Rattle.ron_de_steps.specs.Advance.{Advances};
ghost use Rattle.ron_de_steps.specs.Errors.{IsOfText};
ghost use Rattle.ron_de_steps.specs.Spends.{SpendsRaw};

use crate::alone::is_valid;
use crate::raw::RawValue;
use crate::stretch::{bytes_of, raw_end, raw_start};
use ron_base::error::{Error, Result};
use ron_de_steps::context::Context;
use ron_de_steps::gap::pass_gap;
use ron_de_untyped::value::read_any;
use ron_lex::cursor::Cursor;
use ron_lex::gap::skip_closed_gap;
use ron_lex_text::text::before;

/// Reads the raw text whose value begins at the cursor, with what it takes of the gaps around that: the text is a slice
/// of the source, and the gap behind is gone past. Beside it comes the source from its first character on. Where it is
/// no value by itself, it is refused by `UnclosedLineComment`, or by `ExpectedRawValue`. The value is gone over twice.
pub fn read_raw<'a>(
    context: &Context,
    cursor: &mut Cursor<'a>,
    is_at_start: bool,
) -> Result<(RawValue<'a>, &'a str)>
    ensures value { ReadsRaw context.now is_at_start cursor.old result cursor.new.rest }
    ensures advance { Advances (IsStretchOf cursor.old.text) cursor.old result cursor.new }
    ensures turns { SpendsRaw 2 cursor.old result cursor.new }

    // Where one is read, the bytes that are gone forward are counted, and those of the raw text twice more: it is read by
    // itself, and who keeps the slice compares it with the source, or copies it.
    ensures least { IfOk result (λ read. Counts (passed cursor.old.rest cursor.new.rest
        + 2 * bytes_in (raw_text_of read.0)) cursor.old cursor.new) }
{
    let start = raw_start(cursor, is_at_start);
    let value = cursor.rest();
    read_any(context, cursor, false)?;
    let core = before(value, cursor.rest());
    pass_gap(cursor)?;
    let text = before(start, raw_end(cursor, core, is_at_start));
    if is_valid(context.alloc(), cursor, text)? {
        cursor.add_turns(bytes_of(text) as u128);
        cursor.forget_gap();
        return Ok((RawValue::of_slice(text), start));
    }
    Err(no_value(cursor))
}

/// What is reported of a raw text that is no value by itself, by the gap behind its value, before the cursor.
fn no_value(cursor: &mut Cursor<'_>) -> Error
    ensures fault { IsOfText result }
    ensures place { Stays cursor.old cursor.new }
    ensures turns { cursor.new.turns ≤ cursor.old.turns + 2 * bytes_in cursor.old.gap }
    ensures least { Counts (2 * bytes_in cursor.old.gap) cursor.old cursor.new }
{
    let gap = cursor.gap();
    // A line comment at the end is gone over twice.
    cursor.add_turns(2 * bytes_of(gap) as u128);
    match skip_closed_gap(gap) {
        Some(_) => Error::ExpectedRawValue,
        None => Error::UnclosedLineComment,
    }
}
