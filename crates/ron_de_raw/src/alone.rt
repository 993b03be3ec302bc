//! Reading a text as a value by itself.
ghost use Rattle.std.specs.Prelude.{◌≡◌, ◌⊎◌, true, false, [], ◌∷◌, ◌++◌, ◌≤◌, ◌+◌, ◌*◌, chars};
ghost use Rattle.std.specs.Prelude.{min, MatchResult, IfOk, IfErr, OnOk};
ghost use Rattle.ron_spec_words.specs.Beyond.{bytes_in};
ghost use Rattle.ron_spec_words.specs.Characters.{comma};
ghost use Rattle.ron_spec_words.specs.Gap.{skip};
ghost use Rattle.ron_spec_words.specs.Runs.{same_text};
ghost use Rattle.ron_base.specs.declared.error.Error.TheVariants.{OutOfMemory, TrailingCharacters};
ghost use Rattle.ron_spec_grammar.specs.Raw.{raw_valid, without_gaps};
ghost use Rattle.ron_lex.specs.Turns.{Stays, Scans, Counts, most_turns};
ghost use Rattle.ron_de_steps.specs.Errors.{IsOfReading};
ghost use Rattle.ron_de_steps.specs.Spends.{IsReached, SpendsUntyped};
ghost use Rattle.ron_de_raw.specs.Raw.{IsRefusedRaw};
ghost use Rattle.ron_de_raw.specs.Reading.{ReadsAlone, PassesValue};

use crate::stretch::bytes_of;
use ron_base::error::{Error, Result, SpannedError, SpannedResult};
use ron_base::extensions::Extensions;
use ron_de_steps::attributes::read_head;
use ron_de_steps::context::Context;
use ron_de_steps::gap::pass_gap;
use ron_de_untyped::value::read_any;
use ron_lex::cursor::Cursor;
use ron_lex::gap::skip_closed_gap;
use ron_lex_text::text::{before, is_ended};
use std::alloc::Global;

/// The levels within which a raw text is read by itself.
const RAW_LIMIT: usize = 128;

/// Reads a whole text as a value by itself.
pub(crate) fn read_whole(alloc: Global, ron: &str) -> SpannedResult<()>
    ensures { MatchResult result (λ _. raw_valid (chars ron.now) ≡ true) (IsRefusedRaw (chars ron.now)) }
{
    let mut cursor = Cursor::new(ron);
    match read_alone(alloc, &mut cursor) {
        Ok(()) => Ok(()),
        Err(code) => Err(SpannedError {
            code,
            span: cursor.span(),
        }),
    }
}

/// Whether a text is a raw text. What reading it goes over is counted on the cursor, which stays.
pub(crate) fn is_valid(alloc: Global, cursor: &mut Cursor<'_>, ron: &str) -> Result<bool>
    ensures value { MatchResult result (λ valid. raw_valid (chars ron.now) ≡ valid) (λ e. e ≡ OutOfMemory) }
    ensures place { Stays cursor.old cursor.new }
    ensures turns { cursor.new.turns ≤ cursor.old.turns + 12 * bytes_in (chars ron.now) }

    // Where it is one, each of its bytes was gone over.
    ensures least { IfOk result (λ valid. valid ≡ true
        → min (cursor.old.counted + bytes_in (chars ron.now)) most_turns ≤ cursor.new.counted) }
{
    let mut again = Cursor::new(ron);
    let answer = read_alone(alloc, &mut again);
    cursor.add_turns(again.turns());
    match answer {
        Ok(()) => Ok(true),
        Err(error) => match error {
            Error::OutOfMemory => Err(Error::OutOfMemory),
            _ => Ok(false),
        },
    }
}

/// Reads what is left of a text as a value by itself, up to its end.
fn read_alone(alloc: Global, cursor: &mut Cursor<'_>) -> Result<()>
    ensures text { cursor.new.text ≡ cursor.old.text }
    ensures value { ReadsAlone cursor.old.rest result }
    ensures ends { OnOk result (cursor.new.rest ≡ []) }
    ensures turns { IsReached cursor.old → cursor.new.turns ≤ cursor.old.turns + 7 * bytes_in cursor.old.rest }
{
    pass_gap(cursor)?;
    if cursor.is_at('#') {
        return Err(attribute_error(alloc, cursor)?);
    }
    pass_value(alloc, cursor)?;
    close(cursor)
}

/// Goes past the value that begins at the cursor, under what a raw text is read by itself: its stretch.
fn pass_value<'a>(alloc: Global, cursor: &mut Cursor<'a>) -> Result<&'a str>
    ensures text { cursor.new.text ≡ cursor.old.text }
    ensures value { PassesValue cursor.old result cursor.new.rest }
    ensures stretch { IfOk result (λ core. cursor.old.rest ≡ chars core.now ++ cursor.new.rest) }
    ensures fault { IfErr result IsOfReading }
    ensures turns { SpendsUntyped 2 cursor.old result cursor.new }
{
    let start = cursor.rest();
    let context = Context::new(alloc, Extensions::empty(), Some(RAW_LIMIT));
    read_any(&context, cursor, false)?;
    Ok(before(start, cursor.rest()))
}

/// What is reported where an attribute stands.
fn attribute_error(alloc: Global, cursor: &mut Cursor<'_>) -> Result<Error>
    ensures text { cursor.new.text ≡ cursor.old.text }
    ensures fault { MatchResult result IsOfReading IsOfReading }
    ensures turns { Scans 2 cursor.old cursor.new }
{
    let announced = read_head(alloc, cursor, Extensions::empty())?;
    let message = if announced.is_empty() {
        "ron::value::RawValue cannot contain attributes"
    } else {
        "ron::value::RawValue cannot enable extensions"
    };
    Ok(Error::Message(String::from_str(alloc, message)?))
}

/// Goes past the gap behind the value, which must end the text and leave no line comment open.
fn close(cursor: &mut Cursor<'_>) -> Result<()>
    ensures text { cursor.new.text ≡ cursor.old.text }
    ensures value { MatchResult result
        (λ _. same_text (skip (cursor.old.rest ++ comma ∷ [])) (comma ∷ []) ≡ true)
        (λ _. same_text (skip (cursor.old.rest ++ comma ∷ [])) (comma ∷ []) ≡ false) }
    ensures ends { OnOk result (cursor.new.rest ≡ []) }
    ensures fault { IfErr result (λ e. (e ≡ TrailingCharacters) ⊎ IsOfReading e) }
    ensures turns { Scans 3 cursor.old cursor.new }
    ensures least { Counts (2 * bytes_in cursor.old.rest) cursor.old cursor.new }
{
    let behind = cursor.rest();
    // A line comment at the end is gone over twice.
    cursor.add_turns(2 * bytes_of(behind) as u128);
    pass_gap(cursor)?;
    match skip_closed_gap(behind) {
        Some(rest) if is_ended(rest) => Ok(()),
        Some(_) => Err(Error::TrailingCharacters),
        None => Err(Error::UnclosedLineComment),
    }
}

/// What of a raw text is its value, without the gaps around it.
pub(crate) fn core_of<'a>(alloc: Global, ron: &'a str) -> Result<&'a str>
    requires { raw_valid (chars ron.now) ≡ true }
    ensures { MatchResult result (λ core. chars core.now ≡ without_gaps (chars ron.now)) (λ e. e ≡ OutOfMemory) }
{
    let mut cursor = Cursor::new(ron);
    if cursor.pass_gap().is_err() {
        unreachable!()
    }
    pass_value(alloc, &mut cursor)
}
