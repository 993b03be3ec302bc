//! What a raw text takes of the gaps around its value.
ghost use Rattle.std.specs.Prelude.{◌≡◌, ◌≤◌, ◌+◌, ◌*◌, ◌++◌, false, chars};
ghost use Rattle.ron_spec_words.specs.Beyond.{bytes_in};
ghost use Rattle.ron_spec_grammar.specs.Raw.{trim_back, leaves_open, kept, is_name_alone};
ghost use Rattle.ron_lex_text.specs.Stretch.{IsSuffix};
ghost use Rattle.ron_lex.specs.Turns.{Stays, Counts, Grows};
ghost use Rattle.ron_de_raw.specs.Reading.{taken_before, taken_behind, looked_behind};

use ron_lex::cursor::Cursor;
use ron_lex::gap::{skip_closed_gap, skip_line};
use ron_lex_text::text::{Class, before, is_at, is_ended, skip_run, split_first};

/// How many bytes a text has.
pub(crate) fn bytes_of(text: &str) -> usize
    ensures { result ≡ bytes_in (chars text.now) }
{
    text.len()
}

/// Where a raw text begins whose value begins at the cursor. The gap before that is counted if it is looked through.
pub(crate) fn raw_start<'a>(cursor: &mut Cursor<'a>, is_at_start: bool) -> &'a str
    ensures chars { chars result.now ≡ taken_before is_at_start cursor.old.gap ++ cursor.old.rest }
    ensures end { IsSuffix (chars result.now) cursor.old.text }
    ensures place { Stays cursor.old cursor.new }
    ensures turns { cursor.new.turns ≤ cursor.old.turns + bytes_in cursor.old.gap }
    ensures grows { Grows cursor.old cursor.new }
    ensures least { is_at_start ≡ false → Counts (bytes_in cursor.old.gap) cursor.old cursor.new }
{
    let gap = cursor.gap();
    if is_at_start {
        return cursor.rest_behind(gap);
    }
    cursor.add_turns(bytes_of(gap) as u128);
    cursor.rest_behind(skip_run(gap, Class::White))
}

/// Where one ends whose value is `core`, and behind it the gap before the cursor. What is looked through of these is
/// counted.
pub(crate) fn raw_end<'a>(cursor: &mut Cursor<'a>, core: &str, is_at_start: bool) -> &'a str
    ensures chars { cursor.old.gap ++ cursor.old.rest ≡
        taken_behind is_at_start (chars core.now) cursor.old.gap ++ chars result.now }
    ensures end { IsSuffix cursor.old.rest (chars result.now) }
    ensures place { Stays cursor.old cursor.new }
    ensures turns { cursor.new.turns ≤ cursor.old.turns + bytes_in (chars core.now) + 3 * bytes_in cursor.old.gap }
    ensures grows { Grows cursor.old cursor.new }
    ensures least { is_at_start ≡ false → Counts (looked_behind (chars core.now) cursor.old.gap) cursor.old cursor.new }
{
    if is_at_start {
        return cursor.rest();
    }
    cursor.add_turns(bytes_of(core) as u128);
    if is_name_alone(core) {
        return cursor.rest();
    }
    let gap = cursor.gap();
    // It is gone over for the white space at its end, and up to twice for a line comment that is left open.
    cursor.add_turns(3 * bytes_of(gap) as u128);
    cursor.rest_behind(left_behind(gap))
}

/// Whether a value is a name alone.
fn is_name_alone(core: &str) -> bool
    ensures { result ≡ is_name_alone (chars core.now) }
{
    let mut cursor = Cursor::new(core);
    match cursor.untyped_name() {
        Some(_) => cursor.is_at_end(),
        None => false,
    }
}

/// What a raw text leaves of a gap behind its value: the white space at the end, but for what closes a line comment.
fn left_behind(gap: &str) -> &str
    ensures { chars gap.now ≡ kept (chars gap.now) ++ chars result.now }
{
    let white = trailing_white(gap);
    if leaves_open(before(gap, white)) {
        skip_line(white)
    } else {
        white
    }
}

/// The white space at the end of a text.
fn trailing_white(text: &str) -> &str
    ensures { chars text.now ≡ trim_back (chars text.now) ++ chars result.now }
{
    let mut white = text;
    let mut rest = text;
    while let Some((first, after)) = split_first(rest) {
        if !first.is_whitespace() {
            white = after;
        }
        rest = after;
    }
    white
}

/// Whether a gap, or a front of one, leaves a line comment open.
fn leaves_open(gap: &str) -> bool
    ensures { result ≡ leaves_open (chars gap.now) }
{
    match skip_closed_gap(gap) {
        Some(rest) => !(is_ended(rest) | is_at(rest, ',')),
        None => true,
    }
}
