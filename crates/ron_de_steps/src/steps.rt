//! What stands between values: brackets, colons and commas, with the gaps around them.
ghost use Rattle.std.specs.Prelude.{◌≡◌, ◌<◌, ◌≤◌, true, length, OnOk, IfOk, IfErr};
ghost use Rattle.ron_lex.specs.Turns.{Grows, Moves};
ghost use Rattle.ron_de_steps.specs.Errors.{IsOfText};
ghost use Rattle.ron_de_steps.specs.Steps.{past_mark, past_colon, past_close, past_comma, past_item, past_last_comma, GoesTo, Tells};

use crate::gap::pass_gap;
use ron_base::error::{Error, Result};
use ron_lex::cursor::Cursor;

/// Goes past this mark and the gap behind it.
#[inline(always)]
pub fn pass_mark(cursor: &mut Cursor<'_>, mark: char) -> Result<()>
    ensures text { cursor.new.text ≡ cursor.old.text }
    ensures value { GoesTo (past_mark mark cursor.old.rest) result (cursor.new.gap, cursor.new.rest) }
    ensures shorter { OnOk result (length cursor.new.rest < length cursor.old.rest) }
    ensures fault { IfErr result IsOfText }
    ensures turns { Moves 1 cursor.old result cursor.new }
    ensures grows { Grows cursor.old cursor.new }
{
    if !cursor.take(mark) {
        return Err(missing(mark));
    }
    pass_gap(cursor)
}

/// What is reported where a mark doesn't stand.
fn missing(mark: char) -> Error
    ensures { IsOfText result }
{
    match mark {
        '[' => Error::ExpectedArray,
        '{' => Error::ExpectedMap,
        ':' => Error::ExpectedMapColon,
        _ => Error::ExpectedStructLike,
    }
}

/// Goes past the gap behind a key, the colon and the gap behind that.
#[inline(always)]
pub fn pass_colon(cursor: &mut Cursor<'_>) -> Result<()>
    ensures text { cursor.new.text ≡ cursor.old.text }
    ensures value { GoesTo (past_colon cursor.old.rest) result (cursor.new.gap, cursor.new.rest) }
    ensures shorter { OnOk result (length cursor.new.rest < length cursor.old.rest) }
    ensures fault { IfErr result IsOfText }
    ensures turns { Moves 1 cursor.old result cursor.new }
    ensures grows { Grows cursor.old cursor.new }
{
    pass_gap(cursor)?;
    pass_mark(cursor, ':')
}

/// Goes past the gap behind what stands in a group, and the closing character.
#[inline(always)]
pub fn pass_close(cursor: &mut Cursor<'_>, close: char, is_option: bool) -> Result<()>
    ensures text { cursor.new.text ≡ cursor.old.text }
    ensures value { GoesTo (past_close close cursor.old.rest) result cursor.new.rest }
    ensures no_longer { OnOk result (length cursor.new.rest ≤ length cursor.old.rest) }
    ensures fault { IfErr result IsOfText }
    ensures turns { Moves 1 cursor.old result cursor.new }
    ensures grows { Grows cursor.old cursor.new }
{
    pass_gap(cursor)?;
    if cursor.take(close) {
        return Ok(());
    }
    if is_option {
        Err(Error::ExpectedOptionEnd)
    } else {
        Err(Error::ExpectedComma)
    }
}

/// Goes past the gap behind an item, and past a comma with its gap, where one stands. Answers whether one does.
#[inline(always)]
pub fn pass_comma(cursor: &mut Cursor<'_>) -> Result<bool>
    ensures text { cursor.new.text ≡ cursor.old.text }
    ensures value { Tells (past_comma cursor.old.rest) result (cursor.new.gap, cursor.new.rest) }
    ensures shorter { IfOk result (λ passed. passed ≡ true → length cursor.new.rest < length cursor.old.rest) }
    ensures no_longer { length cursor.new.rest ≤ length cursor.old.rest }
    ensures fault { IfErr result IsOfText }
    ensures turns { Moves 1 cursor.old result cursor.new }
    ensures grows { Grows cursor.old cursor.new }
{
    pass_gap(cursor)?;
    if !cursor.take(',') {
        return Ok(false);
    }
    pass_gap(cursor)?;
    Ok(true)
}

/// Goes past the gap behind an item, and past a comma with its gap; where there is no comma, the closing character
/// has to stand.
#[inline(always)]
pub fn read_comma(cursor: &mut Cursor<'_>, close: char) -> Result<()>
    ensures text { cursor.new.text ≡ cursor.old.text }
    ensures value { GoesTo (past_item close cursor.old.rest) result (cursor.new.gap, cursor.new.rest) }
    ensures no_longer { length cursor.new.rest ≤ length cursor.old.rest }
    ensures fault { IfErr result IsOfText }
    ensures turns { Moves 1 cursor.old result cursor.new }
    ensures grows { Grows cursor.old cursor.new }
{
    let is_passed = pass_comma(cursor)?;
    if is_passed || cursor.is_at(close) {
        Ok(())
    } else {
        Err(Error::ExpectedComma)
    }
}

/// Goes past the gap behind content, and past a comma, where one stands.
pub fn pass_last_comma(cursor: &mut Cursor<'_>) -> Result<()>
    ensures text { cursor.new.text ≡ cursor.old.text }
    ensures value { GoesTo (past_last_comma cursor.old.rest) result cursor.new.rest }
    ensures no_longer { OnOk result (length cursor.new.rest ≤ length cursor.old.rest) }
    ensures fault { IfErr result IsOfText }
    ensures turns { Moves 1 cursor.old result cursor.new }
    ensures grows { Grows cursor.old cursor.new }
{
    pass_gap(cursor)?;
    cursor.take(',');
    Ok(())
}
