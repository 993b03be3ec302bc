//! Gaps, where what stands behind them is read.
ghost use Rattle.std.specs.Prelude.{◌≡◌, true, false, ◌≤◌, length, OnOk, IfErr, MatchResult};
ghost use Rattle.ron_spec_words.specs.Characters.{slash};
ghost use Rattle.ron_spec_words.specs.Gap.{skip, gap_of};
ghost use Rattle.ron_spec_words.specs.Runs.{is_at};
ghost use Rattle.ron_lex.specs.Turns.{Grows, Moves};
ghost use Rattle.ron_de_steps.specs.Errors.{IsOfText};

use ron_base::error::{Error, Result};
use ron_lex::cursor::Cursor;
use ron_lex::gap::GapFault;

/// Goes past the longest gap. A slash behind it is refused; the cursor is then behind the stretch at fault.
#[inline(always)]
pub fn pass_gap(cursor: &mut Cursor<'_>) -> Result<()>
    ensures text { cursor.new.text ≡ cursor.old.text }
    ensures slash { MatchResult result (λ _. is_at slash (skip cursor.old.rest) ≡ false)
        (λ _. is_at slash (skip cursor.old.rest) ≡ true) }
    ensures rest { OnOk result (cursor.new.rest ≡ skip cursor.old.rest) }
    ensures token_start { cursor.new.token_start ≡ skip cursor.old.rest }
    ensures gap { OnOk result (cursor.new.gap ≡ gap_of cursor.old.rest) }
    ensures no_longer { length cursor.new.rest ≤ length cursor.old.rest }
    ensures fault { IfErr result IsOfText }
    ensures turns { Moves 1 cursor.old result cursor.new }
    ensures grows { Grows cursor.old cursor.new }
{
    match cursor.pass_gap() {
        Ok(()) => Ok(()),
        Err(fault) => Err(gap_error(fault)),
    }
}

/// What is reported of a slash that ends a gap.
fn gap_error(fault: GapFault) -> Error
    ensures { IsOfText result }
{
    match fault {
        GapFault::Eof => Error::Eof,
        GapFault::UnclosedBlockComment => Error::UnclosedBlockComment,
        GapFault::UnexpectedChar(character) => Error::UnexpectedChar(character),
    }
}
