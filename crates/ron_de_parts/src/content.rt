//! The end of what stands in parentheses alone: the content of a `Some`, of a newtype, or of a variant with one value.
// A closing parenthesis that is missing is `ExpectedOptionEnd` behind the content of a `Some` and
// `ExpectedStructLikeEnd` elsewhere; what calls for the content hands on which (`Holder`). Items and fields of bare
// content tell their faults as in a tuple or struct of their own. A variant that holds something and has no
// parenthesis is `ExpectedStructLike`, without a name; of one with fields that is asked before the fields' own
// function, which would name the variant.

ghost use Rattle.std.specs.Prelude.{◌≡◌, ◌≤◌, length, IfErr, OnOk};
ghost use Rattle.ron_spec_words.specs.Characters.{right_parenthesis};
ghost use Rattle.ron_lex.specs.Turns.{Moves};
ghost use Rattle.ron_de_steps.specs.Spends.{Nears};
ghost use Rattle.ron_de_steps.specs.Steps.{past_close, GoesTo};
ghost use Rattle.ron_de_parts.specs.Errors.{IsOfText};
ghost use Rattle.ron_de_parts.specs.Steps.{past_end, past_bare_end};

use ron_base::error::{Error, Result};
use ron_de_steps::gap::pass_gap;
use ron_lex::cursor::Cursor;

/// What content in parentheses belongs to, which decides how a missing end is reported.
#[derive(Clone, Copy)]
pub enum Holder {
    Some,
    Struct,
}

/// Goes past the gap behind content, perhaps a comma with its gap, and the closing parenthesis.
pub fn close_content(cursor: &mut Cursor<'_>, holder: Holder) -> Result<()>
    ensures text { cursor.new.text ≡ cursor.old.text }
    ensures value { GoesTo (past_end cursor.old.rest) result cursor.new.rest }
    ensures no_longer { length cursor.new.rest ≤ length cursor.old.rest }
    ensures fault { IfErr result IsOfText }
    ensures turns { Moves 1 cursor.old result cursor.new }
    ensures near { OnOk result (Nears cursor.old cursor.new) }
{
    pass_gap(cursor)?;
    close_bare(cursor, holder)
}

/// Goes past perhaps a comma, a gap, and the closing parenthesis.
pub fn close_bare(cursor: &mut Cursor<'_>, holder: Holder) -> Result<()>
    ensures text { cursor.new.text ≡ cursor.old.text }
    ensures value { GoesTo (past_bare_end cursor.old.rest) result cursor.new.rest }
    ensures no_longer { length cursor.new.rest ≤ length cursor.old.rest }
    ensures fault { IfErr result IsOfText }
    ensures turns { Moves 1 cursor.old result cursor.new }
    ensures near { OnOk result (Nears cursor.old cursor.new) }
{
    cursor.take(',');
    close_alone(cursor, holder)
}

/// Goes past a gap and the closing parenthesis, where no comma may stand.
pub fn close_alone(cursor: &mut Cursor<'_>, holder: Holder) -> Result<()>
    ensures text { cursor.new.text ≡ cursor.old.text }
    ensures value { GoesTo (past_close right_parenthesis cursor.old.rest) result cursor.new.rest }
    ensures no_longer { length cursor.new.rest ≤ length cursor.old.rest }
    ensures fault { IfErr result IsOfText }
    ensures turns { Moves 1 cursor.old result cursor.new }
    ensures near { OnOk result (Nears cursor.old cursor.new) }
{
    pass_gap(cursor)?;
    if cursor.take(')') {
        return Ok(());
    }
    match holder {
        Holder::Some => Err(Error::ExpectedOptionEnd),
        Holder::Struct => Err(Error::ExpectedStructLikeEnd),
    }
}
