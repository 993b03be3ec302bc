//! The words of options.
ghost use Rattle.std.specs.Prelude.{◌≡◌, ◌≤◌, ◌&&◌, not, length, codes};
ghost use Rattle.std.specs.Prelude.{MatchBool};
ghost use Rattle.ron_spec_words.specs.Directly.{stands, fixed_word};
ghost use Rattle.ron_spec_words.specs.Lang.{done};
ghost use Rattle.ron_spec_words.specs.Reader.{got};
ghost use Rattle.ron_spec_grammar.specs.Shapes.Option.{opens_option};
ghost use Rattle.ron_lex.specs.Turns.{Stays, GoesOver, Looks};
ghost use Rattle.ron_de_steps.specs.Spends.{Nears};

use crate::context::Context;
use ron_lex::cursor::Cursor;

/// Whether the word `None` stands here.
#[tactic(auto, unfolding(ron_lex_text::proofs::StretchLemmas::literals))]
pub fn is_none(cursor: &mut Cursor<'_>) -> bool
    ensures place { cursor.new ≡ cursor.old }
    ensures value { result ≡ stands (codes "None") cursor.old.rest }
{
    cursor.is_word("None")
}

/// Goes past the word `None`, where it stands here; else the cursor stays.
#[tactic(auto, unfolding(ron_lex_text::proofs::StretchLemmas::literals))]
pub fn take_none(cursor: &mut Cursor<'_>) -> bool
    ensures text { cursor.new.text ≡ cursor.old.text }
    ensures stands { result ≡ stands (codes "None") cursor.old.rest }
    ensures taken { MatchBool result (fixed_word (codes "None") done cursor.old.rest ≡ got done cursor.new.rest)
        (cursor.new ≡ cursor.old) }
    ensures no_longer { length cursor.new.rest ≤ length cursor.old.rest }
    ensures turns { GoesOver 1 cursor.old cursor.new }
    ensures near { Nears cursor.old cursor.new }
{
    cursor.take_word("None")
}

/// Whether the content of an option stands here alone, with no word for the option.
pub fn stands_alone(context: &Context<'_, '_>, cursor: &mut Cursor<'_>) -> bool
    ensures place { Stays cursor.old cursor.new }
    ensures turns { Looks 1 cursor.old cursor.new }
    ensures value { result ≡ (context.now.extensions.implicit_some && not (opens_option cursor.old.rest)) }
{
    if !context.implies_some() {
        return false;
    }
    !(is_none(cursor) || cursor.opens_some())
}
