//! What a value begins with.
ghost use Rattle.std.specs.Prelude.{◌≡◌};
ghost use Rattle.ron_spec_grammar.specs.Values.Grammar.{form};
ghost use Rattle.ron_lex.specs.Turns.{Grows, Stays, Looks};
ghost use Rattle.ron_de_untyped.specs.Form.{form_view, look_of};

use ron_lex::cursor::Cursor;

/// The kinds of what may stand first.
#[derive(Clone, Copy)]
pub(crate) enum Form {
    Character,
    Text,
    Bytes,
    List,
    Map,
    Group,
    /// A number or a range of numbers.
    Number,
    /// Nothing else stands there.
    Word,
}

/// What the text at the cursor begins with.
#[tactic(auto, unfolding(ron_spec_grammar::specs::Values::Grammar::form, ron_lex_text::proofs::StretchLemmas::literals))]
pub(crate) fn form_at(cursor: &mut Cursor<'_>) -> Form
    ensures place { Stays cursor.old cursor.new }
    ensures value { form_view result ≡ form cursor.old.rest }
    ensures turns { Looks (look_of result) cursor.old cursor.new }
    ensures grows { Grows cursor.old cursor.new }
{
    let Some(first) = cursor.first() else {
        return Form::Word;
    };
    match first {
        '\'' => Form::Character,
        '"' => Form::Text,
        '[' => Form::List,
        '{' => Form::Map,
        '(' => Form::Group,
        '+' | '-' | '0'..='9' => Form::Number,
        '.' if cursor.begins_with("..") => Form::Number,
        'b' if cursor.begins_with("b'") => Form::Number,
        'b' if cursor.opens_byte_string() => Form::Bytes,
        'r' if cursor.opens_string() => Form::Text,
        _ => Form::Word,
    }
}
