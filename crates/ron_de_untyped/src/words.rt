//! Values that begin with a word, and the unit: the words before what they hold.
ghost use Rattle.std.specs.Prelude.{◌≡◌, ◌≤◌, ◌<◌, codes, drop, length, true, false, IfErr, OnOk, MatchBool, MatchOption};
ghost use Rattle.ron_spec_words.specs.Reader.{Reader, got};
ghost use Rattle.ron_spec_words.specs.Directly.{stands};
ghost use Rattle.ron_spec_words.specs.Lang.{done};
ghost use Rattle.ron_spec_words.specs.Openings.{Leads};
ghost use Rattle.ron_spec_words.specs.Runs.{begins_with};
ghost use Rattle.ron_spec_grammar.specs.Shapes.Unit.{empty_brackets};
ghost use Rattle.ron_value.specs.Tree.{Tree};
ghost use Rattle.ron_value.specs.Ordered.{IsOrdered};
ghost use Rattle.ron_value.specs.View.{tree_of};
ghost use Rattle.ron_lex.specs.Turns.{Grows};
ghost use Rattle.ron_de_steps.specs.Errors.{IsOfText};
ghost use Rattle.ron_de_untyped.specs.Count.{PassesWord, PassesUntyped};
ghost use Rattle.ron_de_untyped.specs.Words.{fixed_or, some_or, named_or, Enters};

use ron_base::error::{Error, Result};
use ron_de_steps::gap::pass_gap;
use ron_lex::cursor::Cursor;
use ron_value::value::Value;

/// Goes past `()`, with no gap within, where it stands here.
#[tactic(auto, unfolding(ron_lex_text::proofs::StretchLemmas::literals))]
#[inline(never)]
pub(crate) fn take_unit(cursor: &mut Cursor<'_>) -> bool
    ensures text { cursor.new.text ≡ cursor.old.text }
    ensures value { MatchBool result
        ((begins_with (codes "()") cursor.old.rest ≡ true) × (empty_brackets cursor.old.rest ≡ got done cursor.new.rest))
        ((begins_with (codes "()") cursor.old.rest ≡ false) × (cursor.new.rest ≡ cursor.old.rest)) }
    ensures no_longer { length cursor.new.rest ≤ length cursor.old.rest }
    ensures turns { MatchBool result (PassesWord cursor.old cursor.new) (cursor.new ≡ cursor.old) }
    ensures grows { Grows cursor.old cursor.new }
{
    cursor.take_text("()")
}

/// Goes past the word of a boolean, or `None`, and gives what it stands for; else the cursor stays.
#[tactic(auto, unfolding(ron_lex_text::proofs::StretchLemmas::literals))]
#[inline(never)]
pub(crate) fn take_fixed(cursor: &mut Cursor<'_>) -> Option<Value>
    ensures text { cursor.new.text ≡ cursor.old.text }
    ensures value { (other : Reader Tree) → MatchOption result
        ((fixed_or other cursor.old.rest ≡ other cursor.old.rest) × (cursor.new.rest ≡ cursor.old.rest))
        (λ v. fixed_or other cursor.old.rest ≡ got (tree_of v) cursor.new.rest) }
    ensures ordered { MatchOption result (Unit {0}) (λ v. IsOrdered (tree_of v)) }
    ensures no_longer { length cursor.new.rest ≤ length cursor.old.rest }
    ensures turns { MatchOption result (cursor.new ≡ cursor.old) (λ _. PassesWord cursor.old cursor.new) }
    ensures grows { Grows cursor.old cursor.new }
{
    if cursor.take_word("true") {
        return Some(Value::Bool(true));
    }
    if cursor.take_word("false") {
        return Some(Value::Bool(false));
    }
    if cursor.take_word("None") {
        return Some(Value::Option(None));
    }
    None
}

/// Goes past the word `Some` and the gap behind it, where the word stands here; else the cursor stays.
#[inline(never)]
pub(crate) fn enter_some(cursor: &mut Cursor<'_>) -> Result<bool>
    ensures text { cursor.new.text ≡ cursor.old.text }
    ensures value { Enters some_or cursor.old result cursor.new }
    ensures no_longer { OnOk result (length cursor.new.rest ≤ length cursor.old.rest) }
    ensures fault { IfErr result IsOfText }
    ensures turns { PassesUntyped 1 1 cursor.old result cursor.new }
    ensures grows { Grows cursor.old cursor.new }
    ensures leads { OnOk result (Leads cursor.old.rest cursor.new.rest) }
{
    if !take_some(cursor) {
        return Ok(false);
    }
    pass_gap(cursor)?;
    Ok(true)
}

/// Goes past the word `Some`, where it stands here.
#[tactic(auto, unfolding(ron_lex_text::proofs::StretchLemmas::literals))]
fn take_some(cursor: &mut Cursor<'_>) -> bool
    ensures text { cursor.new.text ≡ cursor.old.text }
    ensures value { MatchBool result
        ((stands (codes "Some") cursor.old.rest ≡ true) × (cursor.new.rest ≡ drop 4 cursor.old.rest))
        ((stands (codes "Some") cursor.old.rest ≡ false) × (cursor.new.rest ≡ cursor.old.rest)) }
    ensures no_longer { length cursor.new.rest ≤ length cursor.old.rest }
    ensures turns { MatchBool result (PassesWord cursor.old cursor.new) (cursor.new ≡ cursor.old) }
    ensures grows { Grows cursor.old cursor.new }
{
    cursor.take_word("Some")
}

/// Goes past a name and the gap behind it, where `(` follows; else the cursor stays.
#[inline(never)]
pub(crate) fn enter_named(cursor: &mut Cursor<'_>) -> Result<bool>
    ensures text { cursor.new.text ≡ cursor.old.text }
    ensures value { Enters named_or cursor.old result cursor.new }
    ensures no_longer { OnOk result (length cursor.new.rest ≤ length cursor.old.rest) }
    ensures fault { IfErr result IsOfText }
    ensures turns { PassesUntyped 1 0 cursor.old result cursor.new }
    ensures grows { Grows cursor.old cursor.new }
    ensures leads { OnOk result (Leads cursor.old.rest cursor.new.rest) }
{
    if !cursor.opens_named_group() {
        return Ok(false);
    }
    if cursor.untyped_name().is_none() {
        return Err(Error::ExpectedIdentifier);
    }
    pass_gap(cursor)?;
    Ok(true)
}
