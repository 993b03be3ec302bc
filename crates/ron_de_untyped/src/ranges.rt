//! Numbers, and ranges of them.
ghost use Rattle.std.specs.Prelude.{◌≡◌, Bool, true, false, Option, Some, None, chars, encode_utf8_all, map, All, IfOk, IfErr, IfSome, IsSome, MatchResult};
ghost use Rattle.ron_spec_words.specs.Number as words;
ghost use Rattle.ron_spec_words.specs.Range.{range, number_or_range};
ghost use Rattle.ron_spec_words.specs.Reader.{means};
ghost use Rattle.ron_base.specs.declared.error.Error.TheVariants.{OutOfMemory};
ghost use Rattle.ron_value.specs.Tree as tree;
ghost use Rattle.ron_value.specs.View.{tree_of, pair_tree};
ghost use Rattle.ron_spec_grammar.specs.Values.Trees.{mapped};
ghost use Rattle.ron_spec_grammar.specs.Values.Grammar.{number_tree, interval_value};
ghost use Rattle.ron_lex.specs.Numeral.{numeral_view};
ghost use Rattle.ron_lex.specs.Range.{start_view};
ghost use Rattle.ron_lex.specs.Turns.{Grows};
ghost use Rattle.ron_de_steps.specs.Advance.{Advances};
ghost use Rattle.ron_de_steps.specs.Errors.{IsMemoryOr, IsOfReading, IsOfText};
ghost use Rattle.ron_de_steps.specs.Reads.{Reads};
ghost use Rattle.ron_de_steps.specs.Spends.{SpendsUntyped};
ghost use Rattle.ron_de_untyped.specs.Order.{HoldsOrder, HoldsPairOrder};

use crate::leaves::text_value;
use ron_base::error::{Error, Result};
use ron_de_steps::faults::number_error;
use ron_lex::cursor::Cursor;
use ron_lex::interval::Interval;
use ron_lex::numeral::Numeral;
use ron_value::map::Map;
use ron_value::value::Value;
use ron_value_number::written::written_number;
use std::alloc::Global;

/// Reads a number or a range of numbers. A number, an integer or a byte literal, is of its suffix's width or of the
/// smallest that holds it; a float is refused. A range is a map of its start and its end, and the unit where it has
/// neither.
#[inline(never)]
pub(crate) fn read_interval(alloc: Global, cursor: &mut Cursor<'_>) -> Result<Value>
    ensures value { Reads tree_of result (means number_or_range interval_value cursor.old.rest) cursor.new.rest }
    ensures advance { Advances HoldsOrder cursor.old result cursor.new }
    ensures turns { SpendsUntyped 2 cursor.old result cursor.new }
    ensures grows { Grows cursor.old cursor.new }
{
    let before = cursor.mark();
    match cursor.number_or_range() {
        Ok(Interval::One(number)) => number_value(number),
        Ok(Interval::Range { start, end, .. }) => {
            if !is_unfit(start) {
                return range_value(alloc, start, end);
            }
            // The fault's place is directly behind the start.
            cursor.return_to(&before);
            let _ = cursor.untyped_integer();
            Err(Error::IntegerOutOfBounds)
        }
        Err(fault) => Err(number_error(fault)),
    }
}

/// Whether a range's start is a number that its own width does not hold.
fn is_unfit(start: Option<Numeral<'_>>) -> bool
    ensures unfit { result ≡ true → (closed : Bool) (end : Option words.Numeral)
        → interval_value (range (start_view start.entry) closed end) ≡ None }
    ensures fit { result ≡ false → IfSome (start_view start.entry) (λ n. IsSome (number_tree n)) }
{
    match start {
        Some(start) => number_value(start).is_err(),
        None => false,
    }
}

#[inline(always)]
fn number_value(numeral: Numeral<'_>) -> Result<Value>
    ensures value { MatchResult result (λ v. number_tree (numeral_view numeral.entry) ≡ Some (tree_of v))
        (λ _. number_tree (numeral_view numeral.entry) ≡ None) }
    ensures order { IfOk result HoldsOrder }
    ensures fault { IfErr result IsOfText }
{
    match written_number(numeral.suffix, numeral.is_negative, numeral.magnitude) {
        Some(number) => Ok(Value::Number(number)),
        None => Err(Error::IntegerOutOfBounds),
    }
}

/// A range with this start and this end, whether it is closed or not.
#[tactic(auto, unfolding(ron_lex_text::proofs::StretchLemmas::literals))]
fn range_value(alloc: Global, start: Option<Numeral<'_>>, end: Option<Numeral<'_>>) -> Result<Value>
    ensures value { (closed : Bool) → MatchResult result
        (λ v. interval_value (range (start_view start.entry) closed (start_view end.entry)) ≡ Some (tree_of v))
        (IsMemoryOr (interval_value (range (start_view start.entry) closed (start_view end.entry)) ≡ None)) }
    ensures order { IfOk result HoldsOrder }
    ensures fault { IfErr result IsOfReading }
{
    match (start, end) {
        (None, None) => Ok(Value::Unit),
        (Some(start), None) => {
            let start = bound(alloc, "start", start)?;
            map_of(vec![in alloc; start]?)
        }
        (None, Some(end)) => {
            let end = bound(alloc, "end", end)?;
            map_of(vec![in alloc; end]?)
        }
        (Some(start), Some(end)) => {
            let start = bound(alloc, "start", start)?;
            let end = bound(alloc, "end", end)?;
            map_of(vec![in alloc; start, end]?)
        }
    }
}

/// A number with its key.
fn bound(alloc: Global, key: &str, numeral: Numeral<'_>) -> Result<(Value, Value)>
    ensures key { IfOk result (λ p. tree_of p.0 ≡ tree.text (encode_utf8_all (chars key.now))) }
    ensures value { MatchResult result (λ p. number_tree (numeral_view numeral.entry) ≡ Some (tree_of p.1))
        (IsMemoryOr (number_tree (numeral_view numeral.entry) ≡ None)) }
    ensures order { IfOk result HoldsPairOrder }
    ensures fault { IfErr result IsOfReading }
{
    let number = number_value(numeral)?;
    Ok((text_value(alloc, key)?, number))
}

fn map_of(pairs: Vec<(Value, Value)>) -> Result<Value>
    requires { All HoldsPairOrder pairs.items }
    ensures value { MatchResult result (λ v. tree_of v ≡ mapped (map pair_tree pairs.items)) (λ e. e ≡ OutOfMemory) }
    ensures order { IfOk result HoldsOrder }
{
    Ok(Value::Map(Map::from_pairs(pairs)?))
}
