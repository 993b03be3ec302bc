//! Reading maps.
ghost use Rattle.std.specs.Prelude.{◌≡◌, ◌<◌, true, length, IfOk, OnOk, IfErr};
ghost use Rattle.ron_spec_words.specs.Characters.{right_brace};
ghost use Rattle.ron_spec_words.specs.Runs.{is_at};
ghost use Rattle.ron_spec_grammar.specs.Schema.{map};
ghost use Rattle.ron_de_steps.specs.Advance.{Advances};
ghost use Rattle.ron_de_parts.specs.Errors.{IsOfReading};
ghost use Rattle.ron_de.specs.Pairs.{ReadsPair, ReadsPairs};
ghost use Rattle.ron_de_parts.specs.Kept.{Kept};
ghost use Rattle.ron_de_parts.specs.Slices.{IsSliced, StringsAreSliced, PairIsSliced, PairsAreSliced};
ghost use Rattle.ron_de_parts.specs.Values.{ReadsShape};
ghost use Rattle.ron_de.specs.Turns.{SettlesShape, SpendsItems, LeadsPast};

use crate::value::read_value;
use ron_base::error::{Error, Result};
use ron_data::data::Data;
use ron_data::pairs::fold_pairs;
use ron_de_parts::context::Context;
use ron_de_steps::gap::pass_gap;
use ron_de_steps::steps::{pass_colon, read_comma};
use ron_lex::cursor::Cursor;

/// Reads a map whose keys are of one shape and whose values are of another.
#[cycle(read)]
#[inline(never)]
pub(crate) fn read_map<'o>(
    context: &Context<'_, 'o>,
    cursor: &mut Cursor<'_>,
    key: usize,
    value: usize,
) -> Result<Data<'o>>
    requires { (key < length context.now.schema) × (value < length context.now.schema) }
    ensures value { ReadsShape context.now (map key value) cursor.old result cursor.new.rest }
    ensures slice { IfOk result (IsSliced cursor.old.rest cursor.new.rest) }
    ensures advance { Advances (Kept context.now.source (StringsAreSliced cursor.old.rest) cursor.old.text) cursor.old result cursor.new }
    ensures turns { SettlesShape context.now.schema cursor.old result cursor.new }
{
    if !cursor.take('{') {
        return Err(Error::ExpectedMap);
    }
    pass_gap(cursor)?;
    let inner = context.deeper()?;
    let pairs = read_pairs(&inner, cursor, key, value)?;
    cursor.pass('}');
    let folded = fold_pairs(pairs)?;
    Ok(Data::Map(folded))
}

/// Reads pairs up to the closing brace. The context is that of the map's pairs, a level below the map.
#[cycle(read)]
fn read_pairs<'o>(
    context: &Context<'_, 'o>,
    cursor: &mut Cursor<'_>,
    key: usize,
    value: usize,
) -> Result<Vec<(Data<'o>, Data<'o>)>>
    requires in_range { (key < length context.now.schema) × (value < length context.now.schema) }
    ensures closed { OnOk result (is_at right_brace cursor.new.rest ≡ true) }
    ensures value { ReadsPairs context.now key value cursor.old result cursor.new.rest }
    ensures advance { Advances (Kept context.now.source (PairsAreSliced cursor.old.rest) cursor.old.text) cursor.old result cursor.new }
    ensures turns { SpendsItems context.now.schema cursor.old result cursor.new }
{
    let mut pairs = Vec::new(context.alloc());
    'pairs: while !cursor.is_at('}') {
        let pair = read_pair(context, cursor, key, value)?;
        pairs.push(pair)?;
        read_comma(cursor, '}')?;
    }
    pairs.shrink_to_fit();
    Ok(pairs)
}

/// Reads a key, the colon and the key's value, each a level below their map's pairs.
#[cycle(read)]
fn read_pair<'o>(
    context: &Context<'_, 'o>,
    cursor: &mut Cursor<'_>,
    key: usize,
    value: usize,
) -> Result<(Data<'o>, Data<'o>)>
    requires in_range { (key < length context.now.schema) × (value < length context.now.schema) }
    ensures text { cursor.new.text ≡ cursor.old.text }
    ensures shorter { OnOk result (length cursor.new.rest < length cursor.old.rest) }
    ensures value { ReadsPair context.now key value cursor.old result cursor.new.rest }
    ensures slices { IfOk result (Kept context.now.source (PairIsSliced cursor.old.rest) cursor.old.text) }
    ensures fault { IfErr result IsOfReading }
    ensures turns { SpendsItems context.now.schema cursor.old result cursor.new }
    ensures leads { LeadsPast cursor.old result cursor.new }
{
    let inner = context.deeper()?;
    let key = read_value(&inner, cursor, key)?;
    pass_colon(cursor)?;
    let value = read_value(&inner, cursor, value)?;
    Ok((key, value))
}
