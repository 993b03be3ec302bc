//! What a `Some` holds. Where that is itself a `Some`, and so on, a loop goes in, and another one out: a chain of them
//! takes no more of the stack than one.
// A chain of `Some`s is no recursion. What a `Some` holds is gone into as long as it is itself a `Some`, a level
// deeper each; the innermost content is read once, and then as many are closed. Where `Some` stands without a
// parenthesis, or beside fields or other items, the chain ends, and what is held there is read as any other value. So
// each error is named where the recursion named it. Under `unwrap_variant_newtypes` the kind of what is held is asked
// for only where an `S` stands: no `Some` begins otherwise.

ghost use Rattle.std.specs.Prelude.{◌≡◌, ◌<◌, ◌≤◌, true, false, length, OnOk, IfOk, IfErr};
ghost use Rattle.ron_spec_words.specs.Characters.{left_parenthesis};
ghost use Rattle.ron_spec_words.specs.Reader.{got};
ghost use Rattle.ron_base.specs.declared.error.Error.TheVariants.{OutOfMemory};
ghost use Rattle.ron_lex.specs.Turns.{Grows, Stays, Moves};
ghost use Rattle.ron_value.specs.View.{tree_of};
ghost use Rattle.ron_de_steps.specs.Advance.{Advances};
ghost use Rattle.ron_de_steps.specs.Errors.{IsOfText, IsOfReading};
ghost use Rattle.ron_de_steps.specs.Reads.{Reads};
ghost use Rattle.ron_de_steps.specs.Spends.{IsOpened, SpendsAny, SettlesUntyped};
ghost use Rattle.ron_de_steps.specs.Steps.{past_mark, GoesTo};
ghost use Rattle.ron_de_untyped.specs.Count.{EntersUntyped, HoldsUntyped, SettlesBehind};
ghost use Rattle.ron_de_untyped.specs.Order.{HoldsOrder};
ghost use Rattle.ron_de_untyped.specs.Somes.{IsOne, IsLast, EntersNext, EntersSomes, closed, closed_within, closed_times};
ghost use Rattle.ron_de_untyped.specs.Values.{unwraps, ReadsHeld, ReadsSome};

use crate::value::read_any;
use ron_base::error::{Error, Result};
use ron_de_steps::context::Context;
use ron_de_steps::gap::pass_gap;
use ron_de_steps::steps::{pass_close, pass_last_comma, pass_mark};
use ron_lex::cursor::Cursor;
use ron_lex::kinds::Kind;
use ron_value::value::Value;
use std::alloc::Global;

/// Reads a `Some` from behind its word and the gap there: what it holds, a level deeper, in parentheses.
#[cycle(read)]
#[inline(never)]
pub(crate) fn read_some(context: &Context, cursor: &mut Cursor<'_>) -> Result<Value>
    ensures value { ReadsSome context.now cursor.old result cursor.new.rest }
    ensures advance { Advances HoldsOrder cursor.old result cursor.new }
    ensures turns { SettlesUntyped cursor.old result cursor.new }
    ensures grows { Grows cursor.old cursor.new }
{
    open_some(cursor)?;
    let mut inner = context.deeper()?;
    let depth = enter_somes(&mut inner, cursor)?;
    let held = read_held(&inner, cursor)?;
    close_somes(context.alloc(), cursor, held, depth)
}

/// Goes past the opening parenthesis and the gap behind it.
fn open_some(cursor: &mut Cursor<'_>) -> Result<()>
    ensures text { cursor.new.text ≡ cursor.old.text }
    ensures value { GoesTo (past_mark left_parenthesis cursor.old.rest) result (cursor.new.gap, cursor.new.rest) }
    ensures shorter { OnOk result (length cursor.new.rest < length cursor.old.rest) }
    ensures fault { IfErr result IsOfText }
    ensures turns { Moves 1 cursor.old result cursor.new }
    ensures grows { Grows cursor.old cursor.new }
{
    if !cursor.is_at('(') {
        return Err(Error::ExpectedOption);
    }
    pass_mark(cursor, '(')
}

/// Goes in as long as what is held is itself a `Some` and nothing else, a level deeper each. Answers how many there are.
#[inline(never)]
fn enter_somes(context: &mut Context, cursor: &mut Cursor<'_>) -> Result<usize>
    ensures text { cursor.new.text ≡ cursor.old.text }
    ensures extensions { context.new.extensions ≡ context.old.extensions }
    ensures value { EntersSomes context.old cursor.old result context.new cursor.new }
    ensures last { OnOk result (IsLast (unwraps context.new) cursor.new.rest) }
    ensures no_longer { OnOk result (length cursor.new.rest ≤ length cursor.old.rest) }
    ensures fault { IfErr result IsOfReading }
    ensures turns { HoldsUntyped cursor.old result cursor.new }
    ensures grows { Grows cursor.old cursor.new }
    ensures opens { OnOk result (IsOpened cursor.old → IsOpened cursor.new) }
{
    let size = cursor.rest().len();
    let mut depth = 0;
    'somes: loop {
        let is_next = enter_next(context, cursor)?;
        if !is_next {
            return Ok(depth);
        }
        *context = context.deeper()?;
        prove!(depth < size);
        depth += 1;
    }
}

/// Goes past the word `Some`, the opening parenthesis and the gaps behind them, where what is held here is a `Some` and
/// nothing else; else the cursor stays.
fn enter_next(context: &Context, cursor: &mut Cursor<'_>) -> Result<bool>
    ensures text { cursor.new.text ≡ cursor.old.text }
    ensures value { EntersNext (unwraps context.now) cursor.old result cursor.new }
    ensures last { IfOk result (λ next. next ≡ false → IsLast (unwraps context.now) cursor.new.rest) }
    ensures shorter { IfOk result (λ next. next ≡ true → length cursor.new.rest < length cursor.old.rest) }
    ensures fault { IfErr result IsOfReading }
    ensures turns { EntersUntyped cursor.old result cursor.new }
    ensures grows { Grows cursor.old cursor.new }
    ensures opens { OnOk result (IsOpened cursor.old → IsOpened cursor.new) }
{
    let is_one = holds_one(context, cursor)?;
    if !is_one {
        return Ok(false);
    }
    if !cursor.take_some() {
        return Ok(false);
    }
    pass_gap(cursor)?;
    Ok(true)
}

/// Whether what is held here is one value, where it may be a `Some`: bare content may be fields or several items.
fn holds_one(context: &Context, cursor: &mut Cursor<'_>) -> Result<bool>
    ensures place { Stays cursor.old cursor.new }
    ensures value { IfOk result (λ one. one ≡ true → IsOne (unwraps context.now) cursor.old.rest) }
    ensures last { IfOk result (λ one. one ≡ false → IsLast (unwraps context.now) cursor.old.rest) }
    ensures fault { IfErr result (λ e. e ≡ OutOfMemory) }
    ensures turns { IsOpened cursor.old → cursor.new.turns ≤ cursor.old.turns }
    ensures grows { Grows cursor.old cursor.new }
{
    if !context.unwraps_variants() {
        return Ok(true);
    }
    if !cursor.is_at('S') {
        return Ok(false);
    }
    match cursor.kind(context.alloc())? {
        Kind::Named | Kind::Many => Ok(false),
        Kind::Newtype | Kind::Broken => Ok(true),
    }
}

/// Reads what a `Some` holds: bare where that is unwrapped, else a value with perhaps a comma behind it.
#[cycle(read)]
fn read_held(context: &Context, cursor: &mut Cursor<'_>) -> Result<Value>
    ensures value { ReadsHeld context.now cursor.old result cursor.new.rest }
    ensures advance { Advances HoldsOrder cursor.old result cursor.new }
    ensures turns { SpendsAny true 2 cursor.old result cursor.new }
    ensures grows { Grows cursor.old cursor.new }
{
    let is_bare = context.unwraps_variants();
    let value = read_any(context, cursor, is_bare)?;
    if is_bare {
        return Ok(value);
    }
    pass_last_comma(cursor)?;
    Ok(value)
}

/// Goes out past what closes so many `Some`s and the one around them, and gives the last.
#[inline(never)]
fn close_somes(
    alloc: Global,
    cursor: &mut Cursor<'_>,
    mut held: Value,
    depth: usize,
) -> Result<Value>
    requires { HoldsOrder held }
    ensures value { Reads tree_of result (closed (closed_times depth (got (tree_of held) cursor.old.rest)))
        cursor.new.rest }
    ensures advance { Advances HoldsOrder cursor.old result cursor.new }
    ensures turns { SettlesBehind cursor.old result cursor.new }
    ensures grows { Grows cursor.old cursor.new }
{
    let mut left = depth;
    'somes: while left > 0 {
        held = close_within(alloc, cursor, held)?;
        left -= 1;
    }
    close_some(alloc, cursor, held)
}

/// Goes past what closes a `Some` and, if one stands there, the comma behind it, and gives what the next one holds.
fn close_within(alloc: Global, cursor: &mut Cursor<'_>, held: Value) -> Result<Value>
    requires { HoldsOrder held }
    ensures value { Reads tree_of result (closed_within (got (tree_of held) cursor.old.rest)) cursor.new.rest }
    ensures advance { Advances HoldsOrder cursor.old result cursor.new }
    ensures turns { SettlesBehind cursor.old result cursor.new }
    ensures grows { Grows cursor.old cursor.new }
{
    let value = close_some(alloc, cursor, held)?;
    pass_last_comma(cursor)?;
    Ok(value)
}

/// Goes past the gap and the closing parenthesis behind what a `Some` holds, and gives the `Some`.
fn close_some(alloc: Global, cursor: &mut Cursor<'_>, held: Value) -> Result<Value>
    requires { HoldsOrder held }
    ensures value { Reads tree_of result (closed (got (tree_of held) cursor.old.rest)) cursor.new.rest }
    ensures advance { Advances HoldsOrder cursor.old result cursor.new }
    ensures turns { SettlesBehind cursor.old result cursor.new }
    ensures grows { Grows cursor.old cursor.new }
{
    pass_close(cursor, ')', true)?;
    Value::option(alloc, Some(held))
}
