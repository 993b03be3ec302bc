//! Data and values that nest deep, of a caller's own making, and what takes stack for each of their levels.
use anyhow::{Result, bail};
use ron::Options;
use ron::schema::{Data, Schema, Shape};
use ron::value::Value as Untyped;
use ron_data_convert::into_data;
use ron_test_requests::json::{count_of, member, text_of};
use serde_json::Value;
use std::alloc::{AllocError, Global};
use std::fmt::Write;

/// Makes lists in one another, as many as `levels` says, without a call for each, and does with them what `call` says. It
/// appends whether that came out as it should. Whatever the call leaves is taken apart list by list.
pub fn push_deep(json: &mut String, alloc: Global, request: &Value) -> Result<()> {
    let levels = count_of(member(request, "levels")?)?;
    let holds = match text_of(member(request, "call")?)? {
        "drop" => is_dropped(alloc, levels)?,
        "compare" => is_compared(alloc, levels)?,
        "own" => is_owned(alloc, levels)?,
        "write" => is_written(alloc, levels)?,
        "drop_value" => is_value_dropped(alloc, levels)?,
        "compare_values" => are_values_compared(alloc, levels)?,
        "clone_value" => is_value_cloned(alloc, levels)?,
        "convert" => is_converted(alloc, levels)?,
        other => bail!("no call {other}"),
    };
    Ok(write!(json, "\"ok\":{holds}")?)
}

fn is_dropped(alloc: Global, levels: usize) -> Result<bool, AllocError> {
    let data = lists_of_data(alloc, levels)?;
    drop(data);
    Ok(true)
}

fn is_compared(alloc: Global, levels: usize) -> Result<bool, AllocError> {
    let (one, other) = (lists_of_data(alloc, levels)?, lists_of_data(alloc, levels)?);
    let is_same = one == other;
    take_apart(one, levels);
    take_apart(other, levels);
    Ok(is_same)
}

fn is_owned(alloc: Global, levels: usize) -> Result<bool> {
    let owned = lists_of_data(alloc, levels)?.into_owned(alloc)?;
    Ok(take_apart(owned, levels) == levels)
}

fn is_written(alloc: Global, levels: usize) -> Result<bool> {
    let data = lists_of_data(alloc, levels)?;
    let options = Options::default().without_recursion_limit();
    let written = options.to_string_data(alloc, &data, None);
    take_apart(data, levels);
    Ok(written?.len() == levels.saturating_mul(2))
}

fn is_value_dropped(alloc: Global, levels: usize) -> Result<bool, AllocError> {
    let value = lists_of_values(alloc, levels)?;
    drop(value);
    Ok(true)
}

fn are_values_compared(alloc: Global, levels: usize) -> Result<bool, AllocError> {
    let (one, other) = (
        lists_of_values(alloc, levels)?,
        lists_of_values(alloc, levels)?,
    );
    let is_same = one == other;
    take_value_apart(one, levels);
    take_value_apart(other, levels);
    Ok(is_same)
}

fn is_value_cloned(alloc: Global, levels: usize) -> Result<bool> {
    let value = lists_of_values(alloc, levels)?;
    let cloned = value.try_clone();
    take_value_apart(value, levels);
    Ok(take_value_apart(cloned?, levels) == levels)
}

fn is_converted(alloc: Global, levels: usize) -> Result<bool> {
    let Ok(schema) = Schema::new(vec![in alloc; Shape::Seq(0)]?, 0) else {
        bail!("no schema");
    };
    let data = into_data(alloc, lists_of_values(alloc, levels)?, &schema)?;
    Ok(take_apart(data, levels) == levels)
}

fn lists_of_data(alloc: Global, levels: usize) -> Result<Data<'static>, AllocError> {
    let mut data = Data::Seq(Vec::new(alloc));
    for _ in 1..levels {
        data = Data::Seq(vec![in alloc; data]?);
    }
    Ok(data)
}

fn lists_of_values(alloc: Global, levels: usize) -> Result<Untyped, AllocError> {
    let mut value = Untyped::Seq(Vec::new(alloc));
    for _ in 1..levels {
        value = Untyped::Seq(vec![in alloc; value]?);
    }
    Ok(value)
}

/// How many lists there are, up to these levels, each taken out of the one around it.
fn take_apart(data: Data, levels: usize) -> usize {
    let mut data = data;
    for level in 0..levels {
        match last_item(&mut data) {
            Some(inner) => data = inner,
            None => return level + usize::from(matches!(data, Data::Seq(_))),
        }
    }
    levels
}

fn last_item<'a>(data: &mut Data<'a>) -> Option<Data<'a>> {
    match data {
        Data::Seq(items) => items.pop(),
        _ => None,
    }
}

fn take_value_apart(value: Untyped, levels: usize) -> usize {
    let mut value = value;
    for level in 0..levels {
        match last_value(&mut value) {
            Some(inner) => value = inner,
            None => return level + usize::from(matches!(value, Untyped::Seq(_))),
        }
    }
    levels
}

fn last_value(value: &mut Untyped) -> Option<Untyped> {
    match value {
        Untyped::Seq(items) => items.pop(),
        _ => None,
    }
}
