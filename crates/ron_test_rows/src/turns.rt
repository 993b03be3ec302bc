//! How much of a text reading goes over.
use crate::asked::read_whole;
use crate::options::options_of;
use anyhow::{Result, bail};
use ron::schema::Schema;
use ron::{Deserializer, Options};
use ron_test_requests::json::{count_of, items_of, member, text_of};
use ron_test_requests::schema::schema_of;
use serde_json::Value;
use std::alloc::{AllocError, Global};
use std::fmt::Write;

/// Reads the text that the `pieces` make up, each so often. It appends how many bytes the text has, whether it was read,
/// and whether the turns that this took are within the bound of the text and the schema, and within `least` and `most`
/// where these are told; or else how many there were.
pub fn push_turns(json: &mut String, alloc: Global, request: &Value) -> Result<()> {
    let account = account_of(alloc, &counting_of(alloc, request)?)?;
    Ok(push_account(json, account)?)
}

/// What is read, and the least and the most turns that it is to take.
#[derive(Drop)]
struct Counting {
    text: String,
    schema: Schema,
    least: u128,
    most: u128,
    options: Options,
}

fn counting_of(alloc: Global, request: &Value) -> Result<Counting> {
    Ok(Counting {
        text: text_of_pieces(alloc, items_of(member(request, "pieces")?)?)?,
        schema: schema_of(alloc, request, 0)?,
        least: bound_of(request, "least", 0)?,
        most: bound_of(request, "most", u128::MAX)?,
        options: options_of(request, "ext", "limit")?,
    })
}

/// How many bytes a text has, whether it was read, in how many turns, and whether these are within the bounds.
#[derive(Clone, Copy)]
struct Account {
    bytes: usize,
    is_read: bool,
    turns: u128,
    is_within: bool,
}

fn account_of(alloc: Global, counting: &Counting) -> Result<Account> {
    let text = counting.text.as_str();
    let reader = Deserializer::from_str_with_options(alloc, text, &counting.options);
    let (is_read, turns) = match reader {
        Ok(reader) => turns_of(reader, &counting.schema),
        Err(_) => bail!("no reader"),
    };
    let most = counting
        .most
        .min(allowed(text.len(), counting.schema.chain()));
    Ok(Account {
        bytes: text.len(),
        is_read,
        turns,
        is_within: counting.least <= turns && turns <= most,
    })
}

/// Whether a value and the end are read, and how many turns that takes.
fn turns_of(reader: Deserializer, schema: &Schema) -> (bool, u128) {
    let mut reader = reader;
    let is_read = read_whole(&mut reader, schema).is_ok();
    (is_read, reader.turns())
}

fn push_account(json: &mut String, account: Account) -> Result<(), AllocError> {
    let Account {
        bytes,
        is_read,
        turns,
        is_within,
    } = account;
    write!(
        json,
        "\"ok\":{{\"bytes\":{bytes},\"read\":{is_read},\"within\":{is_within}}}"
    )?;
    if !is_within {
        write!(json, ",\"turns\":{turns}")?;
    }
    Ok(())
}

/// `64 (n + 1) (k + 1)`
pub fn allowed(bytes: usize, chain: usize) -> u128 {
    (bytes as u128)
        .saturating_add(1)
        .saturating_mul((chain as u128).saturating_add(1))
        .saturating_mul(64)
}

fn bound_of(request: &Value, name: &str, absent: u128) -> Result<u128> {
    match request.get(name) {
        Some(bound) => Ok(count_of(bound)? as u128),
        None => Ok(absent),
    }
}

/// The texts, each as often as the number behind it says.
fn text_of_pieces(alloc: Global, pieces: &[Value]) -> Result<String> {
    let mut text = String::new(alloc);
    for piece in pieces {
        let [front, count] = items_of(piece)? else {
            bail!("no piece: {piece}");
        };
        push_repeated(&mut text, text_of(front)?, count_of(count)?)?;
    }
    Ok(text)
}

fn push_repeated(text: &mut String, front: &str, count: usize) -> Result<(), AllocError> {
    for _ in 0..count {
        text.push_str(front)?;
    }
    Ok(())
}
