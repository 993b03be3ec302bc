//! Words that are values by themselves.
use ron_base::error::Error;
use ron_base::name::{in_raw_name, starts_name};
use ron_de_steps::faults::number_error;
use ron_lex::cursor::Cursor;
use ron_lex::token::skip_token;
use ron_lex_text::text::split_first;
use rontool_paths::float::{is_no_number, split_float};
use rontool_paths::word::is_name;
use std::alloc::Global;

/// Fails where a word that is neither a mark nor a bracket is no value by itself.
pub(crate) fn read_word(alloc: Global, word: &str) -> Result<(), Error> {
    let Some((first, _)) = split_first(word) else {
        return Ok(());
    };
    if first.is_ascii_digit() || matches!(first, '+' | '-' | '.') {
        return read_number(word);
    }
    if is_name(word) {
        return Ok(());
    }
    if starts_name(first) && word.chars().all(in_raw_name) {
        let run = String::from_str(alloc, word)?;
        return Err(Error::SuggestRawIdentifier(run));
    }
    if starts_name(first) || matches!(first, '"' | '\'') {
        read_literal(word)
    } else {
        Err(Error::UnexpectedChar(first))
    }
}

/// Fails where something stands behind a literal.
fn read_literal(word: &str) -> Result<(), Error> {
    match skip_token(word) {
        Some(after) => read_end(after),
        None => Err(Error::ExpectedString),
    }
}

/// Fails where a word is no number, float or range.
fn read_number(word: &str) -> Result<(), Error> {
    if is_no_number(word) || split_float(word).is_some() {
        return Ok(());
    }
    let mut cursor = Cursor::new(word);
    match cursor.number_or_range() {
        Ok(_) => read_end(cursor.rest()),
        Err(fault) => Err(number_error(fault)),
    }
}

/// Fails where something is left of a word.
fn read_end(rest: &str) -> Result<(), Error> {
    match split_first(rest) {
        Some((first, _)) => Err(Error::UnexpectedChar(first)),
        None => Ok(()),
    }
}
