//! What is found in a text.
use crate::walk::Walk;
use crate::warning::{Warned, Warning};
use ron_base::error::{Error, Span, SpannedError, position_after};
use ron_base::extensions::Extensions;
use ron_de_steps::attributes::read_head;
use ron_lex::cursor::Cursor;
use rontool_paths::place::span_between;
use rontool_paths::word::{Sort, Word, name_of, next_word};
use std::alloc::{AllocError, Global};

/// So many warnings are told of a text at most.
const MOST: usize = 100;

/// What is found in a text: its first fault, if there is one, and warnings of what stands before that.
#[derive(Drop)]
pub struct Found {
    pub fault: Option<SpannedError>,
    pub warnings: Vec<Warned>,
}

/// Goes over a text whose tokens are whole and whose brackets match. It fails where no memory is found.
pub fn check(alloc: Global, text: &str) -> Result<Found, AllocError> {
    let mut found = Found {
        fault: None,
        warnings: Vec::new(alloc),
    };
    let mut cursor = Cursor::new(text);
    match read_head(alloc, &mut cursor, Extensions::empty()) {
        Ok(_) => walk(alloc, &mut found, text, cursor.rest())?,
        Err(Error::OutOfMemory) => return Err(AllocError),
        Err(code) => {
            let span = cursor.span();
            found.fault = Some(SpannedError { code, span });
        }
    }
    Ok(found)
}

/// Goes over the words of a text from a place on.
fn walk(alloc: Global, found: &mut Found, text: &str, start: &str) -> Result<(), AllocError> {
    let mut walk = Walk::new(alloc);
    let mut rest = start;
    'words: for _ in 0..u64::MAX {
        let Some(word) = next_word(rest) else {
            break;
        };
        warn(found, &mut walk, text, word)?;
        match walk.pass(word) {
            Ok(()) => {}
            Err(Error::OutOfMemory) => return Err(AllocError),
            Err(code) => {
                let span = span_of(text, word);
                found.fault = Some(SpannedError { code, span });
                return Ok(());
            }
        }
        rest = word.after;
    }
    if walk.is_whole() {
        return warn_of_announced(found, &walk, text, start);
    }
    let end = position_after(text);
    found.fault = Some(SpannedError {
        code: Error::Eof,
        span: Span { start: end, end },
    });
    Ok(())
}

/// Warns of extensions that are announced to no effect before the value, with which `body` begins.
fn warn_of_announced(
    found: &mut Found,
    walk: &Walk<'_>,
    text: &str,
    body: &str,
) -> Result<(), AllocError> {
    let mut announced = Extensions::empty();
    let mut rest = text;
    'words: for _ in 0..u64::MAX {
        let Some(word) = next_word(rest) else {
            break;
        };
        if word.from.len() <= body.len() || found.warnings.len() >= MOST {
            break;
        }
        rest = word.after;
        if let Some(extension) = Extensions::from_ident(name_of(word.text)) {
            if announced.contains(extension) || !walk.may_use(extension) {
                let span = span_of(text, word);
                let warning = Warning::NoEffect;
                found.warnings.push(Warned { span, warning })?;
            }
            announced = announced.union(extension);
        }
    }
    Ok(())
}

/// The span of a word of a text.
fn span_of(text: &str, word: Word<'_>) -> Span {
    span_between(text, word.from, word.after)
}

/// Warns of a word, or of the key before a colon.
fn warn<'t>(
    found: &mut Found,
    walk: &mut Walk<'t>,
    text: &str,
    word: Word<'t>,
) -> Result<(), AllocError> {
    if found.warnings.len() >= MOST {
        return Ok(());
    }
    if word.sort == Sort::Solid {
        if let Some(warning) = Warning::of_word(word) {
            let span = span_of(text, word);
            found.warnings.push(Warned { span, warning })?;
        }
        return Ok(());
    }
    let Some(key) = walk.last else {
        return Ok(());
    };
    if word.sort == Sort::Colon && walk.is_given_twice(key.text)? {
        let span = span_of(text, key);
        let warning = Warning::GivenTwice;
        found.warnings.push(Warned { span, warning })?;
    }
    Ok(())
}
