//! Words that are values by themselves, as JSON.
use crate::json::Why;
use crate::walk::Stop;
use ron_lex::cursor::Cursor;
use ron_lex::fault::StringRefusal;
use ron_lex::interval::Interval;
use ron_lex::numeral::Numeral;
use ron_lex_text::text::{begins_with, is_ended};
use rontool_paths::float::{Float, is_no_number, split_float};
use rontool_paths::word::{is_name, name_of};
use serde_json::json;
use std::alloc::{AllocError, Global};

/// The greatest integer below which a double keeps each one.
const KEPT: u128 = 0x20_0000_0000_0000;

/// What is written, and how.
#[derive(Drop)]
pub(crate) struct Writer {
    pub alloc: Global,
    pub out: String,
    /// Integers past `KEPT` are written as texts.
    pub large_as_text: bool,
}

/// Writes a text with its escapes.
pub(crate) fn push_text(writer: &mut Writer, text: &str) -> Result<(), AllocError> {
    let value = json!(in writer.alloc; text)?;
    let written = value.to_string(writer.alloc)?;
    writer.out.push_str(written.as_str())
}

impl Writer {
    /// Writes a key.
    pub(crate) fn key(&mut self, word: &str) -> Result<(), Stop> {
        if opens_string(word) {
            return self.string(word);
        }
        if is_name(word) && !matches!(word, "true" | "false" | "None") {
            return Ok(push_text(self, name_of(word))?);
        }
        Err(Stop::At(Why::NoTextKey))
    }

    /// Writes a value.
    pub(crate) fn value(&mut self, word: &str) -> Result<(), Stop> {
        if is_no_number(word) {
            return Err(Stop::At(Why::NoNumber));
        }
        if is_name(word) {
            return self.name(word);
        }
        if opens_string(word) {
            return self.string(word);
        }
        if begins_with(word, "'") {
            return self.character(word);
        }
        if begins_with(word, "b\"") || begins_with(word, "br") {
            return self.bytes(word);
        }
        match split_float(word) {
            Some(float) => Ok(self.float(float)?),
            None => self.number(word),
        }
    }

    /// Writes a name by itself.
    fn name(&mut self, word: &str) -> Result<(), Stop> {
        match word {
            "true" | "false" => self.out.push_str(word)?,
            "None" => self.out.push_str("null")?,
            _ => push_text(self, name_of(word))?,
        }
        Ok(())
    }

    /// Writes a string.
    fn string(&mut self, word: &str) -> Result<(), Stop> {
        let mut cursor = Cursor::new(word);
        match cursor.string(self.alloc) {
            Ok(text) => Ok(push_text(self, text.as_str())?),
            Err(StringRefusal::OutOfMemory) => Err(Stop::OutOfMemory),
            Err(StringRefusal::Refused(_)) => Err(Stop::At(Why::NoValue)),
        }
    }

    /// Writes a character as a text.
    fn character(&mut self, word: &str) -> Result<(), Stop> {
        let mut cursor = Cursor::new(word);
        let Ok(character) = cursor.character() else {
            return Err(Stop::At(Why::NoValue));
        };
        let mut text = String::new(self.alloc);
        text.push(character)?;
        Ok(push_text(self, text.as_str())?)
    }

    /// Writes bytes as a list of numbers.
    fn bytes(&mut self, word: &str) -> Result<(), Stop> {
        let mut cursor = Cursor::new(word);
        match cursor.byte_string(self.alloc) {
            Ok(bytes) => Ok(self.list(bytes.as_slice())?),
            Err(StringRefusal::OutOfMemory) => Err(Stop::OutOfMemory),
            Err(StringRefusal::Refused(_)) => Err(Stop::At(Why::NoValue)),
        }
    }

    /// Writes numbers as a list.
    fn list(&mut self, bytes: &[u8]) -> Result<(), AllocError> {
        let mut before = "[";
        for byte in bytes {
            let number = format!(in self.alloc; "{before}{byte}")?;
            self.out.push_str(number.as_str())?;
            before = ",";
        }
        self.out.push_str(if bytes.is_empty() { "[]" } else { "]" })
    }

    /// Writes a float by its digits.
    fn float(&mut self, float: Float<'_>) -> Result<(), AllocError> {
        if float.is_negative {
            self.out.push('-')?;
        }
        let whole = float
            .whole
            .trim_start_matches(|c: char| c == '0' || c == '_');
        self.digits(if whole.is_empty() { "0" } else { whole })?;
        if !float.fraction.is_empty() || float.exponent.is_none() {
            self.out.push('.')?;
            self.digits(if float.fraction.is_empty() {
                "0"
            } else {
                float.fraction
            })?;
        }
        if let Some(exponent) = float.exponent {
            self.out.push('e')?;
            self.digits(exponent)?;
        }
        Ok(())
    }

    /// Writes digits without what separates them.
    fn digits(&mut self, digits: &str) -> Result<(), AllocError> {
        for digit in digits.chars() {
            if digit != '_' {
                self.out.push(digit)?;
            }
        }
        Ok(())
    }

    /// Writes an integer, or a range as the members that it has.
    fn number(&mut self, word: &str) -> Result<(), Stop> {
        let mut cursor = Cursor::new(word);
        match cursor.number_or_range() {
            Ok(Interval::One(number)) if is_ended(cursor.rest()) => self.integer(number),
            Ok(Interval::Range { start, end, .. }) if is_ended(cursor.rest()) => self.range(
                start, end,
            ),
            _ => Err(Stop::At(Why::NoValue)),
        }
    }

    /// Writes a range. One without numbers is a unit.
    fn range(&mut self, start: Option<Numeral<'_>>, end: Option<Numeral<'_>>) -> Result<(), Stop> {
        let mut before = "{";
        if start.is_none() && end.is_none() {
            return Ok(self.out.push_str("null")?);
        }
        if let Some(number) = start {
            self.out.push_str("{\"start\":")?;
            self.integer(number)?;
            before = ",";
        }
        if let Some(number) = end {
            self.out.push_str(before)?;
            self.out.push_str("\"end\":")?;
            self.integer(number)?;
        }
        Ok(self.out.push('}')?)
    }

    /// Writes an integer.
    fn integer(&mut self, number: Numeral<'_>) -> Result<(), Stop> {
        let sign = if number.is_negative && number.magnitude != 0 {
            "-"
        } else {
            ""
        };
        let magnitude = number.magnitude;
        let digits = format!(in self.alloc; "{sign}{magnitude}")?;
        if magnitude <= KEPT {
            return Ok(self.out.push_str(digits.as_str())?);
        }
        if !self.large_as_text {
            return Err(Stop::At(Why::TooLarge));
        }
        Ok(push_text(self, digits.as_str())?)
    }
}

/// Whether a string begins a word.
fn opens_string(word: &str) -> bool {
    begins_with(word, "\"") || begins_with(word, "r\"") || begins_with(word, "r#") && !is_name(word)
}
