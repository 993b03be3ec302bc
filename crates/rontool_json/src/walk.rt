//! One word after another, and what is written for each.
use crate::frame::{Frame, Kind};
use crate::json::Why;
use crate::scalar::{Writer, push_text};
use ron_lex_text::text::begins_with;
use rontool_paths::word::{Bracket, Sort, Word, is_name, name_of, next_word};
use std::alloc::{AllocError, AllocFailed, Global};

/// Why no word is passed any more.
#[derive(Clone, Copy)]
pub(crate) enum Stop {
    /// An allocation failed.
    OutOfMemory,
    /// The word has no like in JSON.
    At(Why),
}

impl From<AllocError> for Stop {
    fn from(_: AllocError) -> Self {
        Stop::OutOfMemory
    }
}

impl<T: Drop> From<AllocFailed<T>> for Stop {
    fn from(_: AllocFailed<T>) -> Self {
        Stop::OutOfMemory
    }
}

/// What is written so far.
#[derive(Drop)]
pub(crate) struct Walk<'t> {
    writer: Writer,
    outer: Vec<Frame>,
    here: Frame,
    /// The name before a bracket; else an empty text.
    name: &'t str,
}

impl<'t> Walk<'t> {
    /// Nothing is written.
    pub(crate) fn new(alloc: Global, large_as_text: bool) -> Self {
        Walk {
            writer: Writer {
                alloc,
                out: String::new(alloc),
                large_as_text,
            },
            outer: Vec::new(alloc),
            here: Frame::new(Kind::Whole),
            name: "",
        }
    }

    /// What is written.
    pub(crate) fn finish(self) -> String {
        self.writer.out
    }

    /// Writes what a word stands for.
    pub(crate) fn pass(&mut self, word: Word<'t>) -> Result<(), Stop> {
        match word.sort {
            Sort::Opening(bracket) => self.open(bracket, word)?,
            Sort::Closing => self.close()?,
            Sort::Colon => self.writer.out.push(':')?,
            Sort::Comma => self.here.begins = true,
            Sort::Solid => return self.value(word),
        }
        self.name = "";
        Ok(())
    }

    /// An item begins, unless one has begun: whether it does so here.
    fn begin(&mut self) -> Result<bool, Stop> {
        if !self.here.begins {
            return Ok(false);
        }
        if self.here.holds {
            if self.here.kind == Kind::Inner {
                return Err(Stop::At(Why::SeveralInSome));
            }
            self.writer.out.push(',')?;
        }
        self.here.holds = true;
        self.here.begins = false;
        Ok(true)
    }

    /// Opens a group.
    fn open(&mut self, bracket: Bracket, word: Word<'t>) -> Result<(), Stop> {
        let is_key = self.begin()? && self.here.kind == Kind::Map;
        if is_key {
            return Err(Stop::At(Why::NoTextKey));
        }
        let inside = Frame::new(self.kind_of(bracket, word.after));
        if inside.kind == Kind::Inner && self.name.is_empty() {
            self.writer.out.push_str("null")?;
        }
        self.writer.out.push_str(inside.opening())?;
        self.outer.push(self.here)?;
        self.here = inside;
        Ok(())
    }

    /// What the group is that a bracket opens, behind which this follows. A unit holds nothing.
    fn kind_of(&self, bracket: Bracket, inside: &str) -> Kind {
        match bracket {
            Bracket::Square => Kind::List,
            Bracket::Curly => Kind::Map,
            Bracket::Round if opens_field(inside) => Kind::Fields,
            Bracket::Round if self.name == "Some" => Kind::Inner,
            Bracket::Round if self.name.is_empty() && begins_with(inside, ")") => Kind::Inner,
            Bracket::Round => Kind::List,
        }
    }

    /// Closes a group.
    fn close(&mut self) -> Result<(), Stop> {
        self.writer.out.push_str(self.here.closing())?;
        if let Some(outer) = self.outer.pop() {
            self.here = outer;
        }
        Ok(())
    }

    /// Writes a word that is a key, a field's name, a name before brackets, or a value by itself.
    fn value(&mut self, word: Word<'t>) -> Result<(), Stop> {
        self.name = "";
        let begins = self.begin()?;
        if begins && self.here.kind == Kind::Fields {
            return Ok(push_text(&mut self.writer, name_of(word.text))?);
        }
        if begins && self.here.kind == Kind::Map {
            return self.writer.key(word.text);
        }
        if is_name(word.text) && opens_group(word.after) {
            self.name = word.text;
            return Ok(());
        }
        self.writer.value(word.text)
    }
}

/// Whether a field's name and a colon stand here.
fn opens_field(text: &str) -> bool {
    match next_word(text) {
        Some(name) => is_name(name.text) && is_next(name.after, Sort::Colon),
        None => false,
    }
}

/// Whether `(` is the next word.
fn opens_group(text: &str) -> bool {
    is_next(text, Sort::Opening(Bracket::Round))
}

/// Whether the next word is such a mark.
fn is_next(text: &str, mark: Sort) -> bool {
    match next_word(text) {
        Some(word) => word.sort == mark,
        None => false,
    }
}
