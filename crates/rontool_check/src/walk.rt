//! One word after another, through the groups of a text.
use crate::frame::{Frame, Kind, Stage};
use crate::scalar::read_word;
use ron_base::error::Error;
use ron_base::extensions::Extensions;
use ron_lex_text::text::begins_with;
use rontool_paths::word::{Bracket, Sort, Word, is_name, name_of};
use std::alloc::{AllocError, Global};
use std::collections::BTreeSet;

/// What is read of a text so far.
#[derive(Drop)]
pub(crate) struct Walk<'t> {
    alloc: Global,
    outer: Vec<Frame>,
    here: Frame,
    groups: u64,
    /// The last word, where it is a value by itself.
    pub last: Option<Word<'t>>,
    keys: BTreeSet<String>,
    /// Whether there are round brackets, and such with a name before them.
    has_round: bool,
    has_named: bool,
}

impl<'t> Walk<'t> {
    /// No word is read yet.
    pub(crate) fn new(alloc: Global) -> Self {
        Walk {
            alloc,
            outer: Vec::new(alloc),
            here: Frame::whole(),
            groups: 0,
            last: None,
            keys: BTreeSet::new(alloc),
            has_round: false,
            has_named: false,
        }
    }

    /// Passes a word that may stand here.
    pub(crate) fn pass(&mut self, word: Word<'t>) -> Result<(), Error> {
        match word.sort {
            Sort::Opening(bracket) => self.open(bracket)?,
            Sort::Closing => self.close()?,
            Sort::Colon => self.colon()?,
            Sort::Comma => self.comma()?,
            Sort::Solid => self.value(word.text)?,
        }
        self.last = match word.sort {
            Sort::Solid => Some(word),
            _ => None,
        };
        Ok(())
    }

    /// Whether the text may end here.
    pub(crate) fn is_whole(&self) -> bool {
        self.here.kind == Kind::Whole && self.here.stage == Stage::Item
    }

    /// Whether the last word is a name.
    fn is_named(&self) -> bool {
        match self.last {
            Some(word) => is_name(word.text),
            None => false,
        }
    }

    /// A value begins here.
    fn begin(&mut self) -> Result<(), Error> {
        self.here = match self.here.stage {
            Stage::Begin => self.here.at(Stage::Item),
            Stage::Value => self.here.at(Stage::Done),
            _ if self.here.kind == Kind::Whole => return Err(Error::TrailingCharacters),
            _ if self.here.lacks_colon() => return Err(Error::ExpectedMapColon),
            _ => return Err(Error::ExpectedComma),
        };
        Ok(())
    }

    /// A bracket opens a group, which a name before it may belong to.
    fn open(&mut self, bracket: Bracket) -> Result<(), Error> {
        let is_round = bracket == Bracket::Round;
        let is_named = is_round && self.is_named();
        if !is_named {
            self.begin()?;
        }
        self.has_round = self.has_round || is_round;
        self.has_named = self.has_named || is_named;
        self.outer.push(self.here)?;
        self.groups = self.groups.saturating_add(1);
        self.here = Frame::opened(bracket, self.groups);
        Ok(())
    }

    /// A bracket closes the group.
    fn close(&mut self) -> Result<(), Error> {
        self.end_item(')')?;
        if let Some(outer) = self.outer.pop() {
            self.here = outer;
        }
        Ok(())
    }

    /// An item ends before this mark, if there is one.
    fn end_item(&self, mark: char) -> Result<(), Error> {
        if self.here.stage == Stage::Value {
            return Err(Error::UnexpectedChar(mark));
        }
        if self.here.lacks_colon() {
            return Err(Error::ExpectedMapColon);
        }
        Ok(())
    }

    /// A comma separates items.
    fn comma(&mut self) -> Result<(), Error> {
        self.end_item(',')?;
        if self.here.kind == Kind::Whole {
            return Err(Error::TrailingCharacters);
        }
        if self.here.stage == Stage::Begin {
            return Err(Error::UnexpectedChar(','));
        }
        if self.here.kind == Kind::Unknown {
            self.here.kind = Kind::Items;
        }
        self.here.stage = Stage::Begin;
        Ok(())
    }

    /// A colon stands behind a key or a field's name.
    fn colon(&mut self) -> Result<(), Error> {
        let takes = match self.here.kind {
            Kind::Map => true,
            Kind::Fields | Kind::Unknown => self.is_named(),
            Kind::Whole | Kind::Items => false,
        };
        if self.here.stage != Stage::Item || !takes {
            return Err(Error::UnexpectedChar(':'));
        }
        if self.here.kind == Kind::Unknown {
            self.here.kind = Kind::Fields;
        }
        self.here.stage = Stage::Value;
        Ok(())
    }

    /// A word that is a value by itself, a key or a field's name.
    fn value(&mut self, text: &str) -> Result<(), Error> {
        if begins_with(text, "=") && self.here.stage == Stage::Item {
            return Err(Error::ExpectedMapColon);
        }
        self.begin()?;
        read_word(self.alloc, text)
    }

    /// Whether something that is read may be spelled by this extension.
    pub(crate) fn may_use(&self, extension: Extensions) -> bool {
        if extension == Extensions::UNWRAP_VARIANT_NEWTYPES {
            return self.has_named;
        }
        extension != Extensions::EXPLICIT_STRUCT_NAMES || self.has_round
    }

    /// Whether this key stands in its group already.
    pub(crate) fn is_given_twice(&mut self, key: &str) -> Result<bool, AllocError> {
        let number = self.here.number;
        let name = name_of(key);
        let known = format!(in self.alloc; "{number} {name}")?;
        Ok(!self.keys.insert(known)?)
    }
}
