//! A text cut into its words, what stands between them, its brackets and its comments.
//!
//! A word is made of all that stands directly beside one another and is neither a gap nor a mark: so a float or a range
//! is one. A mark, which is a colon, a comma or a bracket, is a word by itself, but for a comma behind an item: that one
//! separates, and belongs to the edge that it stands in.

use crate::word::{Sort, is_bracket};
use std::alloc::{AllocError, Global};

/// A word of a text, by places in the text.
#[derive(Clone, Copy)]
pub(crate) struct Word {
    /// Where it begins.
    pub(crate) start: u32,
    /// Where it ends; of a bracket, which is one byte, the index of the group that it opens or closes.
    pub(crate) tail: u32,
}

/// What stands within an edge besides comments and a separator.
#[derive(Clone, Copy, PartialEq, Eq)]
pub enum Blanks {
    /// No gap at all.
    Nothing,
    /// A gap without a line end outside its block comments.
    OnOneLine,
    /// A gap with such a line end.
    OverLines,
}

/// How the comments of an edge stand to line ends.
#[derive(Clone, Copy, PartialEq, Eq)]
pub enum Touch {
    /// None of them is beside a line end, or holds one.
    Apart,
    /// One holds a line end.
    Spans,
    /// One is beside a line end, as each line comment is.
    Beside,
}

/// What stands between two neighbouring words: gaps with their comments, and a separator.
#[derive(Clone, Copy)]
pub struct Edge {
    /// Whether a comma separates.
    pub separates: bool,
    /// Whether it holds a comment.
    pub holds_comments: bool,
    /// The blanks.
    pub blanks: Blanks,
    /// How its comments stand to line ends.
    pub touch: Touch,
    /// How many line ends stand behind its last comment, at most 255.
    pub lines: u8,
}

/// A comment. Where one before a separator is beside a line end, all of that edge are held to stand behind it.
#[derive(Clone, Copy)]
pub struct Comment<'a> {
    /// As it stands, but for blanks at the end of a line comment.
    pub text: &'a str,
    /// Whether the end of the line ends it.
    pub is_line: bool,
    /// How many line ends stand before it, behind another comment or what begins the edge, at most 255.
    pub lines: u8,
}

/// An edge by its index, and what stands on both sides of it.
#[derive(Clone, Copy)]
pub(crate) struct Between {
    pub(crate) index: usize,
    pub(crate) edge: Edge,
    pub(crate) before: Sort,
    pub(crate) word: Sort,
}

/// The comments of an edge, by their indices.
#[derive(Clone, Copy)]
pub(crate) struct Comments {
    /// The first of them.
    pub(crate) first: usize,
    /// The first that stands behind the separator. Where none separates, all stand before.
    pub(crate) split: usize,
    /// Behind the last.
    pub(crate) end: usize,
}

/// A pair of brackets, by their indices among the words.
#[derive(Clone, Copy)]
pub struct Group {
    /// The opening bracket.
    pub open: u32,
    /// The closing one.
    pub close: u32,
}

/// A text cut into words. There is one more edge than there are words: one before each, and one behind the last.
#[derive(Drop)]
pub struct Document<'a> {
    text: &'a str,
    /// The words in their order.
    pub(crate) words: Vec<Word>,
    /// What stands before each of the words, and behind the last.
    pub(crate) edges: Vec<Edge>,
    /// The comments in their order.
    pub(crate) all_comments: Vec<Comment<'a>>,
    /// The edges that hold comments, in their order, and the comments of each.
    pub(crate) commented: Vec<u32>,
    pub(crate) stretches: Vec<Comments>,
    /// The pairs of brackets, in the order of their opening ones.
    pub(crate) groups: Vec<Group>,
    /// Whether a CR stands before the first line end between words, if there is one.
    pub(crate) is_crlf: Option<bool>,
}

impl<'a> Document<'a> {
    /// A text of which no words are found yet.
    pub(crate) fn new(alloc: Global, text: &'a str) -> Self {
        Document {
            text,
            words: Vec::new(alloc),
            edges: Vec::new(alloc),
            all_comments: Vec::new(alloc),
            commented: Vec::new(alloc),
            stretches: Vec::new(alloc),
            groups: Vec::new(alloc),
            is_crlf: None,
        }
    }

    /// How many words there are.
    pub fn len(&self) -> usize {
        self.words.len()
    }

    /// Whether there is no word.
    pub fn is_empty(&self) -> bool {
        self.words.is_empty()
    }

    /// A word as it stands; an empty text where there is none.
    pub fn word(&self, index: usize) -> &'a str {
        match self.words.get(index) {
            Some(word) => self.text_of(*word),
            None => "",
        }
    }

    /// What a word is; `End` where there is none.
    pub(crate) fn sort(&self, index: usize) -> Sort {
        match self.first_byte(index) {
            Some(byte) => Sort::of_word(byte),
            None => Sort::End,
        }
    }

    /// What the word before this place is; `End` at the beginning.
    pub(crate) fn sort_before(&self, index: usize) -> Sort {
        match index.checked_sub(1) {
            Some(before) => self.sort(before),
            None => Sort::End,
        }
    }

    /// The edge before a word, or behind the last, and what stands on both sides of it.
    pub(crate) fn between(&self, index: usize) -> Between {
        Between {
            index,
            edge: self.edge(index),
            before: self.sort_before(index),
            word: self.sort(index),
        }
    }

    /// Whether this mark is the word.
    pub(crate) fn is_mark(&self, index: usize, mark: u8) -> bool {
        self.first_byte(index) == Some(mark)
    }

    /// The first byte of a word.
    #[inline]
    fn first_byte(&self, index: usize) -> Option<u8> {
        let word = self.words.get(index)?;
        self.text.as_bytes().get(index_of(word.start)).copied()
    }

    /// What stands at a word's places.
    fn text_of(&self, word: Word) -> &'a str {
        let start = index_of(word.start);
        let end = if self.is_bracket_at(start) {
            start.saturating_add(1)
        } else {
            index_of(word.tail)
        };
        self.text.get(start..end).unwrap_or("")
    }

    /// Whether a bracket stands at a place of the text.
    fn is_bracket_at(&self, place: usize) -> bool {
        match self.text.as_bytes().get(place) {
            Some(byte) => is_bracket(*byte),
            None => false,
        }
    }

    /// The word before this place; an empty text at the beginning.
    pub fn word_before(&self, index: usize) -> &'a str {
        match index.checked_sub(1) {
            Some(before) => self.word(before),
            None => "",
        }
    }

    /// The index of the group that a word opens or closes.
    pub fn group_at(&self, index: usize) -> Option<usize> {
        let word = self.words.get(index)?;
        let group = index_of(word.tail);
        if self.is_bracket_at(index_of(word.start)) {
            Some(group)
        } else {
            None
        }
    }

    /// The pair of brackets with this index, in the order of the opening ones.
    pub fn group(&self, index: usize) -> Option<Group> {
        self.groups.get(index).copied()
    }

    /// What stands before a word, or behind the last; an edge with nothing in it elsewhere.
    pub fn edge(&self, index: usize) -> Edge {
        match self.edges.get(index) {
            Some(edge) => *edge,
            None => Edge::empty(),
        }
    }

    /// The comments of an edge before its separator, and those behind it.
    pub fn comments(&self, index: usize) -> (&[Comment<'a>], &[Comment<'a>]) {
        let comments = self.stretch(index);
        (
            self.comments_between(comments.first, comments.split),
            self.comments_between(comments.split, comments.end),
        )
    }

    /// Where the comments of an edge stand among all.
    fn stretch(&self, index: usize) -> Comments {
        match self.found_stretch(index) {
            Some(comments) => comments,
            None => Comments::none_behind(0),
        }
    }

    /// The same of an edge that holds comments.
    fn found_stretch(&self, index: usize) -> Option<Comments> {
        if !self.edge(index).holds_comments {
            return None;
        }
        let index = kept(index).ok()?;
        match self.commented.as_slice().binary_search(&index) {
            Ok(place) => self.stretches.get(place).copied(),
            Err(_) => None,
        }
    }

    /// The comments from one index to another.
    fn comments_between(&self, start: usize, end: usize) -> &[Comment<'a>] {
        if start <= end && end <= self.all_comments.len() {
            &self.all_comments[start..end]
        } else {
            &[]
        }
    }
}

impl Comments {
    /// None, behind so many.
    pub(crate) fn none_behind(comments: usize) -> Self {
        Comments {
            first: comments,
            split: comments,
            end: comments,
        }
    }
}

impl Edge {
    /// An edge with nothing in it.
    pub(crate) fn empty() -> Self {
        Edge {
            separates: false,
            holds_comments: false,
            blanks: Blanks::Nothing,
            touch: Touch::Apart,
            lines: 0,
        }
    }
}

/// A place or an index as it is kept: a text of 2³² bytes wants more memory than there is for it.
pub(crate) fn kept(number: usize) -> Result<u32, AllocError> {
    match u32::try_from(number) {
        Ok(number) => Ok(number),
        Err(_) => Err(AllocError),
    }
}

/// The place or the index that is kept so.
pub(crate) fn index_of(kept: u32) -> usize {
    usize::try_from(kept).unwrap_or(usize::MAX)
}
