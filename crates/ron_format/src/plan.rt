//! What becomes of each group of a document.

use crate::document::{Blanks, Document, Touch, index_of};
use crate::layout::Layout;
use crate::word::{Sort, characters_in};
use std::alloc::{AllocError, Global};

/// How a group is laid out.
#[derive(Clone, Copy, PartialEq, Eq)]
pub enum Kind {
    /// On one line, or an item a line.
    Plain,
    /// A list of short words: where it is broken, a line holds as many as the author put there and as fit.
    Row,
    /// Parentheses around one group, perhaps with a name: no level of their own.
    Wrapper,
    /// The brackets of an attribute.
    Attribute,
    /// Nothing but gaps.
    Empty,
}

impl Kind {
    /// Whether the group's items may stand on lines of their own.
    pub fn has_items(self) -> bool {
        matches!(self, Kind::Plain | Kind::Row)
    }
}

/// What becomes of a group.
#[derive(Clone, Copy)]
pub struct Plan {
    pub kind: Kind,
    /// Whether its last comma stays as it is, as in an attribute.
    pub keeps_commas: bool,
    /// Whether it has to be broken.
    pub is_forced: bool,
    /// Its width on one line.
    pub width: u32,
    /// The width from behind its closing bracket to where the line may end next.
    pub rest: u32,
}

/// How many characters an item of a row has at most.
const SHORT: usize = 16;

/// Whether a word can be an item of a row.
fn is_short(word: &str) -> bool {
    word.len() <= SHORT || characters_in(word) <= SHORT
}

/// A document, what becomes of its groups, and how it is laid out.
#[derive(Drop)]
pub struct Planned<'a> {
    pub document: Document<'a>,
    pub plans: Vec<Plan>,
    pub layout: Layout,
    /// The groups that are open, the innermost last, while the plans are made.
    open: Vec<usize>,
}

impl<'a> Planned<'a> {
    /// The kinds of the groups, and which have to be broken.
    pub fn of(
        alloc: Global,
        document: Document<'a>,
        layout: Layout,
    ) -> Result<Planned<'a>, AllocError> {
        let count = document.len();
        let mut planned = Planned {
            document,
            plans: Vec::new(alloc),
            layout,
            open: Vec::new(alloc),
        };
        for index in 0..=count {
            planned.pass(index)?;
        }
        Ok(planned)
    }

    /// Goes on over an edge and the word behind it.
    fn pass(&mut self, index: usize) -> Result<(), AllocError> {
        if self.document.edge(index).touch != Touch::Apart {
            self.force();
        }
        match self.document.sort(index) {
            Sort::Opening => self.open(index)?,
            Sort::Closing => self.close(index),
            Sort::Solid | Sort::Colon | Sort::Comma => {
                if self.is_in_row() && !self.is_row_item(index) {
                    self.end_row();
                }
            }
            Sort::End | Sort::Gap => {}
        }
        Ok(())
    }

    /// The innermost group has to be broken.
    fn force(&mut self) {
        if let Some(plan) = self.innermost() {
            plan.is_forced = true;
        }
    }

    /// Whether the innermost group may be a row.
    fn is_in_row(&mut self) -> bool {
        match self.innermost() {
            Some(plan) => plan.kind == Kind::Row,
            None => false,
        }
    }

    /// The innermost group is no row.
    fn end_row(&mut self) {
        if let Some(plan) = self.innermost() {
            if plan.kind == Kind::Row {
                plan.kind = Kind::Plain;
            }
        }
    }

    /// The plan of the innermost group that is open.
    fn innermost(&mut self) -> Option<&mut Plan> {
        let group = *self.open.last()?;
        self.plans.get_mut(group)
    }

    /// A group is opened.
    fn open(&mut self, index: usize) -> Result<(), AllocError> {
        self.end_row();
        let kind = self.opened_kind(index);
        let is_within = match self.innermost() {
            Some(around) => around.keeps_commas,
            None => false,
        };
        let group = self.plans.len();
        self.open.push(group)?;
        self.plans.push(Plan {
            kind,
            keeps_commas: is_within || kind == Kind::Attribute,
            is_forced: false,
            width: 0,
            rest: 0,
        })?;
        Ok(())
    }

    /// What kind a group may be whose opening bracket stands here.
    fn opened_kind(&self, index: usize) -> Kind {
        if !self.document.is_mark(index, b'[') {
            return Kind::Plain;
        }
        let before = self.document.word_before(index).as_bytes();
        if self.open.is_empty() && before.ends_with(b"!") {
            return Kind::Attribute;
        }
        Kind::Row
    }

    /// Whether the word can be an item of a row: a short one, behind the opening bracket or a separator.
    fn is_row_item(&self, index: usize) -> bool {
        let document = &self.document;
        let is_first = document.sort_before(index) == Sort::Opening;
        document.sort(index) == Sort::Solid
            && document.edge(index).separates != is_first
            && is_short(document.word(index))
    }

    /// A group is closed.
    fn close(&mut self, index: usize) {
        let Some(group) = self.open.pop() else {
            return;
        };
        let Some(plan) = self.plans.get(group).copied() else {
            return;
        };
        let kind = self.closed_kind(group, plan.kind, index);
        let is_forced = plan.is_forced || (kind.has_items() && self.opens_line(group));
        if let Some(plan) = self.plans.get_mut(group) {
            plan.kind = kind;
            plan.is_forced = is_forced;
        }
        if is_forced {
            self.force();
        }
    }

    /// The index behind the opening bracket of a group.
    fn first_of(&self, group: usize) -> usize {
        match self.document.group(group) {
            Some(group) => index_of(group.open).saturating_add(1),
            None => usize::MAX,
        }
    }

    /// What kind a group is that is closed here.
    fn closed_kind(&self, group: usize, kind: Kind, close: usize) -> Kind {
        let first = self.first_of(group);
        if kind == Kind::Attribute {
            return kind;
        }
        if first == close {
            return Kind::Empty;
        }
        if self.document.is_mark(first.saturating_sub(1), b'(') && self.wraps(first, close) {
            return Kind::Wrapper;
        }
        kind
    }

    /// Whether the author ended the line behind the opening bracket, and that is kept.
    fn opens_line(&self, group: usize) -> bool {
        self.layout.keep_breaks
            && self.document.edge(self.first_of(group)).blanks == Blanks::OverLines
    }

    /// Whether all between a bracket and the closing one is a group, perhaps behind a name, with no comment around.
    fn wraps(&self, first: usize, close: usize) -> bool {
        if !self.is_bare(first) || !self.is_clean(close) {
            return false;
        }
        let named = first.saturating_add(1);
        let is_named = self.document.sort(first) == Sort::Solid && named < close;
        let inner = if is_named { named } else { first };
        self.is_bare(inner) && self.is_inner(inner, close)
    }

    /// Whether a group that isn't empty begins at a word and ends directly before another.
    fn is_inner(&self, first: usize, close: usize) -> bool {
        if self.document.sort(first) != Sort::Opening {
            return false;
        }
        let Some(group) = self.document.group_at(first) else {
            return false;
        };
        let ends = match self.document.group(group) {
            Some(inner) => index_of(inner.close).saturating_add(1) == close,
            None => false,
        };
        ends && self.kind_of(group) != Some(Kind::Empty)
    }

    /// Whether no comment stands in the edge.
    fn is_clean(&self, index: usize) -> bool {
        !self.document.edge(index).holds_comments
    }

    /// Whether neither a comment nor a separator stands in the edge.
    fn is_bare(&self, index: usize) -> bool {
        !self.document.edge(index).separates && self.is_clean(index)
    }

    /// The kind of a group.
    fn kind_of(&self, group: usize) -> Option<Kind> {
        match self.plans.get(group) {
            Some(plan) => Some(plan.kind),
            None => None,
        }
    }

    /// What becomes of the group that a word opens or closes.
    pub fn plan_at(&self, index: usize) -> Option<Plan> {
        let group = self.document.group_at(index)?;
        self.plans.get(group).copied()
    }

    /// The kind of the group that a word opens or closes.
    pub fn kind_at(&self, index: usize) -> Option<Kind> {
        match self.plan_at(index) {
            Some(plan) => Some(plan.kind),
            None => None,
        }
    }
}
