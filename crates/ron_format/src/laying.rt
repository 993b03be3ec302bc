//! The pass that lays a document out: where it stands, and what it wishes for the next edge.

use crate::document::index_of;
use crate::layout::{Indent, NewLine};
use crate::plan::{Kind, Plan, Planned};
use crate::word::{Sort, TAB_WIDTH, column_behind};
use std::alloc::{AllocError, Global};

/// A group that is open.
#[derive(Clone, Copy)]
pub struct Level {
    pub kind: Kind,
    /// Whether its items may stand on lines of their own, and do.
    pub is_broken: bool,
    /// How many levels its items are indented.
    pub depth: usize,
}

/// Where the pass stands: the wish for the edge that comes, the column behind what was laid out, and the groups that are
/// open, the innermost last.
#[derive(Drop)]
pub struct Laying<'d, 'a> {
    pub planned: &'d Planned<'a>,
    pub wish: String,
    pub column: usize,
    pub open: Vec<Level>,
    pub new_line: &'static str,
    /// How many edges were passed.
    pub edges: usize,
}

impl<'d, 'a> Laying<'d, 'a> {
    pub fn new(alloc: Global, planned: &'d Planned<'a>) -> Self {
        Laying {
            planned,
            wish: String::new(alloc),
            column: 0,
            open: Vec::new(alloc),
            new_line: new_line(planned),
            edges: 0,
        }
    }

    /// The innermost group that is open.
    pub fn innermost(&self) -> Option<Level> {
        self.open.last().copied()
    }

    /// Goes on over a token of the word that the last edge stands before.
    pub fn pass_token(&mut self, token: &str) -> Result<(), AllocError> {
        match Sort::of(token) {
            Sort::Opening => {
                let index = self.edges.saturating_sub(1);
                let level = self.opened(index);
                self.open.push(level)?;
            }
            Sort::Closing => {
                let _ = self.open.pop();
            }
            _ => {}
        }
        self.column = column_behind(self.column, token, 1);
        Ok(())
    }

    /// How the group is laid out whose opening bracket comes.
    fn opened(&self, index: usize) -> Level {
        let (may_break, depth) = match self.innermost() {
            Some(around) => (around.is_broken, around.depth),
            None => (true, 0),
        };
        let below = depth.saturating_add(1);
        let Some(plan) = self.planned.plan_at(index) else {
            return Level {
                kind: Kind::Empty,
                is_broken: false,
                depth: below,
            };
        };
        match plan.kind {
            Kind::Wrapper | Kind::Attribute => Level {
                kind: plan.kind,
                is_broken: may_break,
                depth,
            },
            Kind::Empty => Level {
                kind: plan.kind,
                is_broken: plan.is_forced,
                depth: below,
            },
            Kind::Plain | Kind::Row => Level {
                kind: plan.kind,
                is_broken: may_break && (plan.is_forced || !self.fits(plan)),
                depth: below,
            },
        }
    }

    /// Whether a group fits on the line, with what follows it up to where the line may end.
    fn fits(&self, plan: Plan) -> bool {
        let end = self
            .column
            .saturating_add(index_of(plan.width))
            .saturating_add(index_of(plan.rest));
        end <= self.planned.layout.width
    }

    /// Wishes for the end of a line, and another where a blank line stands; the next line begins so many levels in.
    pub fn end_line(&mut self, depth: usize, is_blank: bool) -> Result<(), AllocError> {
        self.wish.push_str(self.new_line)?;
        if is_blank {
            self.wish.push_str(self.new_line)?;
        }
        let layout = self.planned.layout;
        match layout.indent {
            Indent::Spaces(count) => {
                self.indent(SPACES, depth.saturating_mul(count).min(layout.width))
            }
            Indent::Tab => {
                let count = depth.saturating_mul(TAB_WIDTH).min(layout.width) / TAB_WIDTH;
                self.indent(TABS, count)
            }
        }
    }

    /// Wishes for so many of the character of which the run is made.
    fn indent(&mut self, run: &'static str, count: usize) -> Result<(), AllocError> {
        for _ in 0..count / RUN {
            self.wish.push_str(run)?;
        }
        match run.get(..count % RUN) {
            Some(rest) => self.wish.push_str(rest),
            None => Ok(()),
        }
    }
}

/// How many characters a run has of which lines are indented.
const RUN: usize = 16;

const SPACES: &str = "                ";

const TABS: &str = "\t\t\t\t\t\t\t\t\t\t\t\t\t\t\t\t";

/// The line ends that are written.
fn new_line(planned: &Planned<'_>) -> &'static str {
    match planned.layout.new_line {
        NewLine::Lf => "\n",
        NewLine::Crlf => "\r\n",
        NewLine::AsText if planned.document.is_crlf == Some(true) => "\r\n",
        NewLine::AsText => "\n",
    }
}
