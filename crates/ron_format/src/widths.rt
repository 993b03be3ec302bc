//! How wide groups are, and what follows them up to where the line may end.

use crate::document::{Between, Comment, Touch, index_of};
use crate::plan::{Kind, Plan, Planned};
use crate::word::{Sort, first_line};
use std::alloc::{AllocError, Global};

impl Planned<'_> {
    /// Finds both for each group.
    pub fn measure(&mut self, alloc: Global) -> Result<(), AllocError> {
        let mut flat = String::new(alloc);
        self.measure_groups(&mut flat)?;
        self.measure_rests(&mut flat)
    }

    /// The width of each group on one line: what is summed up behind its closing bracket, less what was before its
    /// opening one.
    fn measure_groups(&mut self, flat: &mut String) -> Result<(), AllocError> {
        let mut sum = 0usize;
        for index in 0..self.document.len() {
            let at = self.document.between(index);
            let start = sum.saturating_add(self.gap_width(&at, flat)?);
            sum = start.saturating_add(self.word_width(&at));
            match at.word {
                Sort::Opening => self.set_width(index, start),
                Sort::Closing => self.end_width(index, sum),
                _ => {}
            }
        }
        Ok(())
    }

    /// The width of the word behind an edge; of its first line, where it has several.
    fn word_width(&self, at: &Between) -> usize {
        match at.word {
            Sort::Solid => first_line(self.document.word(at.index)),
            _ => 1,
        }
    }

    /// The width of what stands in an edge on one line.
    fn gap_width(&self, at: &Between, flat: &mut String) -> Result<usize, AllocError> {
        if at.index == 0 {
            return Ok(0);
        }
        if !at.edge.holds_comments {
            return Ok(self.bare(at).len());
        }
        flat.clear();
        self.put_flat(at, flat)?;
        Ok(first_line(flat.as_str()))
    }

    fn set_width(&mut self, index: usize, width: usize) {
        if let Some(plan) = self.plan_mut(index) {
            plan.width = u32::try_from(width).unwrap_or(u32::MAX);
        }
    }

    fn end_width(&mut self, index: usize, sum: usize) {
        if let Some(plan) = self.plan_mut(index) {
            let width = sum.saturating_sub(index_of(plan.width));
            plan.width = u32::try_from(width).unwrap_or(u32::MAX);
        }
    }

    fn plan_mut(&mut self, index: usize) -> Option<&mut Plan> {
        let group = self.document.group_at(index)?;
        self.plans.get_mut(group)
    }

    /// The width from behind each group to where the line may end next, from the end of the text on.
    fn measure_rests(&mut self, flat: &mut String) -> Result<(), AllocError> {
        let mut rest = 0usize;
        for index in (0..self.document.len()).rev() {
            let at = self.document.between(index);
            if at.word == Sort::Closing {
                self.set_rest(index, rest);
            }
            rest = self.rest_before(&at, rest, flat)?;
        }
        Ok(())
    }

    fn set_rest(&mut self, index: usize, rest: usize) {
        if let Some(plan) = self.plan_mut(index) {
            plan.rest = u32::try_from(rest).unwrap_or(u32::MAX);
        }
    }

    /// The width from behind the word before an edge, where this is that from behind the next one.
    fn rest_before(
        &self,
        at: &Between,
        rest: usize,
        flat: &mut String,
    ) -> Result<usize, AllocError> {
        let kind = self.bracket_kind(at);
        let has_items = kind.is_some_and(|kind| kind.has_items());
        if self.ends_attribute(at) {
            return Ok(0);
        }
        if at.edge.separates || (has_items && at.word == Sort::Closing) {
            let wraps = at.word == Sort::Closing && kind == Some(Kind::Wrapper);
            let behind = if at.edge.separates && wraps { rest } else { 0 };
            return Ok(self.comma_width(at).saturating_add(behind));
        }
        if at.edge.touch == Touch::Beside && !has_items {
            return Ok(0);
        }
        let gap = self.gap_width(at, flat)?;
        if has_items {
            return Ok(gap.saturating_add(1));
        }
        Ok(gap.saturating_add(self.word_width(at)).saturating_add(rest))
    }

    /// The kind of the group that is opened or closed behind an edge.
    fn bracket_kind(&self, at: &Between) -> Option<Kind> {
        match at.word {
            Sort::Opening | Sort::Closing => self.kind_at(at.index),
            _ => None,
        }
    }

    /// Whether the word before an edge ends an attribute, and so its line.
    pub fn ends_attribute(&self, at: &Between) -> bool {
        at.before == Sort::Closing
            && self.kind_at(at.index.saturating_sub(1)) == Some(Kind::Attribute)
    }

    /// The width of a comma and of the comments that stand before it.
    fn comma_width(&self, at: &Between) -> usize {
        let has_comma = self.has_comma(at, true);
        let is_first = at.edge.separates || (has_comma && at.edge.touch != Touch::Beside);
        let comma = usize::from(at.edge.separates || has_comma);
        if !is_first || !at.edge.holds_comments {
            return comma;
        }
        let (before, _) = self.document.comments(at.index);
        width_of(before).saturating_add(comma)
    }
}

/// The width of comments with a blank before each.
fn width_of(comments: &[Comment<'_>]) -> usize {
    let mut width = 0usize;
    for comment in comments {
        width = width
            .saturating_add(1)
            .saturating_add(first_line(comment.text));
    }
    width
}
