//! A text is cut into its words.
ghost use Rattle.std.specs.Prelude.{chars, MatchResult, IfErr};
ghost use Rattle.ron_format.specs.Refused.{IsRefused, TellsOpened};
ghost use Rattle.ron_format.specs.Whole.{IsWhole};

use crate::brackets::Brackets;
use crate::broken::broken_token;
use crate::document::{Document, Group, Word, kept};
use crate::edge::Finding;
use crate::refusal::{BracketFault, Refusal};
use crate::word::Sort;
use ron_base::error::Error;
use ron_lex::gap::skip_comment;
use ron_lex::token::skip_token;
use ron_lex_text::text::{before, is_ended, split_first};
use std::alloc::{AllocError, Global};

impl<'a> Document<'a> {
    /// A text cut into its words. It is refused where a token is broken, where a bracket is closed by one of another kind
    /// or closes none, and where one is not closed; and by `OutOfMemory`, as of a text of 2³² bytes. Of a bracket that is
    /// not closed, or by one of another kind, the refusal tells where it was opened.
    #[tactic(auto, using(crate::proofs::WholeLemmas::whole_end, crate::proofs::OpenLemmas::tells_memory, crate::proofs::OpenLemmas::tells_broken, crate::proofs::OpenLemmas::tells_end, crate::proofs::OpenLemmas::tells_fault, crate::proofs::OpenLemmas::bracket_end, crate::proofs::OpenLemmas::fault_end))]
    pub fn of(alloc: Global, text: &'a str) -> Result<Document<'a>, Refusal>
        ensures refused { MatchResult result (λ _. IsWhole (chars text.now)) (λ refusal. IsRefused (chars text.now) refusal.error) }
        ensures opened { IfErr result (TellsOpened (chars text.now)) }
    {
        let mut cutting = Cutting::new(alloc, text);
        let mut brackets = Brackets::new(alloc);
        let mut rest = text;
        while let Some(after) = skip_token(rest) {
            let token = before(rest, after);
            let group = match brackets.pass(rest, cutting.groups()) {
                Ok(group) => group,
                Err(fault) => return Err(Refusal::of_bracket(text, rest, after, fault)),
            };
            if cutting.pass(token, group).is_err() {
                return Err(Refusal::of(text, rest, after, Error::OutOfMemory));
            }
            rest = after;
        }
        if !is_ended(rest) {
            return Err(broken_token(alloc, text, rest));
        }
        if let Some(bracket) = brackets.take_innermost() {
            return Err(Refusal::of_bracket(text, rest, rest, BracketFault::NotClosed(bracket)));
        }
        match cutting.finish() {
            Ok(document) => Ok(document),
            Err(_) => Err(Refusal::of(text, rest, rest, Error::OutOfMemory)),
        }
    }
}

/// The words so far, and the edge behind them.
#[derive(Drop)]
struct Cutting<'a> {
    document: Document<'a>,
    finding: Finding,
    /// What the last word is.
    last: Sort,
    /// How many bytes were gone over.
    place: usize,
}

impl<'a> Cutting<'a> {
    fn new(alloc: Global, text: &'a str) -> Self {
        Cutting {
            document: Document::new(alloc, text),
            finding: Finding::new(0),
            last: Sort::End,
            place: 0,
        }
    }

    /// How many groups there are.
    fn groups(&self) -> usize {
        self.document.groups.len()
    }

    /// Goes on over a token, which opens or closes this group.
    fn pass(&mut self, token: &'a str, group: usize) -> Result<(), AllocError> {
        let start = self.place;
        self.place = start.saturating_add(token.len());
        let sort = Sort::of(token);
        match sort {
            Sort::Gap => self.cut_gap(token),
            Sort::Comma if self.last.ends_item() && !self.finding.separates() => {
                self.finding.separate();
                Ok(())
            }
            Sort::Solid if self.last == Sort::Solid && self.finding.is_empty() => self.grow(),
            Sort::Opening => self.open(start, group),
            Sort::Closing => self.close(start, group),
            Sort::Solid | Sort::Comma | Sort::Colon | Sort::End => {
                self.put(sort, start, self.place)
            }
        }
    }

    /// The last word has grown up to here.
    fn grow(&mut self) -> Result<(), AllocError> {
        let end = kept(self.place)?;
        if let Some(last) = self.document.words.last_mut() {
            last.tail = end;
        }
        Ok(())
    }

    /// Puts a word, and the edge before it.
    fn put(&mut self, sort: Sort, start: usize, tail: usize) -> Result<(), AllocError> {
        self.put_edge()?;
        self.document.words.push(Word {
            start: kept(start)?,
            tail: kept(tail)?,
        })?;
        self.last = sort;
        Ok(())
    }

    /// Puts the edge, and begins the next one.
    fn put_edge(&mut self) -> Result<(), AllocError> {
        let edge = self.finding.edge();
        if edge.holds_comments {
            let index = kept(self.document.edges.len())?;
            self.document.commented.push(index)?;
            self.document.stretches.push(self.finding.comments())?;
        }
        self.document.edges.push(edge)?;
        self.finding = Finding::new(self.document.all_comments.len());
        Ok(())
    }

    /// An opening bracket.
    fn open(&mut self, start: usize, group: usize) -> Result<(), AllocError> {
        let open = kept(self.document.words.len())?;
        self.document.groups.push(Group {
            open,
            close: u32::MAX,
        })?;
        self.put(Sort::Opening, start, group)
    }

    /// A closing bracket.
    fn close(&mut self, start: usize, group: usize) -> Result<(), AllocError> {
        let close = kept(self.document.words.len())?;
        if let Some(group) = self.document.groups.get_mut(group) {
            group.close = close;
        }
        self.put(Sort::Closing, start, group)
    }

    /// A gap: its comments and line ends.
    #[tactic(auto, using(crate::proofs::CommentLemmas::comment_end))]
    fn cut_gap(&mut self, gap: &'a str) -> Result<(), AllocError> {
        self.finding.begin_gap();
        let mut rest = gap;
        let mut last = ' ';
        while let Some((first, after)) = split_first(rest) {
            if first == '/' {
                if let Some(behind) = skip_comment(rest) {
                    self.pass_comment(before(rest, behind))?;
                    rest = behind;
                    continue;
                }
            }
            if first == '\n' {
                self.find_line_end(last == '\r');
                self.finding.end_line();
            }
            last = first;
            rest = after;
        }
        Ok(())
    }

    /// A comment as it stands.
    fn pass_comment(&mut self, text: &'a str) -> Result<(), AllocError> {
        let comment = self.finding.comment(text);
        if comment.is_line && text.as_bytes().ends_with(b"\n") {
            self.find_line_end(text.as_bytes().ends_with(b"\r\n"));
        }
        self.document.all_comments.push(comment)?;
        Ok(())
    }

    /// A line ends, behind a CR or not: the first one tells how the lines of the text end.
    fn find_line_end(&mut self, is_crlf: bool) {
        if self.document.is_crlf.is_none() {
            self.document.is_crlf = Some(is_crlf);
        }
    }

    /// The document, behind the last edge.
    fn finish(mut self) -> Result<Document<'a>, AllocError> {
        self.put_edge()?;
        let Cutting {
            document,
            finding: _,
            last: _,
            place: _,
        } = self;
        Ok(document)
    }
}
