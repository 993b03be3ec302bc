//! The kinds of what stands behind the opening brackets of a text, found in one pass over its tokens.
ghost use Rattle.std.specs.Prelude.{◌≡◌, ◌++◌, [], ◌∷◌, chars, map, reverse, length, if◌then◌else◌, false, IfOk, OnOk};
ghost use Rattle.ron_spec_words.specs.Kind.{broken};
ghost use Rattle.ron_spec_words.specs.KindTable.{behind_opening, elsewhere, next_stage, next_groups, next_table, names_field, told, settle, tell_innermost};
ghost use Rattle.ron_spec_words.specs.Openings.{content_place};
ghost use Rattle.ron_spec_words.specs.Runs.{begins};
ghost use Rattle.ron_spec_words.specs.Scan.{is_opening, is_closing, ends};
ghost use Rattle.ron_lex.specs.Kinds.{kind_view, stage_view, AreKindsIn, FindsKind, FindsPlace};

use crate::gap::{opens_gap, skip_gap};
use crate::identifier::split_name;
use crate::lookahead::{ends_item, is_closing, is_opening, separates};
use crate::token::skip_token;
use crate::turns::bytes_of;
use ron_lex_text::text::{is_at, split_first};
use std::alloc::{AllocError, Global};

/// The kind of what stands behind an opening bracket.
#[derive(Clone, Copy)]
pub enum Kind {
    /// Fields by their names: after a gap a name, a gap and `:`.
    Named,
    /// Several items.
    Many,
    /// One item, with or without a last comma, or none.
    Newtype,
    /// A token is broken, or the text ends, before that is told.
    Broken,
}

/// What is known of the kinds in a text.
#[derive(Drop)]
pub(crate) enum Table {
    /// They weren't asked for.
    Unasked,
    /// They were asked for, and memory for them was refused.
    Refused,
    Filled(Kinds),
}

/// Of each opening bracket of a text in turn, up to the first broken token: how many bytes stand before what it holds,
/// and the kind of that.
#[derive(Drop)]
pub(crate) struct Kinds {
    places: Vec<usize>,
    kinds: Vec<Kind>,
    /// The index behind the one that was found last: who reads on asks for that bracket next.
    next: usize,
}

impl Kinds {
    /// The kinds in a text. Each byte is gone over at most five times: for the hashes of a raw string, as a token, which
    /// may be twice, for a field's name, and for the gap behind a bracket or a comma.
    pub(crate) fn of_text(alloc: Global, text: &str) -> Result<Kinds, AllocError>
        ensures { IfOk result (λ k. AreKindsIn (chars text.now) k.places.items (map kind_view k.kinds.items)) }
    {
        let mut filling = Filling::new(alloc);
        let mut rest = text;
        while let Some(after) = skip_token(rest) {
            filling.pass(text, rest, after)?;
            rest = after;
        }
        Ok(filling.found)
    }

    /// The kind of the content that begins behind so many bytes.
    pub(crate) fn at(&mut self, place: usize) -> Option<Kind>
        ensures value { FindsKind self.old.places.items self.old.kinds.items place result }
        ensures places { self.new.places.items ≡ self.old.places.items }
        ensures kinds { self.new.kinds.items ≡ self.old.kinds.items }
    {
        let index = self.index_of(place)?;
        self.next = index.saturating_add(1);
        self.kinds.get(index).copied()
    }

    /// Where this place stands among the places.
    fn index_of(&self, place: usize) -> Option<usize>
        ensures { FindsPlace self.now.places.items place result }
    {
        if self.places.get(self.next).copied() == Some(place) {
            return Some(self.next);
        }
        match self.places.binary_search(&place) {
            Ok(index) => Some(index),
            Err(_) => None,
        }
    }
}

/// Where the pass stands in the innermost group: behind its bracket, behind a name that follows it, or further.
#[derive(Clone, Copy)]
enum Stage {
    BehindOpening,
    BehindName,
    Elsewhere,
}

/// The pass over the tokens: what was found, and which brackets are open, the innermost last.
#[derive(Drop)]
struct Filling {
    found: Kinds,
    groups: Vec<usize>,
    stage: Stage,
}

impl Filling {
    fn new(alloc: Global) -> Self
        ensures stage { stage_view result.stage ≡ elsewhere }
        ensures groups { result.groups.items ≡ [] }
        ensures places { result.found.places.items ≡ [] }
        ensures kinds { result.found.kinds.items ≡ [] }
    {
        Filling {
            found: Kinds {
                places: Vec::new(alloc),
                kinds: Vec::new(alloc),
                next: 0,
            },
            groups: Vec::new(alloc),
            stage: Stage::Elsewhere,
        }
    }

    /// Goes on over the token that stands between two places of the text.
    fn pass(&mut self, text: &str, rest: &str, after: &str) -> Result<(), AllocError>
        ensures stage { OnOk result (stage_view self.new.stage ≡ next_stage (stage_view self.old.stage) (chars rest.now)) }
        ensures groups { OnOk result (reverse self.new.groups.items ≡
            next_groups (length self.old.found.kinds.items) (chars rest.now) (reverse self.old.groups.items)) }
        ensures kinds { OnOk result (map kind_view self.new.found.kinds.items ≡
            next_table (stage_view self.old.stage) (chars rest.now) (reverse self.old.groups.items)
            (map kind_view self.old.found.kinds.items)) }
        ensures places { OnOk result (self.new.found.places.items ≡ self.old.found.places.items
            ++ (if begins is_opening (chars rest.now) then content_place (chars text.now) (chars after.now) ∷ [] else [])) }
    {
        if opens_group(rest) {
            return self.open_group(bytes_of(text).saturating_sub(bytes_of(skip_gap(after))));
        }
        let kind = told(self.stage, rest);
        self.tell_innermost(kind);
        if closes_group(rest) {
            let _ = self.groups.pop();
        }
        self.stage = behind_word(self.stage, rest);
        Ok(())
    }

    /// A bracket opens a group whose content begins behind so many bytes.
    fn open_group(&mut self, place: usize) -> Result<(), AllocError>
        ensures stage { OnOk result (stage_view self.new.stage ≡ behind_opening) }
        ensures groups { OnOk result (self.new.groups.items ≡ self.old.groups.items ++ length self.old.found.kinds.items ∷ []) }
        ensures kinds { OnOk result (map kind_view self.new.found.kinds.items ≡
            map kind_view self.old.found.kinds.items ++ broken ∷ []) }
        ensures places { OnOk result (self.new.found.places.items ≡ self.old.found.places.items ++ place ∷ []) }
    {
        self.groups.push(self.found.kinds.len())?;
        self.found.places.push(place)?;
        self.found.kinds.push(Kind::Broken)?;
        self.stage = Stage::BehindOpening;
        Ok(())
    }

    /// What a token tells of the innermost group, unless that was told before.
    fn tell_innermost(&mut self, kind: Kind)
        ensures stage { self.new.stage ≡ self.old.stage }
        ensures groups { self.new.groups.items ≡ self.old.groups.items }
        ensures kinds { map kind_view self.new.found.kinds.items ≡
            tell_innermost (reverse self.old.groups.items) (kind_view kind) (map kind_view self.old.found.kinds.items) }
        ensures places { self.new.found.places.items ≡ self.old.found.places.items }
    {
        let Some(index) = self.groups.last() else {
            return;
        };
        let index = *index;
        if index < self.found.kinds.len() {
            self.found.kinds[index] = settle(kind, self.found.kinds[index]);
        }
    }
}

/// What was told of a group, and this where nothing was.
fn settle(kind: Kind, before: Kind) -> Kind
    ensures { kind_view result ≡ settle (kind_view kind) (kind_view before) }
{
    match before {
        Kind::Broken => kind,
        Kind::Named | Kind::Many | Kind::Newtype => before,
    }
}

/// What the token that begins here tells of the innermost group: `:` behind its first name, a comma and a closing bracket
/// tell its kind.
fn told(stage: Stage, rest: &str) -> Kind
    ensures { kind_view result ≡ told (stage_view stage) (chars rest.now) }
{
    if names_field(stage, rest) {
        return Kind::Named;
    }
    if !ends_first_item(rest) {
        return Kind::Broken;
    }
    if separates(rest) {
        Kind::Many
    } else {
        Kind::Newtype
    }
}

/// Whether `:` stands here behind a group's opening bracket and a name.
fn names_field(stage: Stage, rest: &str) -> bool
    ensures { result ≡ names_field (stage_view stage) (chars rest.now) }
{
    match stage {
        Stage::BehindName => is_at(rest, ':'),
        Stage::BehindOpening | Stage::Elsewhere => false,
    }
}

/// Whether a comma or a closing bracket stands here.
fn ends_first_item(rest: &str) -> bool
    ensures { result ≡ begins (ends false 0) (chars rest.now) }
{
    match split_first(rest) {
        Some((first, _)) => ends_item(0, first),
        None => false,
    }
}

/// Where the pass stands behind a token that is no opening bracket.
fn behind_word(stage: Stage, rest: &str) -> Stage
    ensures { begins is_opening (chars rest.now) ≡ false → stage_view result ≡ next_stage (stage_view stage) (chars rest.now) }
{
    match stage {
        _ if opens_gap(rest) => stage,
        Stage::BehindOpening if split_name(rest).is_ok() => Stage::BehindName,
        Stage::BehindOpening | Stage::BehindName | Stage::Elsewhere => Stage::Elsewhere,
    }
}

/// Whether an opening bracket stands here.
fn opens_group(rest: &str) -> bool
    ensures { result ≡ begins is_opening (chars rest.now) }
{
    match split_first(rest) {
        Some((first, _)) => is_opening(first),
        None => false,
    }
}

/// Whether a closing bracket stands here.
fn closes_group(rest: &str) -> bool
    ensures { result ≡ begins is_closing (chars rest.now) }
{
    match split_first(rest) {
        Some((first, _)) => is_closing(first),
        None => false,
    }
}
