//! What stands around a word.
use rontool_paths::word::Bracket;

/// What a group is.
#[derive(Clone, Copy, PartialEq, Eq)]
pub(crate) enum Kind {
    /// The whole text: one value.
    Whole,
    /// Items.
    Items,
    /// Fields.
    Fields,
    /// Keys with values.
    Map,
    /// Items or fields, as the first colon or comma tells.
    Unknown,
}

/// What may come next in a group.
#[derive(Clone, Copy, PartialEq, Eq)]
pub(crate) enum Stage {
    /// An item, or the group's end.
    Begin,
    /// A value, a key or a field's name stands here: a comma, the end, or a colon.
    Item,
    /// A value, behind a colon.
    Value,
    /// A value stands behind a colon: a comma, or the end.
    Done,
}

/// A group and how far it is read.
#[derive(Clone, Copy)]
pub(crate) struct Frame {
    pub kind: Kind,
    pub stage: Stage,
    /// The number of the group among all, by which keys of different groups are told apart.
    pub number: u64,
}

impl Frame {
    /// The whole text, of which nothing is read yet.
    pub(crate) fn whole() -> Self {
        Frame {
            kind: Kind::Whole,
            stage: Stage::Begin,
            number: 0,
        }
    }

    /// The group that a bracket opens.
    pub(crate) fn opened(bracket: Bracket, number: u64) -> Self {
        Frame {
            kind: match bracket {
                Bracket::Round => Kind::Unknown,
                Bracket::Square => Kind::Items,
                Bracket::Curly => Kind::Map,
            },
            stage: Stage::Begin,
            number,
        }
    }

    /// The same at another stage.
    pub(crate) fn at(self, stage: Stage) -> Self {
        Frame { stage, ..self }
    }

    /// Whether a key or a field's name stands here whose colon is missing.
    pub(crate) fn lacks_colon(self) -> bool {
        self.stage == Stage::Item && matches!(self.kind, Kind::Fields | Kind::Map)
    }
}
