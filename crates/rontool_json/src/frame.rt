//! The groups of JSON that are open.

/// What a group is.
#[derive(Clone, Copy, PartialEq, Eq)]
pub(crate) enum Kind {
    /// The whole text: one value.
    Whole,
    /// A list.
    List,
    /// Members, by the names of fields.
    Fields,
    /// Members, by keys.
    Map,
    /// What a `Some` holds.
    Inner,
}

/// A group, and what is written of it.
#[derive(Clone, Copy)]
pub(crate) struct Frame {
    pub kind: Kind,
    /// Whether an item is written.
    pub holds: bool,
    /// Whether the next word begins an item.
    pub begins: bool,
}

impl Frame {
    /// A group of which nothing is written.
    pub(crate) fn new(kind: Kind) -> Self {
        Frame {
            kind,
            holds: false,
            begins: true,
        }
    }

    /// What opens it.
    pub(crate) fn opening(self) -> &'static str {
        match self.kind {
            Kind::List => "[",
            Kind::Fields | Kind::Map => "{",
            Kind::Whole | Kind::Inner => "",
        }
    }

    /// What closes it.
    pub(crate) fn closing(self) -> &'static str {
        match self.kind {
            Kind::List => "]",
            Kind::Fields | Kind::Map => "}",
            Kind::Whole | Kind::Inner => "",
        }
    }
}
