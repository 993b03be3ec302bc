//! What holds items.
ghost use Rattle.std.specs.Prelude.{◌≡◌};
ghost use Rattle.ron_ser.specs.Place.{left, right};
ghost use Rattle.ron_ser.specs.Piece.{opening, closing};

/// A list, a map, or what stands in the brackets of a tuple or a struct, which are left out where it is bare.
#[derive(Clone, Copy)]
pub enum Container {
    List,
    Tuple { bare: bool },
    Map,
    Struct { bare: bool },
}

impl Container {
    /// The bracket before its items.
    #[inline(always)]
    pub fn left(self) -> &'static str
        ensures { result.now ≡ left self }
    {
        match self {
            Container::List => "[",
            Container::Map => "{",
            Container::Tuple { bare } | Container::Struct { bare } => opening(bare),
        }
    }

    /// The bracket behind them.
    #[inline(always)]
    pub fn right(self) -> &'static str
        ensures { result.now ≡ right self }
    {
        match self {
            Container::List => "]",
            Container::Map => "}",
            Container::Tuple { bare } | Container::Struct { bare } => closing(bare),
        }
    }
}

/// The bracket before what is not bare.
#[inline(always)]
pub fn opening(bare: bool) -> &'static str
    ensures { result.now ≡ opening bare }
{
    if bare { "" } else { "(" }
}

/// The bracket behind it.
#[inline(always)]
pub fn closing(bare: bool) -> &'static str
    ensures { result.now ≡ closing bare }
{
    if bare { "" } else { ")" }
}
