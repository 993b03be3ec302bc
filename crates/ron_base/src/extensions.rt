//! The extensions of the format, which a text or its reader switches on.

ghost use Rattle.std.specs.Prelude.{⊤, ◌≡◌, [], ◌∷◌, chars, codes};
ghost use Rattle.ron_base.specs.Extensions.{no_extensions, all_extensions, union, intersection, difference};
ghost use Rattle.ron_base.specs.Extensions.{complement, is_empty, contains, bits_of, extension_of_name};

use bitflags::{Flag, Flags};
use std::marker::Model;
use std::ops::{BitAnd, BitOr, Not, Sub};

/// A byte with a bit for each extension's name.
#[derive(Clone, Copy, Debug, PartialEq, Eq, PartialOrd, Ord, Hash)]
struct NamedBits(u8);

impl NamedBits {
    const UNWRAP_NEWTYPES: NamedBits = NamedBits(1);

    const IMPLICIT_SOME: NamedBits = NamedBits(2);

    const UNWRAP_VARIANT_NEWTYPES: NamedBits = NamedBits(4);

    const EXPLICIT_STRUCT_NAMES: NamedBits = NamedBits(8);

    const FLAGS: &'static [Flag<NamedBits>] = &[
        Flag {
            name: "unwrap_newtypes",
            value: NamedBits::UNWRAP_NEWTYPES,
        },
        Flag {
            name: "implicit_some",
            value: NamedBits::IMPLICIT_SOME,
        },
        Flag {
            name: "unwrap_variant_newtypes",
            value: NamedBits::UNWRAP_VARIANT_NEWTYPES,
        },
        Flag {
            name: "explicit_struct_names",
            value: NamedBits::EXPLICIT_STRUCT_NAMES,
        },
    ];
}

impl Flags for NamedBits {
    type Bits = u8;

    ghost exact = { ⊤ };

    ghost table = { (codes "unwrap_newtypes", 1) ∷ (codes "implicit_some", 2)
        ∷ (codes "unwrap_variant_newtypes", 4) ∷ (codes "explicit_struct_names", 8) ∷ [] };

    ghost set_of = { λ bits. bits.0 };

    fn flags<'a>() -> &'a [Flag<NamedBits>] {
        NamedBits::FLAGS
    }

    fn bits(&self) -> u8 {
        self.0
    }

    fn from_bits_retain(bits: u8) -> NamedBits {
        NamedBits(bits)
    }
}

/// A set of extensions, each of which changes how texts spell values. Sets are ordered by their bits.
#[derive(Clone, Copy, Debug, PartialEq, Eq, PartialOrd, Ord, Hash)]
pub struct Extensions {
    flags: NamedBits,
}

impl Model for Extensions {
    ghost use Rattle.std.specs.Prelude.{◌<◌};
    ghost use Rattle.ron_base.specs.Extensions.{ExtensionSet, set_of_bits, bits_of};

    ghost Value = { ExtensionSet };

    ghost view = { λ e. set_of_bits e.flags.0 };

    // No bit past the four is ever set.
    ghost invariant = { λ e. e.flags.0 < 16 };

    ghost inverse = { λ a. record { flags = record { 0 = bits_of a } } };
}

impl Extensions {
    /// A newtype is spelled as what it holds alone.
    pub const UNWRAP_NEWTYPES: Extensions = Extensions {
        flags: NamedBits::UNWRAP_NEWTYPES,
    };
    /// A value may stand for `Some` of it.
    pub const IMPLICIT_SOME: Extensions = Extensions {
        flags: NamedBits::IMPLICIT_SOME,
    };
    /// What a newtype variant holds is spelled without brackets of its own.
    pub const UNWRAP_VARIANT_NEWTYPES: Extensions = Extensions {
        flags: NamedBits::UNWRAP_VARIANT_NEWTYPES,
    };
    /// A struct's name can't be left out.
    pub const EXPLICIT_STRUCT_NAMES: Extensions = Extensions {
        flags: NamedBits::EXPLICIT_STRUCT_NAMES,
    };

    /// The set of none.
    pub fn empty() -> Extensions
        ensures { result ≡ no_extensions }
    {
        Extensions {
            flags: NamedBits::empty(),
        }
    }

    /// The set of all four.
    pub fn all() -> Extensions
        ensures { result ≡ all_extensions }
    {
        Extensions {
            flags: NamedBits::all(),
        }
    }

    /// The extension of a name in lower case, as `implicit_some`. Any other text is none's name.
    pub fn from_ident(ident: &str) -> Option<Extensions>
        ensures { result ≡ extension_of_name (chars ident.now) }
    {
        let flags = NamedBits::from_name(ident)?;
        Some(Extensions { flags })
    }

    /// The set as a number: `UNWRAP_NEWTYPES` is 1, `IMPLICIT_SOME` 2, `UNWRAP_VARIANT_NEWTYPES` 4 and
    /// `EXPLICIT_STRUCT_NAMES` 8.
    pub fn bits(self) -> usize
        ensures { result ≡ bits_of self }
    {
        usize::from(self.flags.bits())
    }

    /// Whether it has none of the four.
    pub fn is_empty(self) -> bool
        ensures { result ≡ is_empty self }
    {
        self.flags.is_empty()
    }

    /// Whether it has all that the other has.
    pub fn contains(self, other: Extensions) -> bool
        ensures { result ≡ contains self other }
    {
        other.difference(self).is_empty()
    }

    /// What either has, as `self | other`.
    pub fn union(self, other: Extensions) -> Extensions
        ensures { result ≡ union self other }
    {
        Extensions {
            flags: self.flags.union(other.flags),
        }
    }

    /// What both have, as `self & other`.
    pub fn intersection(self, other: Extensions) -> Extensions
        ensures { result ≡ intersection self other }
    {
        Extensions {
            flags: self.flags.intersection(other.flags),
        }
    }

    /// What this has and the other does not, as `self - other`.
    pub fn difference(self, other: Extensions) -> Extensions
        ensures { result ≡ difference self other }
    {
        Extensions {
            flags: self.flags.difference(other.flags),
        }
    }

    /// Which of the four it does not have, as `!self`.
    pub fn complement(self) -> Extensions
        ensures { result ≡ complement self }
    {
        Extensions::all().difference(self)
    }
}

impl BitOr for Extensions {
    type Output = Extensions;

    ghost bitor_gives = { λ a b r. r ≡ union a b };

    fn bitor(self, other: Extensions) -> Extensions {
        self.union(other)
    }
}

impl BitAnd for Extensions {
    type Output = Extensions;

    ghost bitand_gives = { λ a b r. r ≡ intersection a b };

    fn bitand(self, other: Extensions) -> Extensions {
        self.intersection(other)
    }
}

impl Sub for Extensions {
    type Output = Extensions;

    ghost sub_gives = { λ a b r. r ≡ difference a b };

    fn sub(self, other: Extensions) -> Extensions {
        self.difference(other)
    }
}

impl Not for Extensions {
    type Output = Extensions;

    ghost not_gives = { λ a r. r ≡ complement a };

    fn not(self) -> Extensions {
        self.complement()
    }
}

impl Default for Extensions {
    ghost is_default = { λ a. a ≡ no_extensions };

    fn default() -> Extensions {
        Extensions::empty()
    }
}
