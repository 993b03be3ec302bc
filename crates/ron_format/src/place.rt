//! Where an edge stands: what is directly before it, and in which part of the text.
ghost use Rattle.std.specs.Prelude.{◌≡◌, List, [], ◌∷◌, ℕ, chars};
ghost use Rattle.ron_spec_words.specs.Characters.{comma};
ghost use Rattle.ron_spec_words.specs.Runs.{begins};
ghost use Rattle.ron_format_words.specs.Alike.{is_mark, ends_item, a_mark};
ghost use Rattle.ron_format_words.specs.Places.{place_behind, commas_in, in_head};
ghost use Rattle.ron_format_words.specs.Written.{before_edge, place_past, place_past_edge};
ghost use Rattle.ron_format.specs.View.{before_view, place_view};

use ron_lex::gap::skip_gap;
use ron_lex_text::text::{is_at, split_first};

/// What stands directly before an edge.
#[derive(Clone, Copy, PartialEq, Eq)]
pub enum Before {
    /// `(`.
    Parenthesis,
    /// The text's beginning, or another mark behind which no item ends.
    Mark,
    /// A closing bracket.
    End,
    /// A word that is no mark.
    Word,
}

/// Where a word stands: before an attribute or the value, in an attribute, or in the value.
#[derive(Clone, Copy, PartialEq, Eq)]
pub enum Place {
    Head,
    Attribute,
    Body,
}

/// Where an edge begins: behind what, and in which part of the text.
#[derive(Clone, Copy)]
pub struct Spot {
    pub before: Before,
    pub place: Place,
}

impl Spot {
    /// The beginning of a text.
    pub fn start() -> Self
        ensures before { before_view result.before ≡ a_mark }
        ensures place { place_view result.place ≡ in_head }
    {
        Spot {
            before: Before::Mark,
            place: Place::Head,
        }
    }
}

/// Whether the character is a mark: a colon, a comma or a bracket.
pub fn is_mark(character: char) -> bool
    ensures { result ≡ is_mark character }
{
    matches!(character, ',' | ':' | '(' | ')' | '[' | ']' | '{' | '}')
}

impl Before {
    /// What stands before the edge behind the token that begins here.
    pub fn behind(text: &str) -> Before
        ensures { before_view result ≡ before_edge (chars text.now) }
    {
        match split_first(text) {
            Some((first, _)) => Before::of(first),
            None => Before::Mark,
        }
    }

    /// The same for a token that begins so.
    fn of(first: char) -> Before
        ensures { before_view result ≡ before_edge (first ∷ []) }
    {
        if first == '(' {
            return Before::Parenthesis;
        }
        if matches!(first, ')' | ']' | '}') {
            return Before::End;
        }
        if is_mark(first) {
            Before::Mark
        } else {
            Before::Word
        }
    }

    /// Whether an item may end before the edge.
    pub fn ends_item(self) -> bool
        ensures { result ≡ ends_item (before_view self) }
    {
        match self {
            Before::End | Before::Word => true,
            Before::Parenthesis | Before::Mark => false,
        }
    }
}

impl Place {
    /// The place behind the token that begins here.
    pub fn past(self, text: &str) -> Place
        ensures { place_view result ≡ place_past (place_view self) (chars text.now) }
    {
        match split_first(text) {
            Some((first, _)) => self.behind(first),
            None => self,
        }
    }

    /// The place behind a word or a mark that begins so.
    pub fn behind(self, first: char) -> Place
        ensures { place_view result ≡ place_behind (place_view self) first }
    {
        match self {
            Place::Head => {
                if first == '#' {
                    Place::Attribute
                } else {
                    Place::Body
                }
            }
            Place::Attribute => {
                if first == ']' {
                    Place::Head
                } else {
                    Place::Attribute
                }
            }
            Place::Body => Place::Body,
        }
    }

    /// The place behind an edge that begins here. A comma in it is a mark.
    pub fn past_edge(self, edge: &str) -> Place
        ensures { place_view result ≡ place_past_edge (place_view self) (chars edge.now) }
    {
        if is_at(skip_gap(edge), ',') {
            self.behind(',')
        } else {
            self
        }
    }

    /// Whether last commas may come and go there.
    pub fn takes_commas(self) -> bool
        ensures { (rest : List ℕ) → result ≡ commas_in (place_view self) rest }
    {
        match self {
            Place::Body => true,
            Place::Head | Place::Attribute => false,
        }
    }
}
