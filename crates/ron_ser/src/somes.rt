//! `Some`s that are left out under implicit_some.
ghost use Rattle.std.specs.Prelude.{◌≡◌, true, if◌then◌else◌, chars};
ghost use Rattle.ron_spec_layout.specs.Config.{blank};
ghost use Rattle.ron_spec_layout.specs.Keeping.{leads, IsValidFirst};
ghost use Rattle.ron_spec_layout.specs.Brackets.{opens_as_option};
ghost use Rattle.ron_ser.specs.Written.{keeps_at, inside_tuple};
ghost use Rattle.ron_data.specs.Datum.{data_view, items_view};
ghost use Rattle.ron_ser.specs.Piece.{IsKnown};
ghost use Rattle.ron_ser.specs.declared.somes.Somes.TheVariants.{Unasked};
ghost use Rattle.ron_ser.specs.Stand.{place_of};

use crate::values::value_keeps_somes;
use crate::writing::Writing;
use ron_data::data::Data;
use ron_lex::cursor::Cursor;

/// What is known of the `Some`s around a value under implicit_some.
#[derive(Clone, Copy)]
pub enum Somes {
    /// They have to be written.
    Kept,
    /// They can be left out.
    LeftOut,
    /// Nothing yet: it hasn't been asked.
    Unasked,
}

/// How a value is written: bare or not and, where it stands in a `Some` that may be left out, what is known of that.
#[derive(Clone, Copy)]
pub struct Manner {
    pub bare: bool,
    pub somes: Somes,
}

/// Whether the `Some`s around this value, which may be bare, have to be written under implicit_some: without them its
/// text would be taken for `None`, or for the `Some` of something else.
#[cycle(keeps)]
pub fn keeps_somes(value: &Data, bare: bool, writing: &Writing) -> bool
    requires blank { blank (place_of writing.now).config ≡ true }
    requires implicit { (place_of writing.now).extensions.implicit_some ≡ true }
    ensures { result ≡ keeps_at (place_of writing.now) bare (data_view value.now) }
{
    match value {
        Data::Option(option) => match option {
            None => true,
            Some(content) => keeps_somes(content, bare, writing),
        },
        Data::Newtype(_, content) => {
            writing.unwraps_newtype(bare) && keeps_somes(content, false, writing)
        }
        Data::Tuple(items) => bare && first_keeps_somes(items.as_slice(), writing),
        Data::TupleStruct(_, items) => bare && first_keeps_somes(items.as_slice(), writing),
        Data::Value(held) => value_keeps_somes(held.as_value()),
        Data::Raw(_) => true,
        Data::Bool(_)
        | Data::Int(_)
        | Data::Char(_)
        | Data::Str(_)
        | Data::Bytes(_)
        | Data::Unit
        | Data::Seq(_)
        | Data::Map(_)
        | Data::UnitStruct(_)
        | Data::Struct(..)
        | Data::Variant { .. } => false,
    }
}

/// Whether the text of this value, which isn't bare, begins as an option. That of a raw text begins as it likes.
#[cycle(keeps)]
fn leads(value: &Data, writing: &Writing) -> bool
    requires blank { blank (place_of writing.now).config ≡ true }
    requires implicit { (place_of writing.now).extensions.implicit_some ≡ true }
    ensures value { result ≡ leads (place_of writing.now).extensions (data_view value.now) }
    ensures valid { IsValidFirst (data_view value.now) }
{
    match value {
        Data::Raw(raw) => opens_as_option(raw.get_ron()),
        Data::Newtype(_, content) => {
            let content_leads = leads(content, writing);
            writing.unwraps_newtype(false) && content_leads
        }
        Data::Option(option) => match option {
            None => true,
            Some(content) => keeps_somes(content, false, writing),
        },
        Data::Value(held) => value_keeps_somes(held.as_value()),
        Data::Bool(_)
        | Data::Int(_)
        | Data::Char(_)
        | Data::Str(_)
        | Data::Bytes(_)
        | Data::Unit
        | Data::Seq(_)
        | Data::Tuple(_)
        | Data::Map(_)
        | Data::UnitStruct(_)
        | Data::TupleStruct(..)
        | Data::Struct(..)
        | Data::Variant { .. } => false,
    }
}

/// Whether a text begins, behind a gap, with the word `None` or `Some`.
#[tactic(auto, unfolding(ron_lex_text::proofs::StretchLemmas::literals))]
fn opens_as_option(text: &str) -> bool
    ensures { result ≡ opens_as_option (chars text.now) }
{
    let mut cursor = Cursor::new(text);
    match cursor.pass_gap() {
        Ok(()) => cursor.is_word("None") || cursor.is_word("Some"),
        Err(_) => false,
    }
}

/// The same of a bare tuple with these items: its text begins with that of the first one.
#[cycle(keeps)]
fn first_keeps_somes(items: &[Data], writing: &Writing) -> bool
    requires blank { blank (place_of writing.now).config ≡ true }
    requires implicit { (place_of writing.now).extensions.implicit_some ≡ true }
    ensures { result ≡ opens_as_option (inside_tuple (place_of writing.now) (items_view items.now)) }
{
    match items.first() {
        Some(first) => leads(first, writing),
        None => false,
    }
}

/// Whether that is so of a value of which it may be known.
pub fn are_kept(somes: Somes, value: &Data, bare: bool, writing: &Writing) -> bool
    requires blank { blank (place_of writing.now).config ≡ true }
    requires implicit { (place_of writing.now).extensions.implicit_some ≡ true }
    ensures { IsKnown somes (keeps_at (place_of writing.now) bare (data_view value.now))
        → result ≡ keeps_at (place_of writing.now) bare (data_view value.now) }
{
    match somes {
        Somes::Kept => true,
        Somes::LeftOut => false,
        Somes::Unasked => keeps_somes(value, bare, writing),
    }
}

/// What is known of the `Some`s around a newtype's content, which stands alone or doesn't, from what is known of those
/// around the newtype.
pub fn somes_inside(somes: Somes, alone: bool) -> Somes
    ensures { result ≡ (if alone then somes else Unasked) }
{
    if alone { somes } else { Somes::Unasked }
}
