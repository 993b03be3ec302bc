//! What is wrong with a token that is broken.
ghost use Rattle.std.specs.Prelude.{◌≡◌, None, chars};
ghost use Rattle.ron_lex_text.specs.Stretch.{IsSuffix};
ghost use Rattle.ron_format.specs.Refused.{IsSpanIn};

use crate::refusal::Refusal;
use ron_base::error::Error;
use ron_de_steps::faults::{integer_error, quoted_error, string_error};
use ron_de_steps::gap::pass_gap;
use ron_lex::cursor::Cursor;
use ron_lex::gap::opens_gap;
use ron_lex_text::text::is_at;
use std::alloc::Global;

/// What the readers report of the token that begins at `rest`, which is broken.
#[cold]
#[tactic(auto, using(crate::proofs::WholeLemmas::same_end))]
pub fn broken_token(alloc: Global, text: &str, rest: &str) -> Refusal
    requires { IsSuffix (chars rest.now) (chars text.now) }
    ensures place { IsSpanIn (chars text.now) result.error.span }
    ensures opened { result.opened ≡ None }
{
    let mut cursor = Cursor::new(rest);
    let error = fault_at(alloc, &mut cursor);
    let after = cursor.rest();
    Refusal::of(text, rest, after, error)
}

/// What the readers report of the token at the cursor's place, which goes behind the stretch at fault.
fn fault_at(alloc: Global, cursor: &mut Cursor<'_>) -> Error
    ensures { cursor.new.text ≡ cursor.old.text }
{
    if opens_gap(cursor.rest()) {
        return match pass_gap(cursor) {
            Ok(()) => Error::Eof,
            Err(error) => error,
        };
    }
    if cursor.opens_string() {
        return match cursor.string(alloc) {
            Ok(_) => Error::Eof,
            Err(refusal) => string_error(refusal),
        };
    }
    if cursor.opens_byte_string() {
        return match cursor.byte_string(alloc) {
            Ok(_) => Error::Eof,
            Err(refusal) => string_error(refusal),
        };
    }
    quoted_fault_at(cursor)
}

/// The same where neither a gap nor a string begins.
fn quoted_fault_at(cursor: &mut Cursor<'_>) -> Error
    ensures { cursor.new.text ≡ cursor.old.text }
{
    if is_at(cursor.rest(), '\'') {
        return match cursor.character() {
            Ok(_) => Error::Eof,
            Err(fault) => quoted_error(fault),
        };
    }
    match cursor.any_integer() {
        Ok(_) => Error::Eof,
        Err(fault) => integer_error(fault),
    }
}
