//! A value put in the place of another.
ghost use Rattle.std.specs.Prelude.{◌≡◌, ◌++◌, chars, string_bytes, IfOk};
ghost use Rattle.ron_lex_text.specs.Stretch.{IsSuffix};
ghost use Rattle.rontool_paths.specs.Stretch.{IsStretch, IsPut};

use crate::value::Value;
use ron_lex_text::text::before;
use std::alloc::{AllocError, Global};

impl<'t> Value<'t> {
    /// The value as it stands.
    pub fn text(self) -> &'t str
        requires { IsSuffix (chars self.behind.now) (chars self.from.now) }
        ensures { chars self.entry.from.now ≡ chars result.now ++ chars self.entry.behind.now }
    {
        before(self.from, self.behind)
    }
}

/// A text with another one in the place of one of its values. It fails where no memory is found.
pub fn put(alloc: Global, text: &str, old: Value<'_>, new: &str) -> Result<String, AllocError>
    requires { IsStretch (chars text.now) old }
    ensures { IfOk result (λ whole. IsPut (chars text.now) old.entry (chars new.now) (chars (string_bytes whole))) }
{
    let front = before(text, old.from);
    joined(alloc, front, new, old.behind)
}

/// Three texts as one.
fn joined(alloc: Global, front: &str, middle: &str, end: &str) -> Result<String, AllocError>
    ensures { IfOk result (λ whole. string_bytes whole ≡ (front.now ++ middle.now) ++ end.now) }
{
    let mut whole = String::from_str(alloc, front)?;
    whole.push_str(middle)?;
    whole.push_str(end)?;
    Ok(whole)
}
