//! The three fields of a tree, taken out of a struct in their order.
ghost use Rattle.std.specs.Prelude.{◌≡◌, ◌∷◌, List, String, chars, string_bytes, IfOk, IfErr, IfSome, IfNone};
ghost use Rattle.std.specs.declared.alloc.Global.{Global};
ghost use Rattle.std.specs.Vec.Iter.{into_iter_items};
ghost use Rattle.ron_example_tree.specs.TreeFields.{AreFields};

use ron::error::Result;
use ron::types::{missing_field, unexpected_field};
use ron_lex_text::text::is_same;
use std::alloc::Global;
use std::vec::IntoIter;

/// What the three fields hold, where they have the names of a tree's.
pub fn three<X: Drop>(alloc: Global, fields: IntoIter<(String, X)>) -> Result<(X, X, X)>
    ensures ok { IfOk result (λ p. AreFields p.0 p.1 p.2 (into_iter_items fields)) }
    ensures err { IfErr result (λ e. (x y z : X) → AreFields x y z (into_iter_items fields) → ⊥) }
{
    let Some((_, value, fields)) = take(fields, "value") else {
        return Err(missing_field(alloc, "value"));
    };
    let Some((_, children, fields)) = take(fields, "children") else {
        return Err(missing_field(alloc, "children"));
    };
    let Some((_, next, mut fields)) = take(fields, "next") else {
        return Err(missing_field(alloc, "next"));
    };
    if fields.next().is_some() {
        return Err(unexpected_field(alloc));
    }
    Ok((value, children, next))
}

/// The next field, which has this name, with what it holds, and those behind it.
#[tactic(auto, using(ron_spec_grammar::proofs::Finding::same_is))]
fn take<X: Drop>(
    fields: IntoIter<(String, X)>,
    name: &str,
) -> Option<(String, X, IntoIter<(String, X)>)>
    ensures some { IfSome result (λ p. into_iter_items fields ≡ (p.0, p.1) ∷ into_iter_items p.2) }
    ensures named { IfSome result (λ p. chars (string_bytes p.0) ≡ chars name.now) }
    ensures none { IfNone result ((found : String Global) (x : X) (rest : List _) →
        into_iter_items fields ≡ (found, x) ∷ rest → chars (string_bytes found) ≡ chars name.now → ⊥) }
{
    let mut fields = fields;
    let (found, held) = fields.next()?;
    if !is_same(found.as_str(), name) {
        return None;
    }
    Some((found, held, fields))
}
