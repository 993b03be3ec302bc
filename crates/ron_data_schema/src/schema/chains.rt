//! How long the chains of options and newtypes are.
ghost use Rattle.std.specs.Prelude.{◌≡◌, ◌<◌, ◌≤◌, true, false, length, MatchResult, MatchOption};
ghost use Rattle.ron_spec_grammar.specs.Schema.{content_of, content_at, ends_within, has_no_cycle};
ghost use Rattle.ron_spec_grammar.specs.Room.{chain};
ghost use Rattle.ron_data_schema.specs.Chains.{HoldsIndices, is_of_length, AreRanks};
ghost use Rattle.ron_data_schema.specs.Shapes.{table_view, shape_view};
ghost use Rattle.ron_base.specs.declared.error.Error.TheVariants.{OutOfMemory};

use super::Shape;
use ron_base::error::Result;
use std::alloc::Global;

/// The members of the longest chain of options and newtypes, or `None` where they form a cycle. Refused by
/// `OutOfMemory` alone.
pub(super) fn longest_chain(alloc: Global, shapes: &[Shape]) -> Result<Option<usize>>
    requires { HoldsIndices (table_view shapes.now) }
    ensures { MatchResult result (λ longest. MatchOption longest (has_no_cycle (table_view shapes.now) ≡ false)
        (λ n. (has_no_cycle (table_view shapes.now) ≡ true) × (n ≡ chain (table_view shapes.now))))
        (λ e. e ≡ OutOfMemory) }
{
    let mut ranks = vec![in alloc; 0; shapes.len()]?;
    Ok(measure(shapes, ranks.as_mut_slice()))
}

/// The longest of all chains, by ranks that aren't known yet.
fn measure(shapes: &[Shape], ranks: &mut [usize]) -> Option<usize>
    requires holds { HoldsIndices (table_view shapes.now) }
    requires for_each { length ranks.old ≡ length shapes.now }
    requires ranks { AreRanks (table_view shapes.now) ranks.old }
    ensures { MatchOption result (has_no_cycle (table_view shapes.now) ≡ false)
        (λ n. (has_no_cycle (table_view shapes.now) ≡ true) × (n ≡ chain (table_view shapes.now))) }
{
    let mut longest = 0;
    for index in 0..shapes.len() {
        let rank = rank_of(shapes, ranks, index)?;
        note_ranks(shapes, ranks, index, rank);
        if longest < rank {
            longest = rank;
        }
    }
    Some(longest)
}

/// How many members the chain at an index has, or `None` where there are more than shapes, so that it comes back.
/// `ranks` holds the members of each chain that is known, and 0 for others. Follows the chain until a known one.
fn rank_of(shapes: &[Shape], ranks: &[usize], index: usize) -> Option<usize>
    requires holds { HoldsIndices (table_view shapes.now) }
    requires for_each { length ranks.now ≡ length shapes.now }
    requires ranks { AreRanks (table_view shapes.now) ranks.now }
    requires here { index < length shapes.now }
    ensures { MatchOption result (ends_within (table_view shapes.now) (length shapes.now) (content_at (table_view shapes.now) index) ≡ false)
        (λ n. (n ≤ length shapes.now) × (is_of_length (table_view shapes.now) n (content_at (table_view shapes.now) index) ≡ true)) }
{
    let mut at = index;
    let mut members = 0;
    while let Some(content) = content_of(&shapes[at]) {
        let known = ranks[at];
        let left = shapes.len() - members;
        if left == 0 || left < known {
            return None;
        }
        if known > 0 {
            return Some(members + known);
        }
        members += 1;
        at = content;
    }
    Some(members)
}

/// Notes the ranks on the chain at an index, whose members are `rank`, until a known one.
fn note_ranks(shapes: &[Shape], ranks: &mut [usize], index: usize, rank: usize)
    requires holds { HoldsIndices (table_view shapes.now) }
    requires for_each { length ranks.old ≡ length shapes.now }
    requires ranks { AreRanks (table_view shapes.now) ranks.old }
    requires here { index < length shapes.now }
    requires rank { is_of_length (table_view shapes.now) rank (content_at (table_view shapes.now) index) ≡ true }
    ensures { AreRanks (table_view shapes.now) ranks.new }
{
    let mut at = index;
    let mut left = rank;
    while let Some(content) = content_of(&shapes[at]) {
        if ranks[at] > 0 {
            return;
        }
        ranks[at] = left;
        left -= 1;
        at = content;
    }
}

/// The shape that an option or a newtype holds.
fn content_of(shape: &Shape) -> Option<usize>
    ensures { result ≡ content_of (shape_view shape.now) }
{
    match shape {
        Shape::Option(content) | Shape::Newtype(_, content) => Some(*content),
        _ => None,
    }
}
