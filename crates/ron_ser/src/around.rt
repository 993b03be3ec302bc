//! What stands around the items of a container: brackets aside, lines, commas, separators and comments.
ghost use Rattle.std.specs.Prelude.{◌≡◌, ◌&&◌, ◌++◌, suc, nat_le, codes, chars, encode_utf8_all, Some, None};
ghost use Rattle.std.specs.Prelude.{IfSome, MatchOption};
ghost use Rattle.std.specs.Fmt.{WritesInCalls};
ghost use Rattle.std.specs.Option.{option_copied};
ghost use Rattle.ron_spec_layout.specs.Config.{in_a_row, on_lines, line_at, times};
ghost use Rattle.ron_base.specs.Limit.{one_deeper};
ghost use Rattle.ron_spec_layout.specs.Docs.{doc_of, docs_within, doc_comment, indentation};
ghost use Rattle.ron_spec_layout.specs.Layout.{colon};
ghost use Rattle.ron_ser_config.specs.View.{doc_told, docs_below};
ghost use Rattle.ron_ser.specs.Stand.{place_of};
ghost use Rattle.ron_ser.specs.Place.{level_of, is_compact, is_list, spacing_in, inside, within};
ghost use Rattle.ron_ser.specs.Place.{comma, separator_at, before_any, before, behind};

use crate::container::Container;
use crate::docs::{write_doc, write_item_comment};
use crate::lines::begin_line;
use crate::writing::Writing;
use ron_base::limit::deeper;
use ron_base_device::output::Output;
use ron_ser_config::path_meta::Field;

impl<'a> Writing<'a> {
    /// Whether the items of a container stand on one line whatever their level.
    #[inline(always)]
    #[tactic(auto, unfolding(crate::specs::Stand::place_of))]
    fn is_compact(&self, container: Container) -> bool
        ensures { result ≡ is_compact (place_of self.now).config container }
    {
        match container {
            Container::List => self.config.compact_arrays,
            Container::Tuple { .. } => !self.config.separate_tuple_members,
            Container::Map => self.config.compact_maps,
            Container::Struct { .. } => self.config.compact_structs,
        }
    }

    /// The level of a container whose items stand on lines of their own, and theirs; none where they stand in a row.
    #[inline(always)]
    #[tactic(auto, unfolding(crate::specs::Stand::place_of))]
    fn lines(&self, container: Container) -> Option<(usize, usize)>
        ensures { MatchOption result (spacing_in (place_of self.now) container ≡ in_a_row (place_of self.now).config)
            (λ levels. (spacing_in (place_of self.now) container ≡ on_lines (place_of self.now).config levels.0)
            × (levels.1 ≡ suc levels.0)) }
    {
        match self.level {
            Some(level) if level < self.config.depth_limit => {
                if self.is_compact(container) {
                    None
                } else {
                    Some((level, level + 1))
                }
            }
            _ => None,
        }
    }

    /// The same for an item of a container, with one level less left, if one is.
    #[inline(always)]
    #[tactic(auto, unfolding(crate::specs::Stand::place_of))]
    pub fn deeper_inside(&self, container: Container) -> Option<Writing<'a>>
        ensures level { MatchOption result (one_deeper self.now.limit ≡ None)
            (λ inner. one_deeper self.now.limit ≡ Some inner.limit) }
        ensures place { IfSome result (λ inner. place_of inner ≡ inside container (place_of self.now)) }
    {
        let level = self.level_inside(container);
        match deeper(self.limit) {
            Ok(limit) => Some(Writing {
                limit,
                level,
                ..*self
            }),
            Err(_) => None,
        }
    }

    /// The same for the value of a field, with its doc comments.
    #[inline(always)]
    #[tactic(auto, unfolding(crate::specs::Stand::place_of))]
    pub fn within(&self, name: &str) -> Writing<'a>
        ensures place { place_of result ≡ within (chars name.now) (place_of self.now) }
        ensures limit { result.limit ≡ self.now.limit }
    {
        let docs = match self.field(name) {
            Some(field) => field.fields(),
            None => None,
        };
        Writing { docs, ..*self }
    }

    /// The level of the items of a container.
    #[inline(always)]
    #[tactic(auto, unfolding(crate::specs::Stand::place_of))]
    fn level_inside(&self, container: Container) -> Option<usize>
        ensures { level_of (place_of self.now).config.depth_limit result
            ≡ (inside container (place_of self.now)).level }
    {
        if self.is_compact(container) {
            return self.level;
        }
        match self.level {
            Some(level) if level < self.config.depth_limit => Some(level + 1),
            _ => None,
        }
    }

    /// The number of levels that a line of a container's items is indented by: none past the configuration's limit.
    #[tactic(auto, unfolding(crate::specs::Stand::place_of))]
    fn indentation(&self, container: Container) -> usize
        ensures { indentation (place_of self.now).config (inside container (place_of self.now)).level
            ≡ times result (place_of self.now).config.indentor }
    {
        match self.level_inside(container) {
            Some(level) if level <= self.config.depth_limit => level,
            _ => 0,
        }
    }

    /// Whether the items of a container are numbered.
    #[inline(always)]
    #[tactic(auto, unfolding(crate::specs::Stand::place_of))]
    fn numbers(&self, container: Container) -> bool
        ensures { result ≡ (is_list container && ((place_of self.now).config.enumerate_arrays
            && nat_le (inside container (place_of self.now)).level (place_of self.now).config.depth_limit)) }
    {
        match container {
            Container::List => {
                self.config.enumerate_arrays
                    && is_within(self.level_inside(container), self.config.depth_limit)
            }
            Container::Tuple { .. } | Container::Map | Container::Struct { .. } => false,
        }
    }

    /// The doc comment of a field, and those of the fields within it.
    #[inline(always)]
    #[tactic(auto, unfolding(crate::specs::Stand::place_of))]
    fn field(&self, name: &str) -> Option<&'a Field>
        ensures doc { doc_of (place_of self.now).docs (chars name.now) ≡ doc_told (option_copied result) }
        ensures within { docs_within (place_of self.now).docs (chars name.now) ≡ docs_below (option_copied result) }
    {
        match self.docs {
            Some(docs) => docs.get(name),
            None => None,
        }
    }
}

/// Writes what stands before the item of this number, counted from 0.
#[inline(always)]
pub fn write_before<O: Output>(out: &mut O, i: usize, container: Container, writing: &Writing)
    ensures { WritesInCalls O.puts out.old
        (encode_utf8_all (before (place_of writing.now) container i)) out.new }
{
    write_blank(out, i, container, writing);
    if writing.numbers(container) {
        write_item_comment(out, i);
    }
}

/// Writes the comma and the blank before it.
#[inline(always)]
fn write_blank<O: Output>(out: &mut O, i: usize, container: Container, writing: &Writing)
    ensures { WritesInCalls O.puts out.old
        (encode_utf8_all (before_any (spacing_in (place_of writing.now) container) i)) out.new }
{
    write_comma(out, i);
    match writing.lines(container) {
        Some((_, level)) => begin_line(out, level, writing),
        None => write_separator(out, i, writing),
    }
}

/// Writes a comma before each item but the first, which is counted as 0.
#[inline(always)]
fn write_comma<O: Output>(out: &mut O, i: usize)
    ensures { WritesInCalls O.puts out.old (comma i) out.new }
{
    if i > 0 {
        out.put(",");
    }
}

/// Writes the separator before each item but the first.
#[inline(always)]
fn write_separator<O: Output>(out: &mut O, i: usize, writing: &Writing)
    ensures { WritesInCalls O.puts out.old
        (encode_utf8_all (separator_at (place_of writing.now).config i)) out.new }
{
    if i > 0 {
        write_text(out, writing.config.separator.as_str());
    }
}

/// Writes a text, and does nothing for an empty one.
#[inline(always)]
fn write_text<O: Output>(out: &mut O, text: &str)
    ensures { WritesInCalls O.puts out.old (encode_utf8_all (chars text.now)) out.new }
{
    if !text.is_empty() {
        out.put(text);
    }
}

/// Writes what stands behind so many items.
#[inline(always)]
pub fn write_behind<O: Output>(out: &mut O, count: usize, container: Container, writing: &Writing)
    ensures { WritesInCalls O.puts out.old
        (encode_utf8_all (behind (place_of writing.now) container count)) out.new }
{
    if count == 0 {
        return;
    }
    if let Some((level, _)) = writing.lines(container) {
        write_end(out, level, writing);
    }
}

/// Writes a comma, and begins a line at a level.
fn write_end<O: Output>(out: &mut O, level: usize, writing: &Writing)
    ensures { WritesInCalls O.puts out.old
        (encode_utf8_all (codes "," ++ line_at (place_of writing.now).config level)) out.new }
{
    out.put(",");
    begin_line(out, level, writing)
}

/// Writes what stands before the value of a field or a key.
#[inline(always)]
#[tactic(auto, unfolding(crate::specs::Stand::place_of))]
pub fn write_colon<O: Output>(out: &mut O, writing: &Writing)
    ensures { WritesInCalls O.puts out.old
        (encode_utf8_all (colon (place_of writing.now).config)) out.new }
{
    out.put(":");
    write_text(out, writing.config.separator.as_str())
}

/// Writes the doc comment before a field of a struct.
#[inline(always)]
#[tactic(auto, unfolding(crate::specs::Stand::place_of))]
pub fn write_doc_comment<O: Output>(
    out: &mut O,
    name: &str,
    container: Container,
    writing: &Writing,
)
    ensures { WritesInCalls O.puts out.old (encode_utf8_all
        (doc_comment (place_of writing.now).config (inside container (place_of writing.now)).level
        (place_of writing.now).docs (chars name.now))) out.new }
{
    let Some(field) = writing.field(name) else {
        return;
    };
    if writing.config.compact_structs {
        return;
    }
    let level = writing.indentation(container);
    write_doc(out, field.doc(), level, writing)
}

/// Whether a level is within a limit.
fn is_within(level: Option<usize>, limit: usize) -> bool
    ensures { result ≡ nat_le (level_of limit level) limit }
{
    match level {
        Some(level) => level <= limit,
        None => false,
    }
}
