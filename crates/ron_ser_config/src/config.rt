//! How text is laid out.

ghost use Rattle.std.specs.Prelude.{◌≡◌, None, chars, IfOk, IfErr, IsTrue, MatchResult};
ghost use Rattle.ron_base.specs.declared.error.Error.TheVariants.{OutOfMemory};
ghost use Rattle.ron_spec_layout.specs.Config.{default_config, no_config};
ghost use Rattle.ron_ser_config.specs.View.{config_view, config_given, meta_tree};

use crate::path_meta::Field;
use ron_base::error::Result;
use ron_base::extensions::Extensions;
use std::alloc::Global;
use std::borrow::CowStr;

/// How data is laid out as text: what stands on lines of its own, which blanks are written, and what is told besides
/// the data.
#[derive(Debug, PartialEq, Eq, Drop)]
pub struct PrettyConfig {
    /// How many levels of items stand on lines of their own.
    pub depth_limit: usize,
    /// The text of a new line.
    pub new_line: CowStr<'static>,
    /// What a line begins with for each level.
    pub indentor: CowStr<'static>,
    /// What stands behind colons, and behind commas on a line.
    pub separator: CowStr<'static>,
    /// Whether structs are written with their names.
    pub struct_names: bool,
    /// Whether the items of tuples stand on lines of their own.
    pub separate_tuple_members: bool,
    /// Whether each item of a list has its number before it, in a comment.
    pub enumerate_arrays: bool,
    /// The extensions that are announced at the head of the text, where they are not in force already.
    pub extensions: Extensions,
    /// Whether the items of lists stand on one line.
    pub compact_arrays: bool,
    /// Whether characters of strings are escaped; else they stand as they are, in raw strings.
    pub escape_strings: bool,
    /// Whether the fields of structs stand on one line.
    pub compact_structs: bool,
    /// Whether the pairs of maps stand on one line.
    pub compact_maps: bool,
    /// Whether numbers are written with their types.
    pub number_suffixes: bool,
    /// The doc comments that are written before fields: those of the fields within this one.
    pub path_meta: Option<Field>,
    /// Whether ranges are written by two points.
    pub compact_ranges: bool,
}

impl Default for PrettyConfig {
    ghost is_default = { λ c. (config_view c ≡ default_config) × (c.path_meta ≡ None) };

    /// Items on lines of their own however deep, four spaces for a level, and a space as the separator; strings are
    /// escaped, and nothing else is switched on.
    fn default() -> PrettyConfig {
        PrettyConfig::new()
    }
}

impl PrettyConfig {
    /// Items on lines of their own however deep, four spaces for a level, and a space as the separator; strings are
    /// escaped, and nothing else is switched on.
    pub fn new() -> Self
        ensures view { config_view result ≡ default_config }
        ensures path_meta { result.path_meta ≡ None }
    {
        PrettyConfig::with_texts(usize::MAX, "\n", "    ", " ")
    }

    /// What is written by where there is no configuration: everything on one line, with no blanks.
    pub fn plain() -> Self
        ensures view { config_view result ≡ no_config }
        ensures path_meta { result.path_meta ≡ None }
    {
        PrettyConfig::with_texts(0, "", "", "")
    }

    /// The configuration that is given, or else the one of no configuration.
    pub fn given(config: Option<PrettyConfig>) -> Self
        ensures { config_view result ≡ config_given config }
    {
        match config {
            Some(config) => config,
            None => PrettyConfig::plain(),
        }
    }

    /// The default configuration, but for this limit and these texts.
    fn with_texts(
        depth_limit: usize,
        new_line: &'static str,
        indentor: &'static str,
        separator: &'static str,
    ) -> Self
        ensures view { config_view result ≡ record default_config {
          depth_limit = depth_limit;
          new_line = chars new_line.now;
          indentor = chars indentor.now;
          separator = chars separator.now;
        } }
        ensures path_meta { result.path_meta ≡ None }
    {
        PrettyConfig {
            depth_limit,
            new_line: CowStr::Borrowed(new_line),
            indentor: CowStr::Borrowed(indentor),
            separator: CowStr::Borrowed(separator),
            struct_names: false,
            separate_tuple_members: false,
            enumerate_arrays: false,
            extensions: Extensions::empty(),
            compact_arrays: false,
            escape_strings: true,
            compact_structs: false,
            compact_maps: false,
            number_suffixes: false,
            path_meta: None,
            compact_ranges: false,
        }
    }

    /// The same with this limit.
    pub fn depth_limit(mut self, depth_limit: usize) -> Self
        ensures { result ≡ record self { depth_limit = depth_limit } }
    {
        self.depth_limit = depth_limit;
        self
    }

    /// The same with this text of a new line.
    pub fn new_line<T: Into<CowStr<'static>>>(mut self, new_line: T) -> Self
        ensures text { T.converts new_line result.new_line }
        ensures others { result ≡ record self { new_line = result.new_line } }
    {
        self.new_line = new_line.into();
        self
    }

    /// The same with this text for each level of a line.
    pub fn indentor<T: Into<CowStr<'static>>>(mut self, indentor: T) -> Self
        ensures text { T.converts indentor result.indentor }
        ensures others { result ≡ record self { indentor = result.indentor } }
    {
        self.indentor = indentor.into();
        self
    }

    /// The same with this separator.
    pub fn separator<T: Into<CowStr<'static>>>(mut self, separator: T) -> Self
        ensures text { T.converts separator result.separator }
        ensures others { result ≡ record self { separator = result.separator } }
    {
        self.separator = separator.into();
        self
    }

    /// The same, where structs are written with their names or not.
    pub fn struct_names(mut self, struct_names: bool) -> Self
        ensures { result ≡ record self { struct_names = struct_names } }
    {
        self.struct_names = struct_names;
        self
    }

    /// The same, where the items of tuples stand on lines of their own or not.
    pub fn separate_tuple_members(mut self, separate_tuple_members: bool) -> Self
        ensures { result ≡ record self { separate_tuple_members = separate_tuple_members } }
    {
        self.separate_tuple_members = separate_tuple_members;
        self
    }

    /// The same, where each item of a list has its number before it or not.
    pub fn enumerate_arrays(mut self, enumerate_arrays: bool) -> Self
        ensures { result ≡ record self { enumerate_arrays = enumerate_arrays } }
    {
        self.enumerate_arrays = enumerate_arrays;
        self
    }

    /// The same, where these extensions are announced.
    pub fn extensions(mut self, extensions: Extensions) -> Self
        ensures { result ≡ record self { extensions = extensions } }
    {
        self.extensions = extensions;
        self
    }

    /// The same, where the items of lists stand on one line or not.
    pub fn compact_arrays(mut self, compact_arrays: bool) -> Self
        ensures { result ≡ record self { compact_arrays = compact_arrays } }
    {
        self.compact_arrays = compact_arrays;
        self
    }

    /// The same, where characters of strings are escaped or not.
    pub fn escape_strings(mut self, escape_strings: bool) -> Self
        ensures { result ≡ record self { escape_strings = escape_strings } }
    {
        self.escape_strings = escape_strings;
        self
    }

    /// The same, where the fields of structs stand on one line or not.
    pub fn compact_structs(mut self, compact_structs: bool) -> Self
        ensures { result ≡ record self { compact_structs = compact_structs } }
    {
        self.compact_structs = compact_structs;
        self
    }

    /// The same, where the pairs of maps stand on one line or not.
    pub fn compact_maps(mut self, compact_maps: bool) -> Self
        ensures { result ≡ record self { compact_maps = compact_maps } }
    {
        self.compact_maps = compact_maps;
        self
    }

    /// The same, where numbers are written with their types or not.
    pub fn number_suffixes(mut self, number_suffixes: bool) -> Self
        ensures { result ≡ record self { number_suffixes = number_suffixes } }
    {
        self.number_suffixes = number_suffixes;
        self
    }

    /// The same, where ranges are written by two points or not.
    pub fn compact_ranges(mut self, compact_ranges: bool) -> Self
        ensures { result ≡ record self { compact_ranges = compact_ranges } }
    {
        self.compact_ranges = compact_ranges;
        self
    }

    /// A configuration that is equal to this one and shares nothing with it. Refused by `OutOfMemory` alone.
    pub fn try_clone(&self, alloc: Global) -> Result<Self>
        ensures view { IfOk result (λ c. config_view c ≡ config_view self.now) }
        ensures path_meta { IfOk result (λ c. meta_tree c.path_meta ≡ meta_tree self.now.path_meta) }
        ensures equal { IfOk result (λ c. IsTrue (⟦<PrettyConfig as PartialEq>⟧.eq c self.now)) }
        ensures memory { IfErr result (λ e. e ≡ OutOfMemory) }
    {
        let path_meta = clone_meta(alloc, &self.path_meta)?;
        Ok(PrettyConfig {
            depth_limit: self.depth_limit,
            new_line: self.new_line.clone()?,
            indentor: self.indentor.clone()?,
            separator: self.separator.clone()?,
            struct_names: self.struct_names,
            separate_tuple_members: self.separate_tuple_members,
            enumerate_arrays: self.enumerate_arrays,
            extensions: self.extensions,
            compact_arrays: self.compact_arrays,
            escape_strings: self.escape_strings,
            compact_structs: self.compact_structs,
            compact_maps: self.compact_maps,
            number_suffixes: self.number_suffixes,
            path_meta,
            compact_ranges: self.compact_ranges,
        })
    }
}

/// A copy of the doc comments, where there are any.
fn clone_meta(alloc: Global, meta: &Option<Field>) -> Result<Option<Field>>
    ensures { MatchResult result (λ m. meta_tree m ≡ meta_tree meta.now) (λ e. e ≡ OutOfMemory) }
{
    match meta {
        None => Ok(None),
        Some(field) => Ok(Some(field.try_clone(alloc)?)),
    }
}
