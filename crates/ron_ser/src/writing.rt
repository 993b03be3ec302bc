//! What the functions that write hand on to one another.
ghost use Rattle.std.specs.Prelude.{◌≡◌, ◌||◌, Some, None, chars, option_map, MatchOption, IfSome};
ghost use Rattle.ron_spec_grammar.specs.Data.{unit_struct_of, struct_of};
ghost use Rattle.ron_spec_layout.specs.Ranges.{compact_range};
ghost use Rattle.ron_base.specs.Limit.{one_deeper};
ghost use Rattle.ron_ser_config.specs.View.{config_view};
ghost use Rattle.ron_data.specs.Datum.{fields_view};
ghost use Rattle.ron_ser.specs.Stand.{place_of};
ghost use Rattle.ron_ser.specs.Piece.{requires_names};
ghost use Rattle.ron_ser.specs.Range.{range_bytes};

use crate::ranges::{Range, struct_range, unit_struct_range};
use crate::settings::Settings;
use ron_base::extensions::Extensions;
use ron_base::limit::deeper;
use ron_data::data::Data;
use ron_ser_config::config::PrettyConfig;
use ron_ser_config::path_meta::Fields;

/// The extensions in force, how many levels are left, where there is a limit, the configuration, the level that is
/// written at, up to the configuration's limit, and the doc comments of fields.
#[derive(Clone, Copy)]
pub struct Writing<'a> {
    pub(crate) extensions: Extensions,
    pub(crate) limit: Option<usize>,
    pub(crate) config: &'a PrettyConfig,
    pub(crate) level: Option<usize>,
    pub(crate) docs: Option<&'a Fields>,
}

impl<'a> Writing<'a> {
    /// Writing by settings, at level 0.
    #[tactic(auto, unfolding(crate::specs::Stand::place_of))]
    pub fn new(settings: &Settings<'a>) -> Self
        ensures place { place_of result ≡ record {
          config = config_view settings.now.config.now;
          extensions = settings.now.extensions;
          level = 0;
          docs = (config_view settings.now.config.now).docs;
        } }
        ensures limit { result.limit ≡ settings.now.limit }
    {
        let config = settings.config;
        let docs = match &config.path_meta {
            Some(field) => field.fields(),
            None => None,
        };
        Writing {
            extensions: settings.extensions,
            limit: settings.limit,
            config,
            level: Some(0),
            docs,
        }
    }

    /// Whether a struct's name is written.
    #[tactic(auto, unfolding(crate::specs::Stand::place_of))]
    pub fn requires_names(&self) -> bool
        ensures { result ≡ requires_names (place_of self.now) }
    {
        self.config.struct_names || self.extensions.contains(Extensions::EXPLICIT_STRUCT_NAMES)
    }

    /// Whether a newtype's content stands alone, as it does also where the newtype is bare.
    #[tactic(auto, unfolding(crate::specs::Stand::place_of))]
    pub fn unwraps_newtype(&self, bare: bool) -> bool
        ensures { result ≡ (bare || (place_of self.now).extensions.unwrap_newtypes) }
    {
        bare || self.extensions.contains(Extensions::UNWRAP_NEWTYPES)
    }

    /// Whether what a newtype variant or a `Some` holds is bare.
    #[tactic(auto, unfolding(crate::specs::Stand::place_of))]
    pub fn unwraps_variants(&self) -> bool
        ensures { result ≡ (place_of self.now).extensions.unwrap_variant_newtypes }
    {
        self.extensions
            .contains(Extensions::UNWRAP_VARIANT_NEWTYPES)
    }

    /// Whether a `Some` is written only where it can't be left out.
    #[tactic(auto, unfolding(crate::specs::Stand::place_of))]
    pub fn leaves_somes_out(&self) -> bool
        ensures { result ≡ (place_of self.now).extensions.implicit_some }
    {
        self.extensions.contains(Extensions::IMPLICIT_SOME)
    }

    /// Whether strings are escaped.
    #[tactic(auto, unfolding(crate::specs::Stand::place_of))]
    pub fn escapes_strings(&self) -> bool
        ensures { result ≡ (place_of self.now).config.escape_strings }
    {
        self.config.escape_strings
    }

    /// Whether numbers take their suffixes.
    #[tactic(auto, unfolding(crate::specs::Stand::place_of))]
    pub fn suffixes_numbers(&self) -> bool
        ensures { result ≡ (place_of self.now).config.number_suffixes }
    {
        self.config.number_suffixes
    }

    /// The same with one level less left, if one is.
    #[inline(always)]
    #[tactic(auto, unfolding(crate::specs::Stand::place_of))]
    pub fn deeper(&self) -> Option<Writing<'a>>
        ensures level { MatchOption result (one_deeper self.now.limit ≡ None)
            (λ inner. one_deeper self.now.limit ≡ Some inner.limit) }
        ensures place { IfSome result (λ inner. place_of inner ≡ place_of self.now) }
    {
        match deeper(self.limit) {
            Ok(limit) => Some(Writing { limit, ..*self }),
            Err(_) => None,
        }
    }

    /// The range as which a struct is written, if it is.
    #[inline(always)]
    #[tactic(auto, unfolding(crate::specs::Stand::place_of))]
    pub fn struct_range(&self, name: &str, fields: &[(String, Data)]) -> Option<Range>
        ensures { option_map (range_bytes (place_of self.now).config.number_suffixes) result
            ≡ compact_range (place_of self.now).config (struct_of (chars name.now) (fields_view fields.now)) }
    {
        if self.config.compact_ranges {
            struct_range(name, fields)
        } else {
            None
        }
    }

    /// The range as which a struct without fields is written, if it is.
    #[inline(always)]
    #[tactic(auto, unfolding(crate::specs::Stand::place_of))]
    pub fn unit_struct_range(&self, name: &str) -> Option<Range>
        ensures { option_map (range_bytes (place_of self.now).config.number_suffixes) result
            ≡ compact_range (place_of self.now).config (unit_struct_of (chars name.now)) }
    {
        if self.config.compact_ranges {
            unit_struct_range(name)
        } else {
            None
        }
    }
}
