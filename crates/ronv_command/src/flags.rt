//! The flags of `ronv fmt`, and the layout that they ask for.
ghost use Rattle.std.specs.Prelude.{◌≡◌, Some, map, string_bytes};
ghost use Rattle.std.specs.Char.{is_ascii_digit};
ghost use Rattle.std.specs.List.{list_all};
ghost use Rattle.ron.specs.Configurations.{config_view};
ghost use Rattle.ronv_command.specs.Flags.{number_up_to, no_flags, with_switch, with_number, takes_number, flags_behind, layout_of};

use ron::extensions::Extensions;
use ron::ser::PrettyConfig;
use std::mem;

/// As many spaces as a level is indented by at most.
const SPACES: &str = "                ";

/// Which flags were given, and with what numbers.
#[derive(Clone, Copy)]
pub struct Flags {
    depth: Option<usize>,
    indent: Option<usize>,
    compact_arrays: bool,
    compact_maps: bool,
    suffixes: bool,
    enumerate: bool,
    raw_strings: bool,
    unwrap_variants: bool,
}

/// The flags that these words give; none where they give another, one twice, or one without its number.
pub fn flags_of(words: &[String]) -> Option<Flags>
    ensures { result ≡ flags_behind (Some no_flags) (map string_bytes words.now) }
{
    let mut flags = Flags::none();
    let mut rest = words;
    'words: while let Some((word, behind)) = rest.split_first() {
        let word = word.as_str();
        if takes_number(word) {
            let (number, behind) = behind.split_first()?;
            flags = flags.with_number(word, number.as_str())?;
            rest = behind;
        } else {
            flags = flags.with_switch(word)?;
            rest = behind;
        }
    }
    Some(flags)
}

fn takes_number(word: &str) -> bool
    ensures { result ≡ takes_number word.now }
{
    word == "--depth" || word == "--indent"
}

impl Flags {
    fn none() -> Flags
        ensures { result ≡ no_flags }
    {
        Flags {
            depth: None,
            indent: None,
            compact_arrays: false,
            compact_maps: false,
            suffixes: false,
            enumerate: false,
            raw_strings: false,
            unwrap_variants: false,
        }
    }

    /// These and a flag that stands alone.
    fn with_switch(self, word: &str) -> Option<Flags>
        ensures { result ≡ with_switch self word.now }
    {
        let mut flags = self;
        let is_given = match word {
            "--compact-arrays" => mem::replace(&mut flags.compact_arrays, true),
            "--compact-maps" => mem::replace(&mut flags.compact_maps, true),
            "--suffixes" => mem::replace(&mut flags.suffixes, true),
            "--enumerate" => mem::replace(&mut flags.enumerate, true),
            "--raw-strings" => mem::replace(&mut flags.raw_strings, true),
            "--unwrap-variants" => mem::replace(&mut flags.unwrap_variants, true),
            _ => return None,
        };
        if is_given { None } else { Some(flags) }
    }

    /// These and a flag with the number behind it.
    fn with_number(self, word: &str, number: &str) -> Option<Flags>
        ensures { result ≡ with_number self word.now number.now }
    {
        if word == "--depth" {
            if self.depth.is_some() {
                return None;
            }
            let depth = number_up_to(1000, number)?;
            return Some(Flags {
                depth: Some(depth),
                ..self
            });
        }
        if self.indent.is_some() {
            return None;
        }
        let indent = number_up_to(16, number)?;
        Some(Flags {
            indent: Some(indent),
            ..self
        })
    }

    /// The default layout as these flags change it.
    pub fn layout(self) -> PrettyConfig
        ensures { config_view result ≡ layout_of self }
    {
        let extensions = if self.unwrap_variants {
            Extensions::UNWRAP_VARIANT_NEWTYPES
        } else {
            Extensions::empty()
        };
        let config = PrettyConfig::new()
            .enumerate_arrays(self.enumerate)
            .extensions(extensions)
            .compact_arrays(self.compact_arrays)
            .escape_strings(!self.raw_strings)
            .compact_maps(self.compact_maps)
            .number_suffixes(self.suffixes);
        let config = match self.depth {
            Some(depth) => config.depth_limit(depth),
            None => config,
        };
        match self.indent {
            Some(indent) => config.indentor(&SPACES[..indent.min(16)]),
            None => config,
        }
    }
}

/// A number of one or more ASCII digits that is at most so much.
fn number_up_to(most: usize, word: &str) -> Option<usize>
    ensures { result ≡ number_up_to most word.now }
{
    if !is_numeral(word) {
        return None;
    }
    match word.parse::<usize>() {
        Ok(number) if number <= most => Some(number),
        Ok(_) => None,
        Err(_) => None,
    }
}

fn is_numeral(word: &str) -> bool
    ensures { result ≡ list_all is_ascii_digit word.now }
{
    word.as_bytes().iter().all(|byte| byte.is_ascii_digit())
}
