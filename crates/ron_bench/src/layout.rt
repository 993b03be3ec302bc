//! The layouts that passes of writing ask for.
ghost use Rattle.std.specs.Prelude.{◌≡◌};
ghost use Rattle.ron.specs.Configurations.{config_given};
ghost use Rattle.ron_bench.specs.Layout.{configuration};

use ron::ser::PrettyConfig;

/// All on one line, or the default layout: items on lines of their own.
#[derive(Clone, Copy)]
pub enum Layout {
    Compact,
    Pretty,
}

impl Layout {
    /// The configuration of this layout.
    pub fn config(self) -> Option<PrettyConfig>
        ensures { config_given result ≡ configuration self }
    {
        match self {
            Layout::Compact => None,
            Layout::Pretty => Some(PrettyConfig::new()),
        }
    }
}
