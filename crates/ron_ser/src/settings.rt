//! By what data is written.
use ron_base::extensions::Extensions;
use ron_ser_config::config::PrettyConfig;
use std::alloc::Global;

/// Where memory comes from, the extensions in force before the text, how many levels there may be, where there is a
/// limit, and the configuration.
#[derive(Clone, Copy)]
pub struct Settings<'a> {
    pub alloc: Global,
    pub extensions: Extensions,
    pub limit: Option<usize>,
    pub config: &'a PrettyConfig,
}
