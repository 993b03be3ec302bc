//! The extensions of the format, which a text announces or options switch on.
pub use ron_base::extensions::Extensions;
