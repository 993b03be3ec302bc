//! Texts laid out anew: what stands between the words of a text changes, and last commas come and go; each word and each
//! comment stays. `document` is what a text is cut into, for programs that walk texts.
pub use ron_format::layout::{Indent, LastCommas, Layout, NewLine};
pub use ron_format::{Refusal, document, format, is_formatted};
