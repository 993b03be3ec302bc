//! Laws of layouts, of texts laid out anew and of types, for whoever proves more of a text or of a type of one's own. No code calls them, and their
//! bodies are empty: their clauses are what they say.
pub use ron_format_words::{layouts_keep_words_and_comments, same_words_spell_the_same};
pub use ron_spec_layout::{
    layouts_are_read_back, layouts_of_values_are_read_back, ranges_are_read_back,
};
pub use ron_types::laws::enums::enums_accept_their_data;
pub use ron_types::laws::faithful::values_are_told;
pub use ron_types::laws::leaves::{integers_accept_their_data, leaves_accept_their_data};
pub use ron_types::laws::parts::{maps_accept_their_data, parts_accept_their_data};
pub use ron_types::laws::refusals::{
    integers_refuse_as_data, leaves_refuse_as_data, maps_refuse_as_data, parts_refuse_as_data,
    rows_refuse_as_data, structs_refuse_as_data, tuples_refuse_as_data,
};
pub use ron_types::laws::rows::{
    empty_rows_accept_their_data, rows_accept_their_data, structs_accept_their_data,
    tuples_accept_their_data,
};
pub use ron_types_fields::laws as fields;
