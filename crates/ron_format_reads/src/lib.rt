//! What public calls answer of texts of the same words: the laws of these texts, told of what the calls promise.
#![tactic(auto)]

ghost use Rattle.ron_format_reads.specs.Claims.{ReadsTheSame, ReadsTheSameValue};

/// Where reading a text answers data, reading a text of the same words answers that data or wants memory: by a schema
/// without raw shapes, by any options (`Options::from_str_seed`); and without a schema (`value::from_str`).
pub fn texts_of_the_same_words_are_read_the_same()
    ensures read { ReadsTheSame }
    ensures values { ReadsTheSameValue }
{}
