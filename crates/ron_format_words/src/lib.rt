//! Texts of the same words: what may stand between the words of a text in place of what stands there, and what stays.
#![tactic(auto)]

ghost use Rattle.ron_format_words.specs.Laid.{KeepsComments, KeepsWords};
ghost use Rattle.ron_format_words.specs.Statement.{KeepsLists, KeepsNames, KeepsUnits};

/// What a text spells, each text of the same words spells.
pub fn same_words_spell_the_same()
    ensures lists { KeepsLists }
    ensures units { KeepsUnits }
    ensures names { KeepsNames }
{}

/// A text is laid out anew by any wishes for what stands between its words. Where the format doesn't let a wish stand,
/// what stood there stays. So the words are the same, and each comment stands between the same words.
pub fn layouts_keep_words_and_comments()
    ensures words { KeepsWords }
    ensures comments { KeepsComments }
{}
