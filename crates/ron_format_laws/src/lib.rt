//! A text that is laid out anew is read as the same data: laws of the relation between texts of the same words.
#![tactic(auto)]

ghost use Rattle.ron_format_laws.specs.Claims.{
  KeepsValues,
  ReadsValues,
  KeepsBodies,
  KeepsDocuments,
  KeepsValueDocuments,
  KeepsWholeTexts,
  ReadsDocuments,
  ReadsValueDocuments,
};
ghost use Rattle.ron_format_laws.specs.RawClaims.{KeepsRawBodies, KeepsRawTexts, LinesEndClosed};

/// Texts of the same words, but for last commas where the grammar lets either stand, spell the same: bodies with and
/// without a schema, and whole texts with their attributes. So what is read of the one is read of the other.
pub fn layouts_keep_data()
    ensures values { KeepsValues }
    ensures bodies { KeepsBodies }
    ensures documents { KeepsDocuments }
    ensures value_documents { KeepsValueDocuments }
    ensures whole { KeepsWholeTexts }
    ensures read { ReadsDocuments }
    ensures read_value { ReadsValueDocuments }
    ensures read_body { ReadsValues }
{}

/// A raw text by itself is the same in each text of the same words whose end leaves no line comment open, as none does
/// that ends with a line.
pub fn layouts_keep_raw_texts()
    ensures bodies { KeepsRawBodies }
    ensures texts { KeepsRawTexts }
    ensures closed { LinesEndClosed }
{}
