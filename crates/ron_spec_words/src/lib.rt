//! The words of the format: characters, gaps, names, integers, literals, positions; definitions that contracts cite.
//!
//! It promises the crates above that the reader function of each word answers exactly what the word's language spells
//! (`words_are_longest`, `literals_are_longest`), how words lie among tokens (`tokens_are_longest`), and what one pass
//! over a text finds of its brackets (`kinds_are_found_in_one_pass`, `openings_are_found`,
//! `looks_leave_no_more_behind_tokens`).
#![tactic(auto)]

ghost use Rattle.ron_spec_words.specs.Beyond.{IsBeyondWalk};
ghost use Rattle.ron_spec_words.specs.Far.{IsFarWalk};
ghost use Rattle.ron_spec_words.specs.Kind.{TellsKinds};
ghost use Rattle.ron_spec_words.specs.KindTable.{IsTable, IsTableAt};
ghost use Rattle.ron_spec_words.specs.Literals.{EndsNumbers, ReadsAnyIntegers, ReadsByteStrings, ReadsBytes, ReadsChars};
ghost use Rattle.ron_spec_words.specs.Literals.{ReadsFixedWords, ReadsNumbers, ReadsRanges, ReadsStrings, ReadsUntypedIntegers};
ghost use Rattle.ron_spec_words.specs.Literals.{SlicesByteStrings, SlicesStrings};
ghost use Rattle.ron_spec_words.specs.Lookahead.{TellsSeveral};
ghost use Rattle.ron_spec_words.specs.Openings.{AreKindsOfInsides, FindsContent, AreEnds, AreInOrder};
ghost use Rattle.ron_spec_words.specs.Statement.{IsCut, IsGapToEnd, IsLongest, ReadsNames, ReadsUntypedNames};
ghost use Rattle.ron_spec_words.specs.Tokens.{AreGapsTokens, AreIntegersWalks, AreLiteralsTokens, AreNamesTokens, AreRangesWalks, IsFront};

/// Every text is its longest gap and what follows it, and names are read exactly where they stand.
pub fn words_are_longest()
    ensures cut { IsCut }
    ensures longest { IsLongest }
    ensures to_end { IsGapToEnd }
    ensures names { ReadsNames }
    ensures untyped_names { ReadsUntypedNames }
{}

/// Fixed words, integers and literals are read exactly where they stand; what holds no escape is a slice of the text.
pub fn literals_are_longest()
    ensures fixed_words { ReadsFixedWords }
    ensures numbers { ReadsNumbers }
    ensures number_ends { EndsNumbers }
    ensures any_integers { ReadsAnyIntegers }
    ensures untyped_integers { ReadsUntypedIntegers }
    ensures ranges { ReadsRanges }
    ensures chars { ReadsChars }
    ensures bytes { ReadsBytes }
    ensures strings { ReadsStrings }
    ensures byte_strings { ReadsByteStrings }
    ensures slices { SlicesStrings }
    ensures byte_slices { SlicesByteStrings }
{}

/// A text is cut into its longest tokens: a gap, a name and a literal are tokens where they stand, and an integer and
/// a range are walks over tokens. The lookahead finds several items exactly where whole tokens lead to a comma that
/// separates them.
pub fn tokens_are_longest()
    ensures front { IsFront }
    ensures gaps { AreGapsTokens }
    ensures names { AreNamesTokens }
    ensures literals { AreLiteralsTokens }
    ensures integers { AreIntegersWalks }
    ensures ranges { AreRangesWalks }
    ensures several { TellsSeveral }
{}

/// One pass over the tokens of a text finds the kind of what stands behind each opening bracket, up to the first broken
/// token. The lookahead's tests behind a bracket are what the kind there says.
pub fn kinds_are_found_in_one_pass()
    ensures table { IsTable }
    ensures entries { IsTableAt }
    ensures tests { TellsKinds }
{}

/// A look for a name goes over the name and the gap that stand at a place. Behind whole tokens it leaves no more of the
/// text than before them.
pub fn looks_leave_no_more_behind_tokens()
    ensures far { IsFarWalk }
    ensures beyond { IsBeyondWalk }
{}

/// What stands behind the opening brackets of a text: the kinds there, in their order; and where whole tokens lead to
/// content, its bracket is among them.
pub fn openings_are_found()
    ensures kinds { AreKindsOfInsides }
    ensures content { FindsContent }
    ensures ends { AreEnds }
    ensures order { AreInOrder }
{}
