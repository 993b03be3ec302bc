//! A value as its text.
ghost use Rattle.std.specs.Prelude.{◌≡◌, true, false, Some, chars, string_bytes, IfOk, OnOk, IfErr, MatchResult};
ghost use Rattle.std.specs.Prelude.{nat_eq};
ghost use Rattle.std.specs.Hash as fed;
ghost use Rattle.std.specs.Cmp.{on_per, on_equiv, on_po, on_total, partial_equiv_from_equiv};
ghost use Rattle.std.specs.Cmp.Rules.{hashing};
ghost use Rattle.std.specs.Cmp.Lexicographic.{pointwise, nat_list_eq_equiv, nat_list_cmp_total, texts_po, texts_ties};
ghost use Rattle.std.specs.Str.{is_utf8};
ghost use Rattle.std.proofs.Common.{refl, rules};
ghost use Rattle.ron_base.specs.declared.error.Error.TheVariants.{OutOfMemory};
ghost use Rattle.ron_spec_grammar.specs.Raw.{raw_valid, without_gaps};
ghost use Rattle.ron_lex_text.specs.Parsed.{parsed_text, text_bytes};
ghost use Rattle.ron_lex_text.specs.declared.parsed.ParsedStr.TheVariants as parsed;

use crate::alone::{core_of, read_whole};
use ron_base::error::{Result, SpannedResult};
use ron_lex_text::parsed::ParsedStr;
use std::alloc::Global;
use std::cmp::Ordering;
use std::fmt;
use std::hash::{Hash, Hasher};

/// A text that is a value by itself: one value without attributes, with gaps around it, that is read under no extensions
/// within 128 levels, and no open line comment at its end. It is borrowed or its own. Two are equal, and ordered, as
/// their texts are.
#[derive(Debug, Drop)]
pub struct RawValue<'a> {
    text: ParsedStr<'a>,
    ghost valid: { raw_valid (parsed_text text) ≡ true },
    ghost spelled: { is_utf8 (text_bytes text) ≡ true },
}

impl<'a> RawValue<'a> {
    ghost use Rattle.ron_de_raw.specs.Raw.{raw_text_of, raw_bytes, is_borrowed, IsRefusedRaw, IsWithoutGaps};

    /// A text that is valid, borrowed.
    pub(crate) fn of_slice(text: &'a str) -> RawValue<'a>
        requires { raw_valid (chars text.now) ≡ true }
        ensures { result.text ≡ parsed.Slice text.entry }
    {
        let text = ParsedStr::Slice(text);
        RawValue { text }
    }

    /// A text that is valid, as its own.
    pub(crate) fn of_string(text: String) -> RawValue<'a>
        requires { raw_valid (chars (string_bytes text)) ≡ true }
        ensures { result.text ≡ parsed.Allocated text }
    {
        let text = ParsedStr::Allocated(text);
        RawValue { text }
    }

    /// The text.
    pub fn get_ron(&self) -> &str
        ensures text { result.now ≡ raw_bytes self.now }
        ensures valid { raw_valid (chars result.now) ≡ true }
    {
        self.text.as_str()
    }

    /// An equal value that borrows this one's text. Takes no memory.
    pub fn as_borrowed(&self) -> RawValue<'_>
        ensures text { raw_text_of result ≡ raw_text_of self.now }
        ensures borrowed { is_borrowed result ≡ true }
    {
        RawValue::of_slice(self.get_ron())
    }

    /// An equal value that borrows this text, which is the same. Takes no memory.
    pub fn borrowed_from<'o>(&self, text: &'o str) -> RawValue<'o>
        requires { chars text.now ≡ raw_text_of self.now }
        ensures text { raw_text_of result ≡ raw_text_of self.now }
        ensures borrowed { is_borrowed result ≡ true }
    {
        RawValue::of_slice(text)
    }

    /// This text, borrowed. An attribute is refused by `Message`, an open line comment at the end by
    /// `UnclosedLineComment`, another character behind the value by `TrailingCharacters`, what nests deeper than 128
    /// levels by `ExceededRecursionLimit`, and any other text that is no value by an error of reading; the span lies in
    /// the text.
    pub fn from_ron(alloc: Global, ron: &'a str) -> SpannedResult<RawValue<'a>>
        ensures ok { IfOk result (λ r. (raw_text_of r ≡ chars ron.now) × (is_borrowed r ≡ true)) }
        ensures valid { OnOk result (raw_valid (chars ron.now) ≡ true) }
        ensures err { IfErr result (IsRefusedRaw (chars ron.now)) }
    {
        read_whole(alloc, ron)?;
        Ok(RawValue::of_slice(ron))
    }

    /// This text, as its own; else it is refused as by `from_ron`, and given up.
    pub fn from_boxed_ron(ron: String) -> SpannedResult<RawValue<'a>>
        ensures ok { IfOk result (λ r. raw_text_of r ≡ chars (string_bytes ron)) }
        ensures valid { OnOk result (raw_valid (chars (string_bytes ron)) ≡ true) }
        ensures err { IfErr result (IsRefusedRaw (chars (string_bytes ron))) }
        ensures owned { IfOk result (λ r. is_borrowed r ≡ false) }
    {
        read_whole(*ron.allocator(), ron.as_str())?;
        Ok(RawValue::of_string(ron))
    }

    /// The same without the gaps around its value. Refused by `OutOfMemory` alone, which the value's reading may take.
    pub fn trim(&self, alloc: Global) -> Result<RawValue<'_>>
        ensures text { MatchResult result (λ r. raw_text_of r ≡ without_gaps (raw_text_of self.now)) (λ e. e ≡ OutOfMemory) }
        ensures value { IfOk result (λ r. IsWithoutGaps (raw_text_of self.now) (raw_text_of r)) }
        ensures borrowed { IfOk result (λ r. is_borrowed r ≡ true) }
    {
        let core = core_of(alloc, self.get_ron())?;
        Ok(RawValue::of_slice(core))
    }

    /// The same of a text that is given up: a borrowed one stays borrowed.
    pub fn trim_boxed(self, alloc: Global) -> Result<RawValue<'a>>
        ensures text { MatchResult result (λ r. raw_text_of r ≡ without_gaps (raw_text_of self.entry)) (λ e. e ≡ OutOfMemory) }
        ensures value { IfOk result (λ r. IsWithoutGaps (raw_text_of self.entry) (raw_text_of r)) }
        ensures borrowed { IfOk result (λ r. is_borrowed r ≡ is_borrowed self.entry) }
    {
        let text = self.text;
        match text {
            ParsedStr::Slice(text) => {
                let core = core_of(alloc, text)?;
                Ok(RawValue::of_slice(core))
            }
            ParsedStr::Allocated(text) => {
                let core = core_of(alloc, text.as_str())?;
                let owned = String::from_str(alloc, core)?;
                Ok(RawValue::of_string(owned))
            }
        }
    }

    /// The text as a `String`: a copy where it is borrowed. Refused by `OutOfMemory` alone.
    pub fn into_string(self, alloc: Global) -> Result<String>
        ensures { MatchResult result (λ s. chars (string_bytes s) ≡ raw_text_of self.entry) (λ e. e ≡ OutOfMemory) }
    {
        let text = self.text;
        match text {
            ParsedStr::Slice(text) => Ok(String::from_str(alloc, text)?),
            ParsedStr::Allocated(text) => Ok(text),
        }
    }

    /// An equal value with a text of its own: a copy where it is borrowed. Refused by `OutOfMemory` alone, and then given
    /// up.
    pub fn into_owned<'o>(self, alloc: Global) -> Result<RawValue<'o>>
        ensures text { MatchResult result (λ r. raw_text_of r ≡ raw_text_of self.entry) (λ e. e ≡ OutOfMemory) }
        ensures owned { IfOk result (λ r. is_borrowed r ≡ false) }
    {
        let text = self.text;
        match text {
            ParsedStr::Slice(text) => {
                let owned = String::from_str(alloc, text)?;
                Ok(RawValue::of_string(owned))
            }
            ParsedStr::Allocated(text) => Ok(RawValue::of_string(text)),
        }
    }

    /// An equal value: borrowed from the same text, or a copy of its own. Refused by `OutOfMemory` alone.
    pub fn try_clone(&self) -> Result<RawValue<'a>>
        ensures borrowed { IfOk result (λ r. is_borrowed r ≡ is_borrowed self.now) }
        ensures text { MatchResult result (λ r. raw_bytes r ≡ raw_bytes self.now) (λ e. e ≡ OutOfMemory) }
    {
        match &self.text {
            ParsedStr::Slice(text) => Ok(RawValue::of_slice(*text)),
            ParsedStr::Allocated(text) => Ok(RawValue::of_string(text.clone()?)),
        }
    }
}

impl fmt::Display for RawValue<'_> {
    ghost use Rattle.ron_de_raw.specs.Raw.{raw_bytes};

    ghost output = { λ r. Some (raw_bytes r) };

    fn fmt<W: fmt::Write>(&self, f: &mut fmt::Formatter<W>) -> fmt::Result {
        f.write_str(self.get_ron())
    }
}

impl PartialEq for RawValue<'_> {
    ghost use Rattle.ron_de_raw.specs.Raw.{raw_bytes};

    ghost eq = { λ one other. pointwise nat_eq (raw_bytes one) (raw_bytes other) };

    ghost laws = { on_per raw_bytes (partial_equiv_from_equiv nat_list_eq_equiv) };

    fn eq(&self, other: &Self) -> bool {
        self.get_ron() == other.get_ron()
    }
}

impl Eq for RawValue<'_> {
    ghost use Rattle.ron_de_raw.specs.Raw.{raw_bytes};

    ghost laws = { on_equiv raw_bytes nat_list_eq_equiv };
}

impl PartialOrd for RawValue<'_> {
    ghost use Rattle.ron_de_raw.specs.Raw.{raw_bytes, raw_cmp};

    ghost partial_cmp = { λ one other. Some (raw_cmp one other) };

    ghost laws = { on_po raw_bytes texts_po };

    fn partial_cmp(&self, other: &Self) -> Option<Ordering> {
        Some(self.cmp(other))
    }
}

impl Ord for RawValue<'_> {
    ghost use Rattle.ron_de_raw.specs.Raw.{raw_bytes, raw_cmp};

    ghost cmp = { raw_cmp };

    ghost total = { on_total raw_bytes nat_list_cmp_total };

    ghost matches_partial_cmp = { λ one other. refl };

    ghost matches_eq = { λ one other. texts_ties (raw_bytes one) (raw_bytes other) };

    fn cmp(&self, other: &Self) -> Ordering {
        self.get_ron().cmp(other.get_ron())
    }
}

impl Hash for RawValue<'_> {
    ghost use Rattle.ron_de_raw.specs.Raw.{raw_bytes};

    ghost hash_input = { λ r. fed.str (raw_bytes r) };

    ghost respects_eq = { Prim.search (hashing, rules) };

    fn hash<H: Hasher>(&self, state: &mut H) {
        self.get_ron().hash(state);
    }
}
