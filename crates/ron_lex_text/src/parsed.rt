//! What is read of strings and byte strings.
ghost use Rattle.std.specs.Prelude.{◌≡◌, nat_eq};
ghost use Rattle.std.specs.Cmp.{on_per, on_equiv, partial_equiv_from_equiv};
ghost use Rattle.std.specs.Cmp.Lexicographic.{pointwise, nat_list_eq_equiv};
ghost use Rattle.ron_lex_text.specs.Parsed.{text_bytes, parsed_bytes};

/// The text of a string: a slice of the source, or a text of its own. Two are equal where their texts are.
#[derive(Debug, Drop)]
pub enum ParsedStr<'a> {
    /// What stands between the quotes, where it holds no escape and no continuation, or is raw.
    Slice(&'a str),
    /// What escapes and continuations among the characters give.
    Allocated(String),
}

impl ParsedStr<'_> {
    /// The text.
    pub fn as_str(&self) -> &str
        ensures { result.now ≡ text_bytes self.now }
    {
        match self {
            ParsedStr::Slice(text) => *text,
            ParsedStr::Allocated(text) => text.as_str(),
        }
    }
}

impl PartialEq for ParsedStr<'_> {
    ghost eq = { λ one other. pointwise nat_eq (text_bytes one) (text_bytes other) };

    ghost laws = { on_per text_bytes (partial_equiv_from_equiv nat_list_eq_equiv) };

    fn eq(&self, other: &Self) -> bool {
        self.as_str() == other.as_str()
    }
}

impl Eq for ParsedStr<'_> {
    ghost laws = { on_equiv text_bytes nat_list_eq_equiv };
}

/// The bytes of a byte string: a slice of the source, or bytes of its own. Two are equal where their bytes are.
#[derive(Debug, Drop)]
pub enum ParsedByteStr<'a> {
    /// The UTF-8 of what stands between the quotes, where it holds no escape and no continuation, or is raw.
    Slice(&'a [u8]),
    /// What escapes and continuations among the characters give.
    Allocated(Vec<u8>),
}

impl ParsedByteStr<'_> {
    /// The bytes.
    pub fn as_slice(&self) -> &[u8]
        ensures { result.now ≡ parsed_bytes self.now }
    {
        match self {
            ParsedByteStr::Slice(bytes) => *bytes,
            ParsedByteStr::Allocated(bytes) => bytes.as_slice(),
        }
    }
}

impl PartialEq for ParsedByteStr<'_> {
    ghost eq = { λ one other. pointwise nat_eq (parsed_bytes one) (parsed_bytes other) };

    ghost laws = { on_per parsed_bytes (partial_equiv_from_equiv nat_list_eq_equiv) };

    fn eq(&self, other: &Self) -> bool {
        self.as_slice() == other.as_slice()
    }
}

impl Eq for ParsedByteStr<'_> {
    ghost laws = { on_equiv parsed_bytes nat_list_eq_equiv };
}
