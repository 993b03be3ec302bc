//! How a text is laid out.
ghost use Rattle.std.specs.Prelude.{◌≡◌, true};
ghost use Rattle.ron_format.specs.declared.layout.Indent.TheVariants.{Spaces};
ghost use Rattle.ron_format.specs.declared.layout.NewLine.TheVariants.{AsText};
ghost use Rattle.ron_format.specs.declared.layout.LastCommas.TheVariants.{Add};

/// What a line begins with for each level of groups around it.
#[derive(Clone, Copy, Debug, PartialEq, Eq)]
pub enum Indent {
    /// So many spaces.
    Spaces(usize),
    /// A tab, which counts as four characters of a line's width.
    Tab,
}

/// The line ends that are written. Those in strings and block comments are never touched.
#[derive(Clone, Copy, Debug, PartialEq, Eq)]
pub enum NewLine {
    /// As the first line end between words of the text: LF, or CR and LF. LF where there is none.
    AsText,
    /// LF.
    Lf,
    /// CR and LF.
    Crlf,
}

/// What becomes of commas before closing brackets.
#[derive(Clone, Copy, Debug, PartialEq, Eq)]
pub enum LastCommas {
    /// Put where a group has an item a line, and taken from groups on one line.
    Add,
    /// Left as they are.
    Keep,
}

/// How a text is laid out: what is written between its words.
#[derive(Clone, Copy, Debug, PartialEq, Eq)]
pub struct Layout {
    /// How many characters a line may have, where that can be had.
    pub width: usize,
    /// What a line begins with for each level.
    pub indent: Indent,
    /// The line ends that are written.
    pub new_line: NewLine,
    /// What becomes of commas before closing brackets.
    pub last_commas: LastCommas,
    /// Whether a group stays over lines whose opening bracket ends a line of the text.
    pub keep_breaks: bool,
}

impl Default for Layout {
    /// Lines of 100 characters, four spaces for a level, line ends as the text has them, last commas put and taken, and
    /// groups kept over lines.
    fn default() -> Layout {
        Layout::new()
    }
}

impl Layout {
    /// Lines of 100 characters, four spaces for a level, line ends as the text has them, last commas put and taken, and
    /// groups kept over lines.
    pub fn new() -> Self
        ensures width { result.width ≡ 100 }
        ensures indent { result.indent ≡ Spaces 4 }
        ensures new_line { result.new_line ≡ AsText }
        ensures last_commas { result.last_commas ≡ Add }
        ensures keep_breaks { result.keep_breaks ≡ true }
    {
        Layout {
            width: 100,
            indent: Indent::Spaces(4),
            new_line: NewLine::AsText,
            last_commas: LastCommas::Add,
            keep_breaks: true,
        }
    }

    /// The same with lines of so many characters.
    pub fn width(mut self, width: usize) -> Self
        ensures { result ≡ record self { width = width } }
    {
        self.width = width;
        self
    }

    /// The same with this for each level.
    pub fn indent(mut self, indent: Indent) -> Self
        ensures { result ≡ record self { indent = indent } }
    {
        self.indent = indent;
        self
    }

    /// The same with these line ends.
    pub fn new_line(mut self, new_line: NewLine) -> Self
        ensures { result ≡ record self { new_line = new_line } }
    {
        self.new_line = new_line;
        self
    }

    /// The same with this for last commas.
    pub fn last_commas(mut self, last_commas: LastCommas) -> Self
        ensures { result ≡ record self { last_commas = last_commas } }
    {
        self.last_commas = last_commas;
        self
    }

    /// The same, where groups stay over lines or not.
    pub fn keep_breaks(mut self, keep_breaks: bool) -> Self
        ensures { result ≡ record self { keep_breaks = keep_breaks } }
    {
        self.keep_breaks = keep_breaks;
        self
    }
}
