//! What a run answers.
ghost use Rattle.std.specs.Prelude.{◌≡◌, ◌≤◌, OnOk};
ghost use Rattle.rontool_command.specs.Told.{TellsAll};

use rontool_faults::{Fault, Format, tell};
use std::alloc::{AllocError, Global};
use std::io;

/// What a run answers: what goes to standard output and to standard error, and its exit status.
#[derive(Drop)]
pub struct Report {
    pub(crate) alloc: Global,
    /// What goes to standard output.
    pub output: String,
    /// What goes to standard error.
    pub faults: String,
    /// 0, or 1 after a fault in a file, or 2 where words are wrong or a file can't be opened.
    pub status: u8,
}

impl Report {
    /// Nothing is to be said so far.
    pub(crate) fn new(alloc: Global) -> Self
        ensures { TellsAll result }
    {
        Report {
            alloc,
            output: String::new(alloc),
            faults: String::new(alloc),
            status: 0,
        }
    }

    /// The status is this one or a higher one.
    pub(crate) fn raise(&mut self, status: u8)
        ensures least { status ≤ self.new.status }
        ensures same { self.new.faults ≡ self.old.faults }
    {
        if self.status < status {
            self.status = status;
        }
    }

    /// A line on standard output.
    pub(crate) fn say(&mut self, line: &str) -> Result<(), AllocError>
        ensures status { self.new.status ≡ self.old.status }
        ensures faults { self.new.faults ≡ self.old.faults }
    {
        self.output.push_str(line)?;
        self.output.push('\n')
    }

    /// What is wrong with no place in a file.
    pub(crate) fn complain(&mut self, path: &str, why: &str) -> Result<(), AllocError>
        ensures { OnOk result (2 ≤ self.new.status) }
    {
        self.raise(2);
        self.faults.push_str("rontool: ")?;
        self.faults.push_str(path)?;
        self.faults.push_str(": ")?;
        self.faults.push_str(why)?;
        self.faults.push('\n')
    }

    /// A call for a file that failed.
    pub(crate) fn fail(&mut self, path: &str, error: io::Error) -> Result<(), AllocError>
        ensures { OnOk result (2 ≤ self.new.status) }
    {
        let why = format!(in self.alloc; "{error}")?;
        self.complain(path, why.as_str())
    }

    /// A fault in a text.
    pub(crate) fn accuse(
        &mut self,
        text: &str,
        fault: &Fault<'_>,
        format: Format,
    ) -> Result<(), AllocError>
        ensures { OnOk result (1 ≤ self.new.status) }
    {
        self.raise(1);
        let told = tell(self.alloc, text, fault, format)?;
        self.faults.push_str(told.as_str())
    }
}
