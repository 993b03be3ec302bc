//! What a run is asked for, by its words.
ghost use Rattle.std.specs.Prelude.{◌≡◌};
ghost use Rattle.rontool_command.specs.Kept.{only_looks};

use crate::words::rontool;
use clap::{ArgMatches, Error};
use ron_format::layout::{Indent, LastCommas, Layout, NewLine};
use rontool_faults::Format;
use std::alloc::{AllocError, Global};

/// What a run is asked for.
#[derive(Drop)]
pub(crate) enum Asked {
    /// No command was given.
    Nothing,
    /// Files are to be laid out.
    Format(Formatting),
    /// Files are to be gone over.
    Check(Checking),
    /// A value is to be told.
    Get(Getting),
    /// Another value is to be put in the place of one.
    Set(Setting),
    /// A value is to be told as JSON.
    Json(Rendering),
}

/// Which files are to be laid out, and how.
#[derive(Drop)]
pub(crate) struct Formatting {
    /// Files and folders. None: standard input.
    pub paths: Vec<String>,
    /// Globs of what is left out of folders.
    pub excludes: Vec<String>,
    /// Files that would change are named, and nothing is written.
    pub checks: bool,
    /// What would change is shown, and nothing is written.
    pub shows: bool,
    /// How they are laid out.
    pub layout: Layout,
    /// How faults are told.
    pub told: Format,
}

/// Which files are to be gone over, and how.
#[derive(Drop)]
pub(crate) struct Checking {
    /// Files and folders. None: standard input.
    pub paths: Vec<String>,
    /// Globs of what is left out of folders.
    pub excludes: Vec<String>,
    /// A warning is a fault.
    pub denies: bool,
    /// How faults are told.
    pub told: Format,
}

/// Which value is to be told.
#[derive(Drop)]
pub(crate) struct Getting {
    /// The file that it stands in; `-`: standard input.
    pub file: String,
    /// The path that leads to it.
    pub path: String,
    /// How faults are told.
    pub told: Format,
}

/// Which value is to be put in the place of which.
#[derive(Drop)]
pub(crate) struct Setting {
    /// The file that the old one stands in.
    pub file: String,
    /// The path that leads to it.
    pub path: String,
    /// The new one, as it is to be spelled.
    pub value: String,
    /// How faults are told.
    pub told: Format,
}

/// Which file's value is to be told as JSON.
#[derive(Drop)]
pub(crate) struct Rendering {
    /// The file; `-`: standard input.
    pub file: String,
    /// Integers that readers of JSON don't keep are written as texts.
    pub large_as_text: bool,
    /// How faults are told.
    pub told: Format,
}

impl Formatting {
    /// Whether nothing is to be written.
    pub(crate) fn only_looks(&self) -> bool
        ensures { result ≡ only_looks self.now }
    {
        self.checks || self.shows
    }
}

/// What the words ask for. An error is also what `--help` and `--version` answer.
pub(crate) fn read_words(alloc: Global, words: &[String]) -> Result<Asked, Error> {
    let command = rontool(alloc)?;
    let matches = command.try_get_matches_from(words)?;
    match matches.subcommand() {
        Some(("check", given)) => Ok(Asked::Check(checking_of(alloc, given)?)),
        Some(("get", given)) => Ok(Asked::Get(getting_of(alloc, given)?)),
        Some(("set", given)) => Ok(Asked::Set(setting_of(alloc, given)?)),
        Some(("json", given)) => Ok(Asked::Json(rendering_of(alloc, given)?)),
        Some((_, given)) => Ok(Asked::Format(formatting_of(alloc, given)?)),
        None => Ok(Asked::Nothing),
    }
}

/// What words say of laying out.
fn formatting_of(alloc: Global, given: &ArgMatches<'_>) -> Result<Formatting, AllocError> {
    Ok(Formatting {
        paths: texts(alloc, given, "paths")?,
        excludes: texts(alloc, given, "exclude")?,
        checks: given.get_flag("check"),
        shows: given.get_flag("diff"),
        layout: layout_of(given),
        told: told_of(given),
    })
}

/// What words say of going over files.
fn checking_of(alloc: Global, given: &ArgMatches<'_>) -> Result<Checking, AllocError> {
    Ok(Checking {
        paths: texts(alloc, given, "paths")?,
        excludes: texts(alloc, given, "exclude")?,
        denies: given.get_str("deny") == Some("warnings"),
        told: told_of(given),
    })
}

/// What words say of telling a value.
fn getting_of(alloc: Global, given: &ArgMatches<'_>) -> Result<Getting, AllocError> {
    Ok(Getting {
        file: one_text(alloc, given, "file")?,
        path: one_text(alloc, given, "path")?,
        told: told_of(given),
    })
}

/// What words say of putting a value.
fn setting_of(alloc: Global, given: &ArgMatches<'_>) -> Result<Setting, AllocError> {
    Ok(Setting {
        file: one_text(alloc, given, "file")?,
        path: one_text(alloc, given, "path")?,
        value: one_text(alloc, given, "value")?,
        told: told_of(given),
    })
}

/// What words say of JSON.
fn rendering_of(alloc: Global, given: &ArgMatches<'_>) -> Result<Rendering, AllocError> {
    Ok(Rendering {
        file: one_text(alloc, given, "file")?,
        large_as_text: given.get_flag("large-as-text"),
        told: told_of(given),
    })
}

/// The layout that words ask for.
fn layout_of(given: &ArgMatches<'_>) -> Layout {
    let new_line = match given.get_str("newline") {
        Some("lf") => NewLine::Lf,
        Some("crlf") => NewLine::Crlf,
        _ => NewLine::AsText,
    };
    let commas = match given.get_str("commas") {
        Some("keep") => LastCommas::Keep,
        _ => LastCommas::Add,
    };
    Layout::new()
        .width(given.get_one::<usize>("width").unwrap_or(100))
        .indent(indent_of(given))
        .new_line(new_line)
        .last_commas(commas)
        .keep_breaks(given.get_str("keep-breaks") != Some("no"))
}

/// What a line begins with for each level.
fn indent_of(given: &ArgMatches<'_>) -> Indent {
    if given.get_str("indent") == Some("tab") {
        return Indent::Tab;
    }
    Indent::Spaces(given.get_one::<usize>("indent").unwrap_or(4))
}

/// How faults are to be told.
fn told_of(given: &ArgMatches<'_>) -> Format {
    match given.get_str("format") {
        Some("short") => Format::Short,
        Some("json") => Format::Json,
        _ => Format::Long,
    }
}

/// All values of an argument.
fn texts(alloc: Global, given: &ArgMatches<'_>, name: &str) -> Result<Vec<String>, AllocError> {
    let mut texts = Vec::new(alloc);
    let Some(values) = given.get_strs(name) else {
        return Ok(texts);
    };
    for value in values {
        texts.push(String::from_str(alloc, *value)?)?;
    }
    Ok(texts)
}

/// The value of an argument.
fn one_text(alloc: Global, given: &ArgMatches<'_>, name: &str) -> Result<String, AllocError> {
    String::from_str(alloc, given.get_str(name).unwrap_or(""))
}
