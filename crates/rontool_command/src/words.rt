//! The words that a run may be given, with their help.
use clap::{Arg, ArgAction, Command, value_parser};
use std::alloc::{AllocError, Global};

static INDENTS: [&str; 9] = ["1", "2", "3", "4", "5", "6", "7", "8", "tab"];

static NEW_LINES: [&str; 3] = ["text", "lf", "crlf"];

static COMMAS: [&str; 2] = ["add", "keep"];

static ANSWERS: [&str; 2] = ["yes", "no"];

static FORMATS: [&str; 3] = ["long", "short", "json"];

static DENIED: [&str; 1] = ["warnings"];

const EXAMPLES: &str = "Examples:
  rontool fmt --check assets         name the files of a folder that would change
  rontool check assets               tell what is wrong in the files of a folder
  rontool get scene.ron entities[3]  tell the fourth item of a list
  rontool set --help                 tell the words of a command

Status: 0, or 1 after a fault in a file, or 2 where words are wrong or a file can't be opened.";

const FORMAT_EXAMPLES: &str = "Examples:
  rontool fmt assets saves        lay out all *.ron of two folders, in place
  rontool fmt --exclude 'old*' .  leave out what is called so
  rontool fmt < in.ron > out.ron  lay out standard input

A file holds the old text or the new one, whole. One that is laid out already isn't touched.";

const CHECK_EXAMPLES: &str = "Examples:
  rontool check assets saves       tell the first fault of each *.ron of two folders
  rontool check --deny warnings .  end with status 1 after a warning too
  rontool check < in.ron           go over standard input

Warnings go to standard output. They are of what readers take, but who wrote it may not have meant: a key or a field given
twice, what is announced to no effect, and names such as `null`, `True` and `some(..)`.";

const GET_EXAMPLES: &str = "Examples:
  rontool get scene.ron entities[3].name  tell a field of the fourth item of a list
  rontool get scene.ron 'keys[\"a b\"]'     tell the value of a key, as the text spells it
  rontool get scene.ron camera[0]         tell what stands in brackets behind a name, as in `Some(..)`
  rontool get - . < in.ron                tell the whole value, without attributes";

const SET_EXAMPLES: &str = "Examples:
  rontool set scene.ron entities[3].name '\"b\"'  put a text there
  rontool set scene.ron camera 'Some((x: 1))'   put whatever is a value

All else stays as it is. What results is gone over as by `rontool check` before the file is replaced.";

const JSON_EXAMPLES: &str = "Examples:
  rontool json scene.ron                tell a file's value
  rontool json --large-as-text ids.ron  with integers past 2^53 as texts

Unit and `None` become `null`, what stands in `Some(..)` stands alone, a name by itself becomes a text, and one before brackets
is left out. Bytes become a list of numbers, floats keep their digits. What JSON has no like for is told with its place.";

/// All that words may say.
pub(crate) fn rontool<'a>(alloc: Global) -> Result<Command<'a>, AllocError> {
    Command::new(alloc, "rontool")
        .version("0.1.0")
        .about("For files of the format RON, and the people who keep them.")
        .after_help(EXAMPLES)
        .no_binary_name(true)
        .bin_name("rontool")?
        .subcommand_required(true)
        .arg_required_else_help(true)
        .disable_help_subcommand(true)
        .subcommand(format_words(alloc)?)?
        .subcommand(check_words(alloc)?)?
        .subcommand(get_words(alloc)?)?
        .subcommand(set_words(alloc)?)?
        .subcommand(json_words(alloc)?)
}

/// What words may say of going over files.
fn check_words<'a>(alloc: Global) -> Result<Command<'a>, AllocError> {
    Command::new(alloc, "check")
        .about("Tell what is wrong in files.")
        .after_help(CHECK_EXAMPLES)
        .arg(paths_word(alloc).help(
            "Files; of folders all *.ron in them; `-` or none: standard input",
        ))?
        .arg(exclude_word(alloc))?
        .arg(deny_word(alloc))?
        .arg(told_word(alloc))
}

fn deny_word<'a>(alloc: Global) -> Arg<'a> {
    choice(alloc, "deny", "warnings", DENIED.as_slice()).help("What is to be a fault too")
}

/// What words may say of telling a value.
fn get_words<'a>(alloc: Global) -> Result<Command<'a>, AllocError> {
    Command::new(alloc, "get")
        .about("Tell the value at a path in a file.")
        .after_help(GET_EXAMPLES)
        .arg(one_word(alloc, "file", "FILE|-").help("The file; `-`: standard input"))?
        .arg(path_word(alloc))?
        .arg(told_word(alloc))
}

/// What words may say of putting a value.
fn set_words<'a>(alloc: Global) -> Result<Command<'a>, AllocError> {
    Command::new(alloc, "set")
        .about("Put another value at a path in a file.")
        .after_help(SET_EXAMPLES)
        .arg(one_word(alloc, "file", "FILE").help("The file"))?
        .arg(path_word(alloc))?
        .arg(one_word(alloc, "value", "VALUE").help("The new value, as the file is to spell it"))?
        .arg(told_word(alloc))
}

/// What words may say of JSON.
fn json_words<'a>(alloc: Global) -> Result<Command<'a>, AllocError> {
    Command::new(alloc, "json")
        .about("Tell the value of a file as JSON.")
        .after_help(JSON_EXAMPLES)
        .arg(one_word(alloc, "file", "FILE|-").help("The file; `-`: standard input"))?
        .arg(large_word(alloc))?
        .arg(told_word(alloc))
}

fn large_word<'a>(alloc: Global) -> Arg<'a> {
    Arg::new(alloc, "large-as-text")
        .long("large-as-text")
        .action(ArgAction::SetTrue)
        .help("Write integers past 2^53 as texts, which many readers of JSON don't keep")
}

fn path_word<'a>(alloc: Global) -> Arg<'a> {
    one_word(alloc, "path", "PATH").help(
        "`.` for the whole, or steps as in `name.list[3].map[\"key\"]`",
    )
}

/// An argument that has to be there.
fn one_word<'a>(alloc: Global, name: &'a str, value_name: &'a str) -> Arg<'a> {
    Arg::new(alloc, name).value_name(value_name).required(true)
}

/// What words may say of laying out.
fn format_words<'a>(alloc: Global) -> Result<Command<'a>, AllocError> {
    let command = Command::new(alloc, "fmt")
        .about("Lay files out: each word and comment stays, what stands between them changes.")
        .after_help(FORMAT_EXAMPLES);
    with_layout(alloc, with_paths(alloc, command)?)?.arg(told_word(alloc))
}

/// The words that say which files, and what becomes of them.
fn with_paths<'a>(alloc: Global, command: Command<'a>) -> Result<Command<'a>, AllocError> {
    command
        .arg(paths_word(alloc))?
        .arg(exclude_word(alloc))?
        .arg(check_word(alloc))?
        .arg(diff_word(alloc))
}

fn paths_word<'a>(alloc: Global) -> Arg<'a> {
    Arg::new(alloc, "paths")
        .value_name("FILE|FOLDER|-")
        .num_args(0..)
        .action(ArgAction::Append)
        .help("Files; of folders all *.ron in them; `-` or none: standard input to standard output")
}

fn exclude_word<'a>(alloc: Global) -> Arg<'a> {
    Arg::new(alloc, "exclude")
        .long("exclude")
        .value_name("GLOB")
        .action(ArgAction::Append)
        .help("Leave names out of folders; with a slash, paths below them")
}

fn check_word<'a>(alloc: Global) -> Arg<'a> {
    Arg::new(alloc, "check")
        .long("check")
        .action(ArgAction::SetTrue)
        .help("Write nothing; name what would change, with status 1 if anything would")
}

fn diff_word<'a>(alloc: Global) -> Arg<'a> {
    Arg::new(alloc, "diff")
        .long("diff")
        .action(ArgAction::SetTrue)
        .help("Write nothing; show what would change, as a unified diff")
}

/// The words that say how files are laid out.
fn with_layout<'a>(alloc: Global, command: Command<'a>) -> Result<Command<'a>, AllocError> {
    command
        .arg(width_word(alloc))?
        .arg(indent_word(alloc))?
        .arg(newline_word(alloc))?
        .arg(commas_word(alloc))?
        .arg(breaks_word(alloc))
}

fn width_word<'a>(alloc: Global) -> Arg<'a> {
    Arg::new(alloc, "width")
        .long("width")
        .value_name("CHARACTERS")
        .value_parser(value_parser!(usize))
        .default_value("100")
        .help("The longest line, where that can be had")
}

fn indent_word<'a>(alloc: Global) -> Arg<'a> {
    choice(alloc, "indent", "1-8|tab", INDENTS.as_slice())
        .default_value("4")
        .help("What a line begins with for each level: so many spaces, or a tab")
}

fn newline_word<'a>(alloc: Global) -> Arg<'a> {
    choice(alloc, "newline", "text|lf|crlf", NEW_LINES.as_slice())
        .default_value("text")
        .help("The line ends: those of the text, or these")
}

fn commas_word<'a>(alloc: Global) -> Arg<'a> {
    choice(alloc, "commas", "add|keep", COMMAS.as_slice())
        .default_value("add")
        .help("Last commas: put where an item has a line of its own, or left")
}

fn breaks_word<'a>(alloc: Global) -> Arg<'a> {
    choice(alloc, "keep-breaks", "yes|no", ANSWERS.as_slice())
        .default_value("yes")
        .help("Whether a group stays over lines whose opening bracket ends a line")
}

fn told_word<'a>(alloc: Global) -> Arg<'a> {
    choice(alloc, "format", "long|short|json", FORMATS.as_slice())
        .default_value("long")
        .help("How faults are told")
}

/// A flag whose value is one of these, which its name tells.
fn choice<'a>(alloc: Global, name: &'a str, value_name: &'a str, values: &'a [&'a str]) -> Arg<'a> {
    Arg::new(alloc, name)
        .long(name)
        .value_name(value_name)
        .value_parser(values)
        .hide_possible_values(true)
}
