//! What a run is asked for.
ghost use Rattle.std.specs.Prelude.{◌≡◌, map, string_bytes};
ghost use Rattle.ronv_command.specs.Words.{asked_for};

use crate::flags::{Flags, flags_of};

/// What a run may be asked for.
#[derive(Clone, Copy)]
pub enum Command {
    /// Read a point and write its compact text.
    Point,
    /// Read a value of any form and write its compact text.
    Value,
    /// Read a value of any form and write it in the default layout, as flags change it.
    Format(Flags),
}

/// What the words ask for, if for anything.
pub fn command_of(words: &[String]) -> Option<Command>
    ensures { result ≡ asked_for (map string_bytes words.now) }
{
    let (word, behind) = words.split_first()?;
    let word = word.as_str();
    if word == "fmt" {
        return Some(Command::Format(flags_of(behind)?));
    }
    if !behind.is_empty() {
        return None;
    }
    match word {
        "point" => Some(Command::Point),
        "value" => Some(Command::Value),
        _ => None,
    }
}
