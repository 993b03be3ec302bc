//! The program over any three streams.
ghost use Rattle.std.specs.Prelude.{◌≡◌, ◌↔◌, ◌≤◌, chars, string_bytes, IfOk, MatchResult, OnOk, IfErr};
ghost use Rattle.std.specs.Io.KnownBytes.{Keeps};
ghost use Rattle.ron.specs.Config.{no_config};
ghost use Rattle.ron.specs.Table.{table_of};
ghost use Rattle.ron.specs.ValueText.{value_table};
ghost use Rattle.ronv_command.specs.Flags.{layout_of};
ghost use Rattle.ronv_command.specs.Words.{AsksFor};
ghost use Rattle.ronv_command.specs.Faults.{IsFaultBy, IsFaultOf, IsInTheWay};
ghost use Rattle.ronv_command.specs.Told.{Tells};
ghost use Rattle.ronv_command.specs.Run.{RewritesBy, RewritesInput, RewritesStream, HasNoRewriting};

use crate::command::{Command, command_of};
use crate::flags::Flags;
use crate::point::point_schema;
use ron::error::{Error, SpannedError};
use ron::options::Options;
use ron::schema::{Schema, Shape};
use std::alloc::Global;
use std::io;
use std::io::{Read, Write};

/// Why a run fails.
#[derive(Drop)]
pub enum CommandFault {
    /// Output that can't be written.
    Stream(io::Error),
    /// Input that can't be read, or isn't a text of the format.
    Text(SpannedError),
    /// Data that can't be written.
    Data(Error),
}

/// Runs the program with these words, its own name left out, and answers its exit status: 0 where `perform` does what
/// they ask for; 1 after a fault of it, which `report` tells; or 2 where the words ask for nothing that it does. A fault
/// in writing to `faults` changes no status.
pub fn run<R: Read, O: Write, F: Write>(
    alloc: Global,
    words: &[String],
    input: &mut R,
    output: &mut O,
    faults: &mut F,
) -> u8
    ensures status { result ≤ 2 }
    ensures usage { (result ≡ 2) ↔ ((c : Command) → AsksFor c words.now → ⊥) }
    ensures idle { result ≡ 2 → (input.new ≡ input.old) × (output.new ≡ output.old) }
    ensures done { (c : Command) → AsksFor c words.now → result ≡ 0
        → RewritesStream c (R.remaining input.old) (O.contents output.old) (O.contents output.new) }
    ensures kept { (c : Command) → AsksFor c words.now → HasNoRewriting c (R.remaining input.old)
        → Keeps (O.contents output.old) (O.contents output.new) }
    ensures fault { (c : Command) → AsksFor c words.now → result ≡ 1 → IsInTheWay c (R.remaining input.old) }
{
    let Some(command) = command_of(words) else {
        let _ = writeln!(faults, "usage: ronv point|value|fmt");
        return 2;
    };
    match perform(alloc, command, input, output) {
        Ok(()) => 0,
        Err(fault) => {
            let _ = report(&fault, faults);
            1
        }
    }
}

/// Writes what the command makes of all of the input, and an LF. All is read before anything is written; a fault of the
/// input or of its text leaves the output as it was, one of the output may leave a beginning there.
pub fn perform<R: Read, O: Write>(
    alloc: Global,
    command: Command,
    input: &mut R,
    output: &mut O,
) -> Result<(), CommandFault>
    ensures ok { OnOk result
        (RewritesStream command (R.remaining input.old) (O.contents output.old) (O.contents output.new)) }
    ensures kept { HasNoRewriting command (R.remaining input.old)
        → Keeps (O.contents output.old) (O.contents output.new) }
    ensures fault { IfErr result (IsFaultOf command (R.remaining input.old)) }
{
    let written = answer(alloc, command, input)?;
    writeln!(output, "{written}").map_err(CommandFault::Stream)
}

/// What the command answers to all of the input.
fn answer<R: Read>(alloc: Global, command: Command, input: &mut R) -> Result<String, CommandFault>
    ensures text { IfOk result (λ t. RewritesInput command (R.remaining input.old) (chars (string_bytes t))) }
    ensures fault { IfErr result (IsFaultOf command (R.remaining input.old)) }
{
    match command {
        Command::Point => {
            let schema = point_schema(alloc).map_err(CommandFault::Data)?;
            compact(alloc, &schema, input)
        }
        Command::Value => {
            let schema = value_schema(alloc).map_err(CommandFault::Data)?;
            compact(alloc, &schema, input)
        }
        Command::Format(flags) => {
            let schema = value_schema(alloc).map_err(CommandFault::Data)?;
            format(alloc, &schema, flags, input)
        }
    }
}

/// The compact text of all of the input, read by a schema.
fn compact<R: Read>(alloc: Global, schema: &Schema, input: &mut R) -> Result<String, CommandFault>
    ensures text { IfOk result (λ t.
        RewritesBy (table_of schema.now) no_config (R.remaining input.old) (chars (string_bytes t))) }
    ensures fault { IfErr result (IsFaultBy (table_of schema.now) no_config (R.remaining input.old)) }
{
    let options = Options::default();
    let data = options
        .from_reader_seed(alloc, input, schema)
        .map_err(CommandFault::Text)?;
    options
        .to_string_data(alloc, &data, None)
        .map_err(CommandFault::Data)
}

/// The text of all of the input, read by a schema, in the layout that the flags give.
fn format<R: Read>(
    alloc: Global,
    schema: &Schema,
    flags: Flags,
    input: &mut R,
) -> Result<String, CommandFault>
    ensures text { IfOk result (λ t.
        RewritesBy (table_of schema.now) (layout_of flags) (R.remaining input.old) (chars (string_bytes t))) }
    ensures fault { IfErr result (IsFaultBy (table_of schema.now) (layout_of flags) (R.remaining input.old)) }
{
    let options = Options::default();
    let data = options
        .from_reader_seed(alloc, input, schema)
        .map_err(CommandFault::Text)?;
    options
        .to_string_data(alloc, &data, Some(flags.layout()))
        .map_err(CommandFault::Data)
}

/// The schema of any value.
fn value_schema(alloc: Global) -> Result<Schema, Error>
    ensures { MatchResult result (λ s. table_of s ≡ value_table) (λ e. e ≡ Error.OutOfMemory) }
{
    let mut shapes = Vec::with_capacity(alloc, 1)?;
    shapes.push(Shape::Value)?;
    Schema::new(shapes, 0)
}

/// Writes why the run fails, and an LF.
pub fn report<F: Write>(fault: &CommandFault, faults: &mut F) -> io::Result<()>
    ensures { OnOk result (Tells fault.now (F.contents faults.old) (F.contents faults.new)) }
{
    match fault {
        CommandFault::Stream(error) => writeln!(faults, "{error}"),
        CommandFault::Text(error) => writeln!(faults, "{error}"),
        CommandFault::Data(error) => writeln!(faults, "{error}"),
    }
}
