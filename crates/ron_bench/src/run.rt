//! The program over any clock and any three streams.
ghost use Rattle.std.specs.Prelude.{◌≡◌, ◌≢◌, ◌≤◌, length, IfSome, OnOk};
ghost use Rattle.ron_bench.specs.Told.{Tells};

use crate::devices::copy;
use crate::layout::Layout;
use crate::passes::{BenchFault, Converting, Reading, Timed, Untyped, Writing, passes};
use crate::tree::{Leaf, tree_schema};
use crate::types::{Kind, Repeated, TypeWriting, measured_as};
use ron::schema::{Data, Schema};
use ron::value::Value;
use std::alloc::Global;
use std::io;
use std::io::{Read, Write};
use std::time::{Clock, Duration};

/// What a run is asked for.
#[derive(Clone, Copy)]
enum Plan {
    Tree(Tree),
    /// So many passes over a text as this type.
    Types(Kind, u32),
}

/// The leaves and levels of a tree, and what is to be done with it.
#[derive(Clone, Copy)]
struct Tree {
    leaf: Leaf,
    levels: u8,
    task: Task,
}

/// So many passes over a text in memory, or one from the input to the output.
#[derive(Clone, Copy)]
enum Task {
    Passes(Kinds, u32),
    Devices,
}

/// Which passes: those by the schema, those of a value without one, or first the one and then the other. What one kind
/// lets go of the other finds in pieces, so each can have a run of its own.
#[derive(Clone, Copy)]
enum Kinds {
    Data,
    Values,
    Both,
}

/// What is found of the text by its schema.
#[derive(Clone, Copy)]
struct Findings {
    /// How many bytes the text has.
    length: usize,
    /// How many the text of the default layout has.
    pretty_length: usize,
    /// Whether the text written is the text read.
    is_same: bool,
    /// The quickest pass of reading, of writing, and of writing in the default layout.
    read: Duration,
    write: Duration,
    pretty: Duration,
}

/// What is found of the text as a value without a schema.
#[derive(Clone, Copy)]
struct ValueFindings {
    /// How many bytes the text has as which the value is written.
    length: usize,
    /// The quickest pass of reading the value, of writing it, and of making data of it, where it holds no enum.
    read: Duration,
    write: Duration,
    convert: Option<Duration>,
}

/// Runs the program with these words, its own name left out, and answers its exit status: 0, or 1 after a fault or
/// where another text is written than was read, or 2 where the words are no plan. The times go to `notes`: what is
/// written to `output` is the same in each run. Asked for `devices`, it writes the text there.
pub fn run<C: Clock, R: Read, O: Write, N: Write>(
    alloc: Global,
    clock: &C,
    words: &[String],
    input: &mut R,
    output: &mut O,
    notes: &mut N,
) -> u8
    ensures status { result ≤ 2 }
    ensures usage { length words.now ≢ 3 → result ≡ 2 }
{
    let Some(plan) = plan_of(words) else {
        let _ = writeln!(
            notes,
            "usage: ron_bench points|records|entities LEVELS COUNT|data:COUNT|values:COUNT|devices, or types pairs|lists|configuration COUNT"
        );
        return 2;
    };
    match perform(alloc, clock, plan, input, output, notes) {
        Ok(true) => 0,
        Ok(false) => 1,
        Err(fault) => {
            let _ = report(&fault, notes);
            1
        }
    }
}

/// The plan that the words ask for: the kind of leaf, a number of levels, and a number of passes, with or without their
/// kind before it, or `devices`; or `types`, which type, and a number of passes.
fn plan_of(words: &[String]) -> Option<Plan>
    ensures { IfSome result (λ _. length words.now ≡ 3) }
{
    match words {
        [leaf, levels, count] => plan_by(leaf.as_str(), levels.as_str(), count.as_str()),
        _ => None,
    }
}

fn plan_by(leaf: &str, levels: &str, count: &str) -> Option<Plan> {
    if leaf == "types" {
        return Some(Plan::Types(kind_of(levels)?, count.parse::<u32>().ok()?));
    }
    Some(Plan::Tree(Tree {
        leaf: leaf_of(leaf)?,
        levels: levels.parse::<u8>().ok()?,
        task: task_of(count)?,
    }))
}

fn kind_of(word: &str) -> Option<Kind> {
    match word {
        "pairs" => Some(Kind::Pairs),
        "lists" => Some(Kind::Lists),
        "configuration" => Some(Kind::Configuration),
        _ => None,
    }
}

fn task_of(word: &str) -> Option<Task> {
    if word == "devices" {
        return Some(Task::Devices);
    }
    let (kinds, count) = match word.split_once(':') {
        Some(("data", count)) => (Kinds::Data, count),
        Some(("values", count)) => (Kinds::Values, count),
        _ => (Kinds::Both, word),
    };
    Some(Task::Passes(kinds, count.parse::<u32>().ok()?))
}

fn leaf_of(word: &str) -> Option<Leaf> {
    match word {
        "points" => Some(Leaf::Points),
        "records" => Some(Leaf::Records),
        "entities" => Some(Leaf::Entities),
        _ => None,
    }
}

/// Measures and writes what was found: whether the text written is the text read.
fn perform<C: Clock, R: Read, O: Write, N: Write>(
    alloc: Global,
    clock: &C,
    plan: Plan,
    input: &mut R,
    output: &mut O,
    notes: &mut N,
) -> Result<bool, BenchFault> {
    match plan {
        Plan::Tree(tree) => perform_on_tree(alloc, clock, tree, input, output, notes),
        Plan::Types(kind, count) => {
            let mut text = String::new(alloc);
            input
                .read_to_string(&mut text)
                .map_err(BenchFault::Outside)?;
            let repeated = Repeated {
                text: text.as_str(),
                count,
            };
            let found = measured_as(alloc, clock, kind, repeated)?;
            let length = text.len();
            let verdict = verdict_of(found.is_same);
            writeln!(output, "{length} bytes, {verdict}").map_err(BenchFault::Outside)?;
            note(found.read, found.write, notes).map_err(BenchFault::Outside)?;
            Ok(found.is_same)
        }
    }
}

fn perform_on_tree<C: Clock, R: Read, O: Write, N: Write>(
    alloc: Global,
    clock: &C,
    tree: Tree,
    input: &mut R,
    output: &mut O,
    notes: &mut N,
) -> Result<bool, BenchFault> {
    let schema = tree_schema(alloc, tree.leaf, tree.levels).map_err(BenchFault::Data)?;
    match tree.task {
        Task::Devices => {
            let copied = copy(alloc, clock, &schema, input, output)?;
            note(copied.read, copied.write, notes).map_err(BenchFault::Outside)?;
            Ok(true)
        }
        Task::Passes(kinds, count) => {
            let mut text = String::new(alloc);
            input
                .read_to_string(&mut text)
                .map_err(BenchFault::Outside)?;
            let converts = !matches!(tree.leaf, Leaf::Entities);
            let work = Work {
                schema: &schema,
                text: text.as_str(),
                count,
                converts,
            };
            pass_over(alloc, clock, kinds, &work, output, notes)
        }
    }
}

/// Makes the passes of these kinds and writes what was found: whether the text written is the text read.
fn pass_over<C: Clock, O: Write, N: Write>(
    alloc: Global,
    clock: &C,
    kinds: Kinds,
    work: &Work,
    output: &mut O,
    notes: &mut N,
) -> Result<bool, BenchFault> {
    let mut is_same = true;
    if !matches!(kinds, Kinds::Values) {
        let findings = measured(alloc, clock, work)?;
        show(&findings, output, notes).map_err(BenchFault::Outside)?;
        is_same = findings.is_same;
    }
    if !matches!(kinds, Kinds::Data) {
        let findings = value_measured(alloc, clock, work)?;
        show_value(&findings, output, notes).map_err(BenchFault::Outside)?;
    }
    Ok(is_same)
}

/// What the passes of a run share: a text, its schema, how often it is read and written, and whether its value becomes data.
#[derive(Clone, Copy)]
struct Work<'a> {
    schema: &'a Schema,
    text: &'a str,
    count: u32,
    converts: bool,
}

/// Reads and writes the text by its schema as often as is asked.
fn measured<C: Clock>(alloc: Global, clock: &C, work: &Work) -> Result<Findings, BenchFault> {
    let reading = Reading {
        text: work.text,
        schema: work.schema,
    };
    let tree = passes(alloc, clock, &reading, work.count)?;
    let read = tree.least;
    let written = written_both(alloc, clock, &tree.made, work);
    drop(tree);
    let (written, pretty) = written?;
    Ok(Findings {
        length: work.text.len(),
        pretty_length: pretty.length,
        is_same: written.is_same,
        read,
        write: written.least,
        pretty: pretty.least,
    })
}

/// What is found of the compact layout and of the default one.
fn written_both<C: Clock>(
    alloc: Global,
    clock: &C,
    data: &Data,
    work: &Work,
) -> Result<(Written, Written), BenchFault> {
    let compact = written_in(alloc, clock, data, Layout::Compact, work)?;
    let pretty = written_in(alloc, clock, data, Layout::Pretty, work)?;
    Ok((compact, pretty))
}

/// What is found of the text as a value without a schema.
fn value_measured<C: Clock>(
    alloc: Global,
    clock: &C,
    work: &Work,
) -> Result<ValueFindings, BenchFault> {
    let value = passes(alloc, clock, &Untyped { text: work.text }, work.count)?;
    let read = value.least;
    let convert = converted(alloc, clock, &value.made, work);
    let writing = TypeWriting { value: &value.made };
    let written = passes(alloc, clock, &writing, work.count);
    drop(value);
    let (convert, written) = (convert?, written?);
    Ok(ValueFindings {
        length: written.made.len(),
        read,
        write: written.least,
        convert,
    })
}

/// The quickest pass of converting the value, where it is asked for.
fn converted<C: Clock>(
    alloc: Global,
    clock: &C,
    value: &Value,
    work: &Work,
) -> Result<Option<Duration>, BenchFault> {
    if !work.converts {
        return Ok(None);
    }
    let converting = Converting {
        value,
        schema: work.schema,
    };
    let converted = passes(alloc, clock, &converting, work.count)?;
    Ok(Some(converted.least))
}

/// What is found of a layout: how many bytes it has, whether it is the text, and the quickest pass.
#[derive(Clone, Copy)]
struct Written {
    length: usize,
    is_same: bool,
    least: Duration,
}

fn written_in<C: Clock>(
    alloc: Global,
    clock: &C,
    data: &Data,
    layout: Layout,
    work: &Work,
) -> Result<Written, BenchFault> {
    let writing = Writing { data, layout };
    let Timed { made, least } = passes(alloc, clock, &writing, work.count)?;
    Ok(Written {
        length: made.len(),
        is_same: made.as_str() == work.text,
        least,
    })
}

/// Writes what is the same in each run to `output`, and the times to `notes`.
fn show<O: Write, N: Write>(findings: &Findings, output: &mut O, notes: &mut N) -> io::Result<()> {
    let length = findings.length;
    let verdict = verdict_of(findings.is_same);
    let pretty_length = findings.pretty_length;
    writeln!(
        output,
        "{length} bytes, {verdict}; {pretty_length} laid out"
    )?;
    note(findings.read, findings.write, notes)?;
    let pretty = findings.pretty.as_nanos();
    writeln!(notes, "pretty {pretty} ns")
}

fn verdict_of(is_same: bool) -> &'static str {
    if is_same { "same" } else { "different" }
}

/// The same of a value: how long reading, writing and converting it took.
fn show_value<O: Write, N: Write>(
    found: &ValueFindings,
    output: &mut O,
    notes: &mut N,
) -> io::Result<()> {
    let length = found.length;
    writeln!(output, "{length} as a value")?;
    let read = found.read.as_nanos();
    writeln!(notes, "value {read} ns")?;
    let write = found.write.as_nanos();
    writeln!(notes, "value_write {write} ns")?;
    match found.convert {
        Some(convert) => {
            let convert = convert.as_nanos();
            writeln!(notes, "convert {convert} ns")
        }
        None => Ok(()),
    }
}

/// Writes how long reading and writing took.
fn note<N: Write>(read: Duration, write: Duration, notes: &mut N) -> io::Result<()> {
    let read = read.as_nanos();
    let write = write.as_nanos();
    writeln!(notes, "read {read} ns")?;
    writeln!(notes, "write {write} ns")
}

/// Writes why the run fails, and an LF.
fn report<N: Write>(fault: &BenchFault, notes: &mut N) -> io::Result<()>
    ensures { OnOk result (Tells fault.now (N.contents notes.old) (N.contents notes.new)) }
{
    match fault {
        BenchFault::Outside(error) => writeln!(notes, "{error}"),
        BenchFault::Text(error) => writeln!(notes, "{error}"),
        BenchFault::Data(error) => writeln!(notes, "{error}"),
    }
}
