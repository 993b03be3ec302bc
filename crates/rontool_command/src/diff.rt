//! What changed between two texts, as a unified diff.
use std::alloc::{AllocError, Global};

/// So many lines are shown around each change.
const AROUND: usize = 3;

/// Where lines differ, a line that both texts have is looked for among so many.
const WINDOW: usize = 40;

/// What became of a line.
#[derive(Clone, Copy, PartialEq, Eq)]
enum Change {
    Same,
    Gone,
    Come,
}

/// A line with its end, and what became of it.
#[derive(Clone, Copy)]
struct Line<'a> {
    change: Change,
    text: &'a str,
}

/// How many lines of both texts are passed.
#[derive(Clone, Copy)]
struct Passed {
    old: usize,
    new: usize,
}

/// A stretch of lines, by the index of its first one and the index behind its last.
#[derive(Clone, Copy)]
struct Hunk {
    start: usize,
    end: usize,
}

/// Writes what changed from one text of a file to another.
pub(crate) fn push_diff(
    alloc: Global,
    out: &mut String,
    file: &str,
    texts: (&str, &str),
) -> Result<(), AllocError> {
    let old: Vec<&str> = texts.0.split_inclusive('\n').collect(alloc)?;
    let new: Vec<&str> = texts.1.split_inclusive('\n').collect(alloc)?;
    let lines = compared(alloc, old.as_slice(), new.as_slice())?;
    let head = format!(in alloc; "--- {file}\n+++ {file}\n")?;
    out.push_str(head.as_str())?;
    push_hunks(alloc, out, lines.as_slice())
}

/// All lines of both texts, in their order.
fn compared<'a>(
    alloc: Global,
    old: &[&'a str],
    new: &[&'a str],
) -> Result<Vec<Line<'a>>, AllocError> {
    let mut lines = Vec::new(alloc);
    let mut passed = Passed { old: 0, new: 0 };
    for _ in 0..u64::MAX {
        if passed.old >= old.len() && passed.new >= new.len() {
            break;
        }
        passed = push_part(&mut lines, old, new, passed)?;
    }
    Ok(lines)
}

/// Writes the lines that differ from a place on, and the next that both texts have; answers how many are passed then.
fn push_part<'a>(
    lines: &mut Vec<Line<'a>>,
    old: &[&'a str],
    new: &[&'a str],
    passed: Passed,
) -> Result<Passed, AllocError> {
    let (gone, come) = meeting(behind(old, passed.old), behind(new, passed.new));
    push_lines(lines, Change::Gone, front(behind(old, passed.old), gone))?;
    push_lines(lines, Change::Come, front(behind(new, passed.new), come))?;
    let met = Passed {
        old: passed.old.saturating_add(gone),
        new: passed.new.saturating_add(come),
    };
    if let Some(text) = same_line(old.get(met.old), new.get(met.new)) {
        lines.push(Line {
            change: Change::Same,
            text,
        })?;
        return Ok(Passed {
            old: met.old.saturating_add(1),
            new: met.new.saturating_add(1),
        });
    }
    Ok(met)
}

/// A line that both texts have.
fn same_line<'a>(old: Option<&&'a str>, new: Option<&&'a str>) -> Option<&'a str> {
    match (old, new) {
        (Some(one), Some(other)) if *one == *other => Some(*one),
        _ => None,
    }
}

/// The lines behind so many.
fn behind<'b, 'a>(lines: &'b [&'a str], many: usize) -> &'b [&'a str] {
    let first = if many < lines.len() {
        many
    } else {
        lines.len()
    };
    &lines[first..]
}

/// So many lines at most.
fn front<'b, 'a>(lines: &'b [&'a str], many: usize) -> &'b [&'a str] {
    let end = if many < lines.len() {
        many
    } else {
        lines.len()
    };
    &lines[..end]
}

/// Writes lines of which the same became.
fn push_lines<'a>(
    lines: &mut Vec<Line<'a>>,
    change: Change,
    texts: &[&'a str],
) -> Result<(), AllocError> {
    for text in texts {
        lines.push(Line {
            change,
            text: *text,
        })?;
    }
    Ok(())
}

/// How many lines differ in both texts before the next one that both have.
fn meeting(old: &[&str], new: &[&str]) -> (usize, usize) {
    if old.is_empty() || new.is_empty() {
        return (old.len(), new.len());
    }
    for distance in 0..2 * WINDOW {
        if let Some(gone) = meets_after(old, new, distance) {
            return (gone, distance.saturating_sub(gone));
        }
    }
    (WINDOW, WINDOW)
}

/// How many old lines differ where so many lines of both do so before one that both have.
fn meets_after(old: &[&str], new: &[&str], distance: usize) -> Option<usize> {
    for gone in 0..distance.saturating_add(1) {
        if let (Some(one), Some(other)) = (old.get(gone), new.get(distance.saturating_sub(gone))) {
            if one == other {
                return Some(gone);
            }
        }
    }
    None
}

/// Writes the stretches of lines in which something changed.
fn push_hunks(alloc: Global, out: &mut String, lines: &[Line<'_>]) -> Result<(), AllocError> {
    let mut from = 0;
    for _ in 0..u64::MAX {
        let Some(hunk) = next_hunk(lines, from) else {
            break;
        };
        push_hunk(alloc, out, lines, hunk)?;
        from = hunk.end;
    }
    Ok(())
}

/// The first stretch of lines from an index on in which something changed.
fn next_hunk(lines: &[Line<'_>], from: usize) -> Option<Hunk> {
    let rest = lines.get(from..)?;
    let first = rest.iter().position(|line| line.change != Change::Same)?;
    let start = from.saturating_add(first.saturating_sub(AROUND));
    let shown = lines.get(start..)?;
    Some(Hunk {
        start,
        end: start.saturating_add(hunk_end(shown)),
    })
}

/// How many of these lines belong to the first stretch.
fn hunk_end(lines: &[Line<'_>]) -> usize {
    let mut end = 0;
    for (i, line) in lines.iter().enumerate() {
        if line.change != Change::Same {
            end = i.saturating_add(1);
        } else if end > 0 && i >= end.saturating_add(2 * AROUND) {
            break;
        }
    }
    lines.len().min(end.saturating_add(AROUND))
}

impl Passed {
    /// How many lines of both texts these are.
    fn of(lines: &[Line<'_>]) -> Passed {
        let come = lines
            .iter()
            .filter(|line| line.change == Change::Come)
            .count();
        let gone = lines
            .iter()
            .filter(|line| line.change == Change::Gone)
            .count();
        Passed {
            old: lines.len().saturating_sub(come),
            new: lines.len().saturating_sub(gone),
        }
    }
}

/// Writes a stretch of lines.
fn push_hunk(
    alloc: Global,
    out: &mut String,
    lines: &[Line<'_>],
    hunk: Hunk,
) -> Result<(), AllocError> {
    let (Some(front), Some(shown)) = (lines.get(..hunk.end), lines.get(hunk.start..hunk.end)) else {
        return Ok(());
    };
    let after = Passed::of(front);
    let many = Passed::of(shown);
    out.push_str("@@ -")?;
    push_range(alloc, out, after.old.saturating_sub(many.old), after.old)?;
    out.push_str(" +")?;
    push_range(alloc, out, after.new.saturating_sub(many.new), after.new)?;
    out.push_str(" @@\n")?;
    for line in shown {
        push_line(out, *line)?;
    }
    Ok(())
}

/// Writes which lines stand between two places of a text.
fn push_range(
    alloc: Global,
    out: &mut String,
    before: usize,
    after: usize,
) -> Result<(), AllocError> {
    let many = after.saturating_sub(before);
    let first = if many == 0 {
        before
    } else {
        before.saturating_add(1)
    };
    let range = if many == 1 {
        format!(in alloc; "{first}")?
    } else {
        format!(in alloc; "{first},{many}")?
    };
    out.push_str(range.as_str())
}

/// Writes a line behind what became of it.
fn push_line(out: &mut String, line: Line<'_>) -> Result<(), AllocError> {
    out.push(match line.change {
        Change::Same => ' ',
        Change::Gone => '-',
        Change::Come => '+',
    })?;
    out.push_str(line.text)?;
    if line.text.ends_with('\n') {
        return Ok(());
    }
    out.push_str("\n\\ No newline at end of file\n")
}
