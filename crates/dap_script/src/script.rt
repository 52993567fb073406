//! Scripts as lists of lines.

ghost use Rattle.std.specs.Prelude.{◌≡◌, map, IfOk, option_map};
ghost use Rattle.std.specs.Char.{is_newline};
ghost use Rattle.std.specs.List.{slice_split, list_any};
ghost use Rattle.std.specs.Option.{option_to_list};
ghost use Rattle.std.specs.Str.Lines.{strip_carriage_return};
ghost use Rattle.dap_script.specs.Words.{texts};
ghost use Rattle.dap_script.specs.Script.{lines_of, task_name, names_task, is_among, follows, line_after};

use crate::line::Line;
use dap_bytes::Name;
use std::alloc::{AllocError, Global};

/// The parts between the line feeds.
fn pieces(alloc: Global, bytes: &[u8]) -> Result<Vec<&[u8]>, AllocError>
    ensures { IfOk result (λ pieces. texts pieces.items ≡ slice_split is_newline bytes.now) }
{
    bytes.split(|byte| *byte == b'\n').collect(alloc)
}

/// The line without a carriage return at its end.
fn without_return(line: &[u8]) -> &[u8]
    ensures { result.now ≡ strip_carriage_return line.now }
{
    match line {
        [front @ .., b'\r'] => front,
        _ => line,
    }
}

/// The lines that line feeds end.
fn ended_lines<'a>(alloc: Global, pieces: &[&'a [u8]]) -> Result<Vec<&'a [u8]>, AllocError>
    ensures { IfOk result (λ lines. texts lines.items ≡ map strip_carriage_return (texts pieces.now)) }
{
    let mut lines = Vec::new(alloc);
    for piece in pieces {
        lines.push(without_return(piece))?;
    }
    Ok(lines)
}

/// The lines. A line feed at the end ends the last line and begins no other.
pub fn lines(alloc: Global, bytes: &[u8]) -> Result<Vec<&[u8]>, AllocError>
    ensures { IfOk result (λ lines. texts lines.items ≡ lines_of bytes.now) }
{
    let pieces = pieces(alloc, bytes)?;
    let Some((last, ended)) = pieces.split_last() else {
        return Ok(Vec::new(alloc));
    };
    let mut lines = ended_lines(alloc, ended)?;
    if !last.is_empty() {
        lines.push(*last)?;
    }
    Ok(lines)
}

impl Line {
    /// The name that a task line gives to its task.
    fn task_name(&self) -> Option<&Name>
        ensures { option_to_list (option_map (λ name. name.now) result) ≡ task_name self.now }
    {
        match self {
            Line::Task { name, .. } => Some(name),
            Line::Blank
            | Line::Now { .. }
            | Line::Measure { .. }
            | Line::Upload { .. }
            | Line::Collect { .. }
            | Line::Restart { .. } => None,
        }
    }

    fn names_task(&self, wanted: &Name) -> bool
        ensures { result ≡ names_task wanted.now self.now }
    {
        match self.task_name() {
            Some(name) => name == wanted,
            None => false,
        }
    }

    /// Whether this line may follow those before it, beside these names.
    fn follows(&self, names: &[Name], before: &[Line]) -> bool
        ensures { result ≡ follows names.now before.now self.now }
    {
        match self.task_name() {
            Some(name) => !is_among(names, name) && !any_names_task(before, name),
            None => true,
        }
    }
}

fn is_among(names: &[Name], wanted: &Name) -> bool
    ensures { result ≡ is_among names.now wanted.now }
{
    names.iter().any(|name| name == wanted)
}

fn any_names_task(lines: &[Line], wanted: &Name) -> bool
    ensures { result ≡ list_any (names_task wanted.now) lines.now }
{
    lines.iter().any(|line| line.names_task(wanted))
}

/// The line that a text is, if it may follow those before it, beside these names.
pub fn line_after(
    alloc: Global,
    names: &[Name],
    before: &[Line],
    text: &[u8],
) -> Result<Option<Line>, AllocError>
    ensures { IfOk result (λ line. line ≡ line_after names.now before.now text.now) }
{
    let line = Line::parse(alloc, text)?;
    Ok(line.filter(|line| line.follows(names, before)))
}
