//! The lines of a script that are run.

ghost use Rattle.std.specs.Prelude.{◌≡◌, ◌≤◌, ◌<◌, ◌^◌, ◌++◌, length, IfOk};
ghost use Rattle.std.specs.List.{IsDistinct};
ghost use Rattle.std.specs.Str.{bytes_eq};
ghost use Rattle.dap_tasks.specs.Tasks.{AreDistinct};
ghost use Rattle.dap_script.specs.Script.{task_names};
ghost use Rattle.dap_script.specs.Spelling.{IsScriptBeside};
ghost use Rattle.dap_model.specs.Limits.{full_line_of};
ghost use Rattle.dap_model.specs.State.{names_of, opening};
ghost use Rattle.dap_program.specs.Lines.{is_later, later_line_of};
ghost use Rattle.dap_program.specs.Runs.{Plans};

use crate::status::Status;
use dap_bytes::{LONGEST_SCRIPT, Name};
use dap_script::{Line, is_longer, read_script_beside};
use dap_tasks::Task;
use std::alloc::{AllocError, Global};

/// How many tasks are known in a run at most: limit 1.
pub const MAX_TASKS: usize = 16;

/// How many lines a script has at most: limit 4.
pub const MAX_LINES: u32 = 1_000_000;

fn names_of(alloc: Global, tasks: &[Task]) -> Result<Vec<Name>, AllocError>
    ensures { IfOk result (λ names. names.items ≡ names_of tasks.now) }
{
    tasks.iter().map(|task| task.name).collect(alloc)
}

/// Whether the line has a form that isn't run yet.
fn is_later(line: &Line) -> bool
    ensures { result ≡ is_later line.now }
{
    matches!(line, Line::Restart { .. })
}

/// The first line that isn't run yet, counted from 1.
fn later_line(lines: &[Line]) -> Option<u32>
    requires { length lines.now < 2 ^ 31 }
    ensures { result ≡ later_line_of lines.now }
{
    let mut number: u32 = 1;
    for line in lines {
        if is_later(line) {
            return Some(number);
        }
        number += 1;
    }
    None
}

/// The first line with which too many tasks are known, counted from 1, or 0 where the given ones are too many. Their names
/// differ, so each task counts.
fn full_line(given: &[Task], lines: &[Line]) -> Option<u32>
    requires few { length lines.now < 2 ^ 31 }
    requires names { IsDistinct bytes_eq (names_of given.now ++ task_names lines.now) }
    ensures { result ≡ full_line_of MAX_TASKS (opening given.now) lines.now }
{
    let mut known = given.len();
    let mut number: u32 = 0;
    for line in lines {
        if known > MAX_TASKS {
            return Some(number);
        }
        if matches!(line, Line::Task { .. }) {
            known += 1;
        }
        number += 1;
    }
    if known > MAX_TASKS {
        return Some(number);
    }
    None
}

/// The lines of a script of at most `LONGEST_SCRIPT` bytes, if they are run beside the given tasks.
pub fn lines_run(alloc: Global, given: &[Task], script: &[u8]) -> Result<Vec<Line>, Status>
    requires size { length script.now ≤ LONGEST_SCRIPT }
    requires distinct { AreDistinct given.now }
    ensures lines { Plans result given.now script.now }
    ensures script { IfOk result (λ lines. IsScriptBeside (names_of given.now) lines.items) }
    ensures count { IfOk result (λ lines. length lines.items ≤ length script.now) }
{
    if is_longer(script, MAX_LINES) {
        return Err(Status::Limit {
            line: MAX_LINES + 1,
            limit: 4,
        });
    }
    let names = names_of(alloc, given)?;
    let lines = read_script_beside(alloc, &names, script)?;
    if let Some(line) = later_line(&lines) {
        return Err(Status::NotYet { line });
    }
    if let Some(line) = full_line(given, &lines) {
        return Err(Status::Limit { line, limit: 1 });
    }
    Ok(lines)
}
