//! What a script prints.

ghost use Rattle.std.specs.Prelude.{◌≡◌, ◌<◌, ◌^◌, ◌++◌, List, All, length, map};
ghost use Rattle.std.specs.List.{IsDistinct};
ghost use Rattle.std.specs.Str.{bytes_eq};
ghost use Rattle.dap_tasks.specs.Task.{PlainTask};
ghost use Rattle.dap_script.specs.Script.{task_names};
ghost use Rattle.dap_script.specs.Spelling.{IsInRange, IsScript};
ghost use Rattle.dap_model.specs.Run.{tasks_of};
ghost use Rattle.dap_model.specs.State.{opening};
ghost use Rattle.dap_direct.specs.Answered.{RunsTo};

use crate::fault::RunFault;
use crate::known::known_tasks;
use crate::state::Direct;
use crate::told::Told;
use dap_model::Limits;
use dap_script::Line;
use dap_tasks::{Task, Tasks};
use std::alloc::Global;
use vdaf_api::ListVdaf;

/// What a script prints under these limits and these known tasks.
fn run<V: ListVdaf>(
    alloc: Global,
    limits: &Limits,
    tasks: &Tasks<V>,
    script: &[Line],
) -> Result<Vec<u8>, RunFault>
    requires few { length script.now < 2 ^ 31 }
    requires range { All IsInRange script.now }
    ensures { (given : List PlainTask) → tasks.now ≡ given ++ tasks_of script.now
        → RunsTo V.of_kind limits.now (opening given) script.now result }
{
    let mut direct = Direct::new(alloc);
    let mut told = Told::new(alloc);
    let mut number: u32 = 1;
    for line in script {
        let printed = direct.step(alloc, tasks, number, line)?;
        if let Some(limit) = direct.offered.passed_limit(limits) {
            let text = told.into_whole();
            return Err(RunFault::Limit {
                line: number,
                limit,
                text,
            });
        }
        told.add(alloc, line, printed)?;
        number += 1;
    }
    Ok(told.text)
}

/// What a script prints under these limits, where the given tasks are known before it and nothing else is. `Limit`
/// exactly where a limit is passed, with the first line with which it is, and with the text of the segments before that
/// line.
pub fn printed_text<V: ListVdaf>(
    alloc: Global,
    limits: &Limits,
    given: Vec<Task>,
    script: &[Line],
) -> Result<Vec<u8>, RunFault>
    requires few { length script.now < 2 ^ 31 }
    requires script { IsScript script.now }
    requires names { IsDistinct bytes_eq (map (λ task. task.name) given.items ++ task_names script.now) }
    ensures { RunsTo V.of_kind limits.now (opening given.items) script.now result }
{
    let tasks: Tasks<V> = known_tasks(alloc, given, script)?;
    run(alloc, limits, &tasks, script)
}
