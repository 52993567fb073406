//! The known tasks: those that are given, and the trial tasks of a script.

ghost use Rattle.std.specs.Prelude.{◌≡◌, ◌++◌, map, IfOk, OnOk};
ghost use Rattle.std.specs.List.{IsDistinct};
ghost use Rattle.std.specs.Option.{option_to_list};
ghost use Rattle.std.specs.Str.{bytes_eq};
ghost use Rattle.dap_tasks.specs.Tasks.{AreDistinct};
ghost use Rattle.dap_script.specs.Script.{task_names};
ghost use Rattle.dap_script.specs.Spelling.{IsInRange, IsScript};
ghost use Rattle.dap_model.specs.Run.{task_in, tasks_of};

use dap_script::Line;
use dap_tasks::{Task, Tasks, trial};
use std::alloc::{AllocError, Global};
use vdaf_api::Vdaf;

/// The trial task that a line gives, if it gives one.
fn task_in(line: &Line) -> Result<Option<Task>, AllocError>
    requires { IsInRange line.now }
    ensures { IfOk result (λ task. option_to_list task ≡ task_in line.now) }
{
    match line {
        Line::Task {
            name,
            kind,
            min,
            precision,
            expires,
        } => Ok(Some(trial(*name, kind.clone()?, *min, *precision, *expires))),
        _ => Ok(None),
    }
}

/// Adds a task behind the others, if there is one.
fn add_task<V: Vdaf>(
    tasks: &mut Tasks<V>,
    alloc: Global,
    new: Option<Task>,
) -> Result<(), AllocError>
    requires { AreDistinct (tasks.old ++ option_to_list new) }
    ensures { OnOk result (tasks.new ≡ tasks.old ++ option_to_list new) }
{
    match new {
        None => Ok(()),
        Some(task) => match tasks.push(alloc, task) {
            Ok(()) => Ok(()),
            Err(_) => Err(AllocError),
        },
    }
}

/// Adds the given tasks behind the others.
fn add_given<V: Vdaf>(
    tasks: &mut Tasks<V>,
    alloc: Global,
    given: Vec<Task>,
) -> Result<(), AllocError>
    requires { AreDistinct (tasks.old ++ given.items) }
    ensures { OnOk result (tasks.new ≡ tasks.old ++ given.items) }
{
    for task in given {
        add_task(tasks, alloc, Some(task))?;
    }
    Ok(())
}

/// Adds the trial tasks of a script behind the others.
fn add_trials<V: Vdaf>(
    tasks: &mut Tasks<V>,
    alloc: Global,
    script: &[Line],
) -> Result<(), AllocError>
    requires names { AreDistinct (tasks.old ++ tasks_of script.now) }
    requires script { IsScript script.now }
    ensures { OnOk result (tasks.new ≡ tasks.old ++ tasks_of script.now) }
{
    for line in script {
        add_task(tasks, alloc, task_in(line)?)?;
    }
    Ok(())
}

/// The given tasks, and behind them the trial tasks of a script.
pub fn known_tasks<V: Vdaf>(
    alloc: Global,
    given: Vec<Task>,
    script: &[Line],
) -> Result<Tasks<V>, AllocError>
    requires script { IsScript script.now }
    requires names { IsDistinct bytes_eq (map (λ task. task.name) given.items ++ task_names script.now) }
    ensures { IfOk result (λ tasks. tasks ≡ given.items ++ tasks_of script.now) }
{
    let mut tasks = Tasks::new(alloc);
    add_given(&mut tasks, alloc, given)?;
    add_trials(&mut tasks, alloc, script)?;
    Ok(tasks)
}
