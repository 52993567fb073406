//! The command `check`.

ghost use Rattle.std.specs.Prelude.{◌≡◌, ◌⊎◌, ◌≤◌, ℕ, List, IfOk, IfErr, IfSome, IsErrOf};
ghost use Rattle.std.specs.List.{flat_map};
ghost use Rattle.dap_bytes.specs.Causes.{Counts};
ghost use Rattle.dap_tasks.specs.File.{tasks_of};
ghost use Rattle.dap_program.specs.Headline.{IsSilent, IsTasksRefused, check_outcome, task_line};
ghost use Rattle.dap_program.specs.Runs.{Ends, IsCheckStop, status_after};

use crate::given::file_tasks;
use crate::status::Status;
use crate::transfer::write_all;
use dap_outside::{Files, Sink};
use dap_script::print_task;
use dap_tasks::Task;
use std::alloc::{AllocError, Global};

/// The line of each task.
fn task_lines(alloc: Global, tasks: &[Task]) -> Result<Vec<u8>, AllocError>
    ensures { IfOk result (λ text. text.items ≡ flat_map task_line tasks.now) }
{
    let mut text = Vec::new(alloc);
    for task in tasks {
        print_task(
            alloc,
            &task.name,
            &task.kind,
            task.min,
            task.precision,
            task.expires,
            &mut text,
        )?;
    }
    Ok(text)
}

/// Reads the task file and prints the line of each of its tasks.
pub fn check<F: Files, K: Sink>(
    alloc: Global,
    name: &str,
    files: &mut F,
    out: &mut K,
) -> Result<(), Status>
    ensures ends { IfSome (F.contents files.old name.now)
        (λ file. Ends (status_after result) (K.held out.old) (K.held out.new) (check_outcome (tasks_of file))) }
    ensures refused { (task : ℕ) (field : List ℕ) → IsErrOf result (Status.TasksRefused task field)
        → IfSome (F.contents files.old name.now) (λ file. IsTasksRefused file task field) }
    ensures silent { IfErr result (λ status. IsSilent status → K.held out.new ≡ K.held out.old) }
    ensures reads { Counts (IsErrOf result Status.ReadFault) (F.faults files.old) (F.faults files.new) }
    ensures writes { Counts (IsErrOf result Status.WriteFault) (K.faults out.old) (K.faults out.new) }
    ensures kept { (file : List ℕ) → F.contents files.new file ≡ F.contents files.old file }
    ensures only { IfErr result IsCheckStop }
    ensures gone { F.missing files.old name.now → IsErrOf result Status.ReadFault ⊎ IsErrOf result Status.NoMemory }
{
    let tasks = file_tasks(alloc, name, files)?;
    let text = task_lines(alloc, &tasks)?;
    write_all(out, &text)?;
    Ok(())
}
