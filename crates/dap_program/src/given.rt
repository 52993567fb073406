//! The tasks of a task file.

ghost use Rattle.std.specs.Prelude.{◌≡◌, ◌⊎◌, ◌≤◌, ℕ, List, IfOk, IfErr, IfSome, IsErrOf};
ghost use Rattle.dap_bytes.specs.Causes.{Counts};
ghost use Rattle.dap_tasks.specs.File.{tasks_of};
ghost use Rattle.dap_tasks.specs.Tasks.{AreDistinct};
ghost use Rattle.dap_program.specs.Runs.{Gives, IsFileStop};

use crate::status::Status;
use dap_outside::Files;
use dap_tasks::{Task, read_tasks};
use std::alloc::Global;

/// The tasks of the file of this name.
pub fn file_tasks<F: Files>(alloc: Global, name: &str, files: &mut F) -> Result<Vec<Task>, Status>
    ensures tasks { IfSome (F.contents files.old name.now) (λ file. Gives result (tasks_of file)) }
    ensures distinct { IfOk result (λ tasks. AreDistinct tasks.items) }

    // A file that is missing has none.
    ensures gone { F.missing files.old name.now → IsErrOf result Status.ReadFault ⊎ IsErrOf result Status.NoMemory }

    // Nothing but a fault of the files, a refusal and want of memory stops it, and no file changes.
    ensures only { IfErr result IsFileStop }
    ensures faults { Counts (IsErrOf result Status.ReadFault) (F.faults files.old) (F.faults files.new) }
    ensures kept { (file : List ℕ) → F.contents files.new file ≡ F.contents files.old file }
{
    let bytes = files.read_file(alloc, name)?;
    Ok(read_tasks(alloc, &bytes)?)
}
