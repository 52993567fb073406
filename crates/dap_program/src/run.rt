//! The command `run`.

ghost use Rattle.std.specs.Prelude.{◌≡◌, ◌≤◌, ◌<◌, ◌^◌, ◌⊎◌, ℕ, List, Option, None, length, IfOk, IfErr, IfSome, IsErrOf, OnOk};
ghost use Rattle.std.specs.Io.KnownBytes.{IsAtEnd};
ghost use Rattle.std.specs.Option.{option_map};
ghost use Rattle.dap_bytes.specs.Causes.{Counts, CountsEither};
ghost use Rattle.prio3_kinds.specs.Kinds.{functions_of_kind};
ghost use Rattle.dap_tasks.specs.Tasks.{AreDistinct};
ghost use Rattle.dap_script.specs.Spelling.{IsScriptBeside};
ghost use Rattle.dap_model.specs.Limits.{passed_in};
ghost use Rattle.dap_program.specs.Headline.{IsSilent, IsTasksRefused, outcome_of, given_tasks, lines_outcome, run_limits, run_outcome};
ghost use Rattle.dap_model.specs.State.{names_of, opening};
ghost use Rattle.dap_program.specs.Lines.{lines_run};
ghost use Rattle.dap_program.specs.Runs.{Ends, Gives, IsFileStop, IsRunStop, IsScriptStop, status_after};
ghost use Rattle.dap_program.specs.Words.{plain_name, Running};
ghost use Rattle.dap_program.specs.Work.{HasFile, IfNamed, file_of, file_told, work_of};

use crate::given::file_tasks;
use crate::lines::lines_run;
use crate::status::Status;
use crate::transfer::{read_all, write_all};
use dap_bytes::LONGEST_SCRIPT;
use dap_direct::{RunFault, printed_text};
use dap_model::Limits;
use dap_outside::{Files, Sink, Source};
use dap_script::Line;
use dap_tasks::Task;
use prio3_kinds::Prio3;
use std::alloc::Global;

/// How many reports a run is offered at most, and how many bytes they have: limits 2 and 3.
const LIMITS: Limits = Limits {
    reports: 50_000,
    bytes: 268_435_456,
};

/// Runs lines and prints what they print: all of it, or the segments before the line with which a limit is passed.
fn run_lines<K: Sink>(
    alloc: Global,
    given: Vec<Task>,
    lines: &[Line],
    out: &mut K,
) -> Result<(), Status>
    requires few { length lines.now < 2 ^ 31 }
    requires script { IsScriptBeside (names_of given.items) lines.now }
    requires distinct { AreDistinct given.items }
    ensures ends { Ends (status_after result) (K.held out.old) (K.held out.new)
        (run_outcome given.items lines.now (passed_in functions_of_kind run_limits (opening given.items) lines.now)) }
    ensures only { IfErr result IsRunStop }
    ensures faults { Counts (IsErrOf result Status.WriteFault) (K.faults out.old) (K.faults out.new) }
{
    match printed_text::<Prio3>(alloc, &LIMITS, given, lines) {
        Ok(text) => {
            write_all(out, &text)?;
            Ok(())
        }
        Err(RunFault::Limit { line, limit, text }) => {
            write_all(out, &text)?;
            Err(Status::Limit { line, limit })
        }
        Err(RunFault::NoMemory) => Err(Status::NoMemory),
    }
}

/// Runs a script of at most `LONGEST_SCRIPT` bytes and prints what its lines print.
fn run_script<K: Sink>(
    alloc: Global,
    given: Vec<Task>,
    script: &[u8],
    out: &mut K,
) -> Result<(), Status>
    requires size { length script.now ≤ LONGEST_SCRIPT }
    requires distinct { AreDistinct given.items }
    ensures ends { Ends (status_after result) (K.held out.old) (K.held out.new)
        (lines_outcome given.items (lines_run given.items script.now)) }
    ensures only { IfErr result IsScriptStop }
    ensures silent { IfErr result (λ status. IsSilent status → K.held out.new ≡ K.held out.old) }
    ensures faults { Counts (IsErrOf result Status.WriteFault) (K.faults out.old) (K.faults out.new) }
{
    let lines = lines_run(alloc, &given, script)?;
    run_lines(alloc, given, &lines, out)
}

/// The tasks of the file that is named, and none where none is.
fn given_tasks<F: Files>(
    alloc: Global,
    name: Option<&str>,
    files: &mut F,
) -> Result<Vec<Task>, Status>
    ensures tasks { IfSome (file_told (plain_name name.entry) (F.contents files.old))
        (λ file. Gives result (given_tasks file)) }
    ensures distinct { IfOk result (λ tasks. AreDistinct tasks.items) }
    ensures only { IfErr result IsFileStop }
    ensures refused { (task : ℕ) (field : List ℕ) → IsErrOf result (Status.TasksRefused task field)
        → IfSome (file_of (Running (plain_name name.entry)) (F.contents files.old))
        (λ file. IsTasksRefused file task field) }
    ensures faults { Counts (IsErrOf result Status.ReadFault) (F.faults files.old) (F.faults files.new) }
    ensures kept { (file : List ℕ) → F.contents files.new file ≡ F.contents files.old file }
    ensures untouched { plain_name name.entry ≡ None → files.new ≡ files.old }
    ensures named { (task : ℕ) (field : List ℕ) → IsErrOf result (Status.TasksRefused task field)
        → HasFile (Running (plain_name name.entry)) }
    ensures gone { IfNamed (Running (plain_name name.entry)) (F.missing files.old)
        → IsErrOf result Status.ReadFault ⊎ IsErrOf result Status.NoMemory }
{
    match name {
        None => Ok(Vec::new(alloc)),
        Some(name) => file_tasks(alloc, name, files),
    }
}

/// Reads the task file, if one is named, and the script, runs it and prints what its lines print.
pub fn run<S: Source, F: Files, K: Sink>(
    alloc: Global,
    tasks: Option<&str>,
    script: &mut S,
    files: &mut F,
    out: &mut K,
) -> Result<(), Status>
    ensures ends { IfSome (work_of (Running (plain_name tasks.entry)) (S.left script.old) (F.contents files.old))
        (λ work. Ends (status_after result) (K.held out.old) (K.held out.new) (outcome_of work)) }
    ensures refused { (task : ℕ) (field : List ℕ) → IsErrOf result (Status.TasksRefused task field)
        → IfSome (file_of (Running (plain_name tasks.entry)) (F.contents files.old))
        (λ file. IsTasksRefused file task field) }
    ensures unread { (task : ℕ) (field : List ℕ) → IsErrOf result (Status.TasksRefused task field)
        → script.new ≡ script.old }
    ensures end { OnOk result (IsAtEnd (S.left script.new)) }
    ensures silent { IfErr result (λ status. IsSilent status → K.held out.new ≡ K.held out.old) }
    ensures reads { CountsEither (IsErrOf result Status.ReadFault) (S.faults script.old) (S.faults script.new)
        (F.faults files.old) (F.faults files.new) }
    ensures writes { Counts (IsErrOf result Status.WriteFault) (K.faults out.old) (K.faults out.new) }
    ensures kept { (file : List ℕ) → F.contents files.new file ≡ F.contents files.old file }
    ensures untouched { plain_name tasks.entry ≡ None → files.new ≡ files.old }
    ensures named { (task : ℕ) (field : List ℕ) → IsErrOf result (Status.TasksRefused task field)
        → HasFile (Running (plain_name tasks.entry)) }
    ensures gone { IfNamed (Running (plain_name tasks.entry)) (F.missing files.old)
        → IsErrOf result Status.ReadFault ⊎ IsErrOf result Status.NoMemory }
    ensures usage { (word : ℕ) → IsErrOf result (Status.Usage word) → ⊥ }
    ensures never { IsErrOf result Status.Done → ⊥ }
{
    let given = given_tasks(alloc, tasks, files)?;
    let bytes = read_all(alloc, script)?;
    run_script(alloc, given, &bytes, out)
}
