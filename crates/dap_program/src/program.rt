//! The top call.

ghost use Rattle.std.specs.Prelude.{◌≡◌, ◌⊎◌, ◌↔◌, ◌≤◌, ℕ, List, Err, IfErr, IfOk, IfSome, IsErrOf, OnOk};
ghost use Rattle.std.specs.Io.KnownBytes.{IsAtEnd};
ghost use Rattle.dap_bytes.specs.Causes.{Counts, CountsEither, Rose};
ghost use Rattle.dap_program.specs.Headline.{outcome_of, status_of, output_of, IsNotYet, IsPassed, IsScriptRefused, IsSilent, IsStop, IsTasksRefused, Prints};
ghost use Rattle.dap_program.specs.Runs.{Ends, IsCheckStop, status_after};
ghost use Rattle.dap_program.specs.Words.{command_of, plain, word_texts};
ghost use Rattle.dap_program.specs.Work.{HasFile, IfFileTold, IfNamed, IfTold, IsCheck, IsRun, file_of, work_of};

use crate::check::check;
use crate::help::{HELP, VERSION};
use crate::printing::{print_load, print_text};
use crate::run::run;
use crate::status::Status;
use crate::words::{Command, hear};
use dap_outside::{Files, Sink, Source};
use std::alloc::Global;

/// The status of what was done.
fn status_after(done: Result<(), Status>) -> Status
    ensures { result ≡ status_after done }
{
    match done {
        Ok(()) => Status::Done,
        Err(status) => status,
    }
}

/// Does what a command asks for.
fn perform<S: Source, F: Files, K: Sink>(
    alloc: Global,
    command: Command<'_>,
    script: &mut S,
    files: &mut F,
    out: &mut K,
) -> Result<(), Status>
    ensures ends { IfSome (work_of (plain command.entry) (S.left script.old) (F.contents files.old))
        (λ work. Ends (status_after result) (K.held out.old) (K.held out.new) (outcome_of work)) }
    ensures tasks { (task : ℕ) (field : List ℕ) → IsErrOf result (Status.TasksRefused task field)
        → IfSome (file_of (plain command.entry) (F.contents files.old)) (λ file. IsTasksRefused file task field) }
    ensures unread { (task : ℕ) (field : List ℕ) → IsErrOf result (Status.TasksRefused task field)
        → script.new ≡ script.old }
    ensures silent { IfErr result (λ status. IsSilent status → K.held out.new ≡ K.held out.old) }
    ensures reads { CountsEither (IsErrOf result Status.ReadFault) (S.faults script.old) (S.faults script.new)
        (F.faults files.old) (F.faults files.new) }
    ensures writes { Counts (IsErrOf result Status.WriteFault) (K.faults out.old) (K.faults out.new) }
    ensures end { IsRun (plain command.entry) → OnOk result (IsAtEnd (S.left script.new)) }
    ensures script { (IsRun (plain command.entry) → ⊥) → script.new ≡ script.old }
    ensures files { (HasFile (plain command.entry) → ⊥) → files.new ≡ files.old }
    ensures kept { (file : List ℕ) → F.contents files.new file ≡ F.contents files.old file }
    ensures checks { IsCheck (plain command.entry) → IfErr result IsCheckStop }
    ensures named { (task : ℕ) (field : List ℕ) → IsErrOf result (Status.TasksRefused task field)
        → HasFile (plain command.entry) }
    ensures gone { IfNamed (plain command.entry) (F.missing files.old)
        → IsErrOf result Status.ReadFault ⊎ IsErrOf result Status.NoMemory }
    ensures usage { (word : ℕ) → IsErrOf result (Status.Usage word) → ⊥ }
    ensures never { IsErrOf result Status.Done → ⊥ }
{
    match command {
        Command::Run { tasks } => run(alloc, tasks, script, files, out),
        Command::Check { tasks } => check(alloc, tasks, files, out),
        Command::Load { reports, seed } => print_load(alloc, reports, seed, out),
        Command::Help => print_text(HELP.as_bytes(), out),
        Command::Version => print_text(VERSION.as_bytes(), out),
    }
}

/// Does all that the program does: runs a script, with the tasks of a file where one is named, or prints the tasks of a
/// file, the script of a load, its help or its version. The status says how it ended, and each comes exactly where the
/// clauses say; want of memory may come at any time.
pub fn dap_alone<S: Source, F: Files, K: Sink>(
    alloc: Global,
    words: &[String],
    script: &mut S,
    files: &mut F,
    out: &mut K,
) -> Status
    // The words are refused exactly where they are no command, and then nothing is touched.
    ensures usage { (word : ℕ) → (result ≡ Status.Usage word) ↔ (command_of (word_texts words.now) ≡ Err word) }
    ensures untouched { (word : ℕ) → result ≡ Status.Usage word
        → (script.new ≡ script.old) × (files.new ≡ files.old) × (out.new ≡ out.old) }

    // Else the status is the work's, unless a device failed or memory ran out.
    ensures exact { IfTold (word_texts words.now) (S.left script.old) (F.contents files.old)
        (λ work. IsStop result ⊎ (result ≡ status_of work)) }

    // A task file is refused only where it is none from this field of this task on, and then no script is read.
    ensures tasks { (task : ℕ) (field : List ℕ) → result ≡ Status.TasksRefused task field
        → IfFileTold (word_texts words.now) (F.contents files.old) (λ file. IsTasksRefused file task field) }
    ensures unread { (task : ℕ) (field : List ℕ) → result ≡ Status.TasksRefused task field → script.new ≡ script.old }

    // A line is refused only where the script is none from this line on, beside the tasks of the file.
    ensures refused { (line : ℕ) → result ≡ Status.ScriptRefused line
        → IfTold (word_texts words.now) (S.left script.old) (F.contents files.old)
        (λ work. IsScriptRefused work line) }

    // A line is not yet run only where the whole script reads, and it is the first of these forms.
    ensures not_yet { (line : ℕ) → result ≡ Status.NotYet line
        → IfTold (word_texts words.now) (S.left script.old) (F.contents files.old) (λ work. IsNotYet work line) }

    // A limit is passed only where there is more than it, and with the line that is named.
    ensures limit { (line limit : ℕ) → result ≡ Status.Limit line limit
        → IfTold (word_texts words.now) (S.left script.old) (F.contents files.old)
        (λ work. IsPassed work line limit) }

    // Where nothing fails, the answer is the work's, with its whole text, or want of memory.
    ensures complete { ¬ Rose (S.faults script.old) (S.faults script.new)
        → ¬ Rose (F.faults files.old) (F.faults files.new)
        → ¬ Rose (K.faults out.old) (K.faults out.new)
        → IfTold (word_texts words.now) (S.left script.old) (F.contents files.old)
        (λ work. (result ≡ Status.NoMemory) ⊎ (result ≡ status_of work)) }

    // A fault is answered where it happened in this call, and only there, and the counts of faults never fall.
    ensures reads { CountsEither (result ≡ Status.ReadFault) (S.faults script.old) (S.faults script.new)
        (F.faults files.old) (F.faults files.new) }
    ensures writes { Counts (result ≡ Status.WriteFault) (K.faults out.old) (K.faults out.new) }

    // What is printed is what the work prints: the whole of it, or a front where a fault or want of memory came between.
    ensures printed { IfTold (word_texts words.now) (S.left script.old) (F.contents files.old)
        (λ work. Prints result (K.held out.old) (K.held out.new) (output_of work)) }
    ensures silent { IsSilent result → K.held out.new ≡ K.held out.old }

    // A run that is done has read its script to the end. What isn't asked for stays untouched, and no file changes.
    ensures end { IfOk (command_of (word_texts words.now))
        (λ command. IsRun command → result ≡ Status.Done → IsAtEnd (S.left script.new)) }
    ensures script { IfOk (command_of (word_texts words.now))
        (λ command. (IsRun command → ⊥) → script.new ≡ script.old) }
    ensures files { IfOk (command_of (word_texts words.now))
        (λ command. (HasFile command → ⊥) → files.new ≡ files.old) }
    ensures kept { (file : List ℕ) → F.contents files.new file ≡ F.contents files.old file }

    // A task file is refused only where one is named, and one that is missing is a read fault. A check ends with its own
    // statuses alone.
    ensures named { (task : ℕ) (field : List ℕ) → result ≡ Status.TasksRefused task field
        → IfOk (command_of (word_texts words.now)) HasFile }
    ensures gone { IfOk (command_of (word_texts words.now)) (λ command. IfNamed command (F.missing files.old)
        → (result ≡ Status.ReadFault) ⊎ (result ≡ Status.NoMemory)) }
    ensures checks { IfOk (command_of (word_texts words.now)) (λ command. IsCheck command
        → (result ≡ Status.Done) ⊎ IsCheckStop result) }
{
    match hear(words) {
        Err(word) => Status::Usage { word },
        Ok(command) => status_after(perform(alloc, command, script, files, out)),
    }
}
