//! How a call of the program ends.

use dap_bytes::Text;
use dap_outside::{Failed, FileFault, SinkFault};
use dap_script::ScriptFault;
use dap_tasks::TasksFault;
use std::alloc::AllocError;
use std::fmt;

/// How a call of the program ends.
#[derive(Debug, PartialEq, Eq, Drop)]
pub enum Status {
    /// The script, or the task file that is checked, was read to its end and all was printed.
    Done,
    /// The words are no command from this word on, counted from 1.
    Usage { word: u32 },
    /// This field of this task of the task file, counted from 1, is refused, or, for task 0 and the field `file`, the file
    /// as a whole.
    TasksRefused { task: u32, field: Text },
    /// This line of the script, counted from 1, isn't in the grammar, or names a task of the file or of a line before it.
    ScriptRefused { line: u32 },
    /// This line of the script, counted from 1, has a form that isn't run yet.
    NotYet { line: u32 },
    /// The source of the script failed, or the task file.
    ReadFault,
    /// The sink failed.
    WriteFault,
    /// A limit would be passed at this line, 0 for the script or the task file as a whole.
    Limit { line: u32, limit: u8 },
    /// There was no memory.
    NoMemory,
}

impl Status {
    ghost use Rattle.std.specs.Prelude.{◌≡◌};
    ghost use Rattle.dap_program.specs.Status.{number_of};

    /// The status with which the process ends.
    pub fn number(&self) -> u8
        ensures { result ≡ number_of self.now }
    {
        match self {
            Status::Done => 0,
            Status::Usage { .. } => 1,
            Status::TasksRefused { .. } => 2,
            Status::ScriptRefused { .. } => 3,
            Status::ReadFault => 4,
            Status::WriteFault => 5,
            Status::Limit { .. } => 11,
            Status::NoMemory => 12,
            Status::NotYet { .. } => 13,
        }
    }
}

impl fmt::Display for Status {
    ghost use Rattle.std.specs.Prelude.{Some};
    ghost use Rattle.dap_program.specs.Status.{text_of};

    ghost output = { λ status. Some (text_of status) };

    fn fmt<W: fmt::Write>(&self, f: &mut fmt::Formatter<W>) -> fmt::Result {
        match self {
            Status::Done => write!(f, "done"),
            Status::Usage { word } => write!(f, "usage: word {word}"),
            Status::TasksRefused { task, field } => {
                write!(f, "tasks refused: task {task} field {field}")
            }
            Status::ScriptRefused { line } => write!(f, "script refused: line {line}"),
            Status::NotYet { line } => write!(f, "not yet: line {line}"),
            Status::ReadFault => write!(f, "read fault"),
            Status::WriteFault => write!(f, "write fault"),
            Status::Limit { line, limit } => write!(f, "limit {limit} at line {line}"),
            Status::NoMemory => write!(f, "no memory"),
        }
    }
}

impl From<AllocError> for Status {
    ghost use Rattle.std.specs.Prelude.{◌≡◌};
    ghost use Rattle.dap_program.specs.declared.status.Status.TheVariants.{NoMemory};

    ghost from_gives = { λ _ e. e ≡ NoMemory };

    fn from(_: AllocError) -> Self {
        Status::NoMemory
    }
}

impl From<Failed> for Status {
    ghost use Rattle.std.specs.Prelude.{◌≡◌};
    ghost use Rattle.dap_program.specs.declared.status.Status.TheVariants.{ReadFault};

    ghost from_gives = { λ _ e. e ≡ ReadFault };

    fn from(_: Failed) -> Self {
        Status::ReadFault
    }
}

impl From<SinkFault> for Status {
    ghost use Rattle.std.specs.Prelude.{◌≡◌};
    ghost use Rattle.dap_program.specs.Status.{after_sink};

    ghost from_gives = { λ fault e. e ≡ after_sink fault };

    fn from(fault: SinkFault) -> Self {
        match fault {
            SinkFault::Failed => Status::WriteFault,
            SinkFault::NoMemory => Status::NoMemory,
        }
    }
}

impl From<FileFault> for Status {
    ghost use Rattle.std.specs.Prelude.{◌≡◌};
    ghost use Rattle.dap_program.specs.Status.{after_file};

    ghost from_gives = { λ fault e. e ≡ after_file fault };

    fn from(fault: FileFault) -> Self {
        match fault {
            FileFault::Failed => Status::ReadFault,
            FileFault::NoMemory => Status::NoMemory,
        }
    }
}

impl From<TasksFault> for Status {
    ghost use Rattle.std.specs.Prelude.{◌≡◌};
    ghost use Rattle.dap_program.specs.Status.{after_tasks};

    ghost from_gives = { λ fault e. e ≡ after_tasks fault };

    fn from(fault: TasksFault) -> Self {
        match fault {
            TasksFault::Refused { task, field } => Status::TasksRefused { task, field },
            TasksFault::NoMemory => Status::NoMemory,
        }
    }
}

impl From<ScriptFault> for Status {
    ghost use Rattle.std.specs.Prelude.{◌≡◌};
    ghost use Rattle.dap_program.specs.Status.{after_script};

    ghost from_gives = { λ fault e. e ≡ after_script fault };

    fn from(fault: ScriptFault) -> Self {
        match fault {
            ScriptFault::Refused { line } => Status::ScriptRefused { line },
            ScriptFault::NoMemory => Status::NoMemory,
        }
    }
}
