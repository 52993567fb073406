//! How the end of a call is told.

ghost use Rattle.std.specs.Prelude.{OnOk, OnErr, IsErrOf};
ghost use Rattle.std.specs.Io.KnownBytes.{Appends};
ghost use Rattle.dap_bytes.specs.Causes.{Counts};
ghost use Rattle.dap_program.specs.Status.{told_of};
ghost use Rattle.dap_program.specs.Transfer.{AppendsPart};

use crate::status::Status;
use crate::transfer::write_all;
use dap_outside::{Sink, SinkFault};
use std::alloc::Global;

/// Tells how a call ended: nothing where all was done, else a line with the program's name and the status's text.
pub fn tell<E: Sink>(alloc: Global, status: &Status, errors: &mut E) -> Result<(), SinkFault>
    ensures whole { OnOk result (Appends (E.held errors.old) (E.held errors.new) (told_of status.now)) }
    ensures part { OnErr result (AppendsPart (E.held errors.old) (E.held errors.new) (told_of status.now)) }
    ensures faults { Counts (IsErrOf result SinkFault.Failed) (E.faults errors.old) (E.faults errors.new) }
{
    if status.number() == 0 {
        return Ok(());
    }
    let line = format!(in alloc; "dap: {status}\n").map_err(|_| SinkFault::NoMemory)?;
    write_all(errors, line.as_str().as_bytes())?;
    Ok(())
}
