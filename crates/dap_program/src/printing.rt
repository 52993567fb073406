//! The commands that print a text and work on nothing else.

ghost use Rattle.std.specs.Prelude.{IfErr, IsErrOf};
ghost use Rattle.dap_bytes.specs.Causes.{Counts};
ghost use Rattle.load_maker.specs.Load.{load_text};
ghost use Rattle.dap_program.specs.Headline.{printing};
ghost use Rattle.dap_program.specs.Runs.{Ends, IsPrintStop, status_after};

use crate::status::Status;
use crate::transfer::write_all;
use dap_outside::Sink;
use load_maker::load_script;
use std::alloc::Global;

/// Prints a text.
pub fn print_text<K: Sink>(text: &[u8], out: &mut K) -> Result<(), Status>
    ensures ends { Ends (status_after result) (K.held out.old) (K.held out.new) (printing text.now) }
    ensures only { IfErr result IsPrintStop }
    ensures faults { Counts (IsErrOf result Status.WriteFault) (K.faults out.old) (K.faults out.new) }
{
    write_all(out, text)?;
    Ok(())
}

/// Prints the script of a load.
pub fn print_load<K: Sink>(
    alloc: Global,
    reports: u32,
    seed: u64,
    out: &mut K,
) -> Result<(), Status>
    ensures ends { Ends (status_after result) (K.held out.old) (K.held out.new) (printing (load_text reports seed)) }
    ensures only { IfErr result IsPrintStop }
    ensures faults { Counts (IsErrOf result Status.WriteFault) (K.faults out.old) (K.faults out.new) }
{
    let text = load_script(alloc, reports, seed)?;
    write_all(out, &text)?;
    Ok(())
}
