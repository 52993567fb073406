//! Reading a source to its end, and writing a text to a sink.

ghost use Rattle.std.specs.Prelude.{◌≡◌, ◌⊎◌, ◌<◌, ◌≤◌, length, IfOk, OnOk, OnErr, IfErr, IsErrOf, IfSome};
ghost use Rattle.std.specs.Io.KnownBytes.{Appends, IsAtEnd};
ghost use Rattle.dap_bytes.specs.Causes.{Counts};
ghost use Rattle.dap_program.specs.Transfer.{AppendsPart, IsReadStop, TakesIn};

use crate::status::Status;
use dap_bytes::LONGEST_SCRIPT;
use dap_outside::{Sink, SinkFault, Source};
use std::alloc::Global;

/// How many bytes are asked of a source at a time.
const PIECE_LEN: usize = 4096;

/// Takes some more bytes in.
fn read_some<S: Source>(
    source: &mut S,
    buf: &mut [u8],
    bytes: &mut Vec<u8>,
) -> Result<usize, Status>
    requires { 0 < length buf.old }
    ensures taken { IfOk result (TakesIn (S.left source.old) (S.left source.new) bytes.old.items bytes.new.items) }
    ensures only { IfErr result IsReadStop }
    ensures within { IsErrOf result (Status.Limit 0 5) → ⊥ }
    ensures faults { Counts (IsErrOf result Status.ReadFault) (S.faults source.old) (S.faults source.new) }
{
    let count = source.read(buf)?;
    bytes.extend_from_slice(&buf[..count])?;
    Ok(count)
}

/// All that is left, if it is within the limit.
pub fn read_all<S: Source>(alloc: Global, source: &mut S) -> Result<Vec<u8>, Status>
    ensures whole { IfOk result (λ bytes. IfSome (S.left source.old) (λ input. bytes.items ≡ input)) }
    ensures end { OnOk result (IsAtEnd (S.left source.new)) }
    ensures size { IfOk result (λ bytes. length bytes.items ≤ LONGEST_SCRIPT) }

    // Nothing but a fault, a script that is too long and want of memory stops it. A fault is answered as one.
    ensures only { IfErr result IsReadStop }
    ensures faults { Counts (IsErrOf result Status.ReadFault) (S.faults source.old) (S.faults source.new) }
    ensures limit { IsErrOf result (Status.Limit 0 5)
        → IfSome (S.left source.old) (λ input. LONGEST_SCRIPT < length input) }
{
    let mut bytes = Vec::new(alloc);
    let mut buf = vec![in alloc; 0u8; PIECE_LEN]?;
    while bytes.len() <= LONGEST_SCRIPT {
        if read_some(source, &mut buf, &mut bytes)? == 0 {
            return Ok(bytes);
        }
    }
    Err(Status::Limit { line: 0, limit: 5 })
}

/// Writes all the bytes, in as many pieces as the sink takes them.
pub fn write_all<K: Sink>(out: &mut K, bytes: &[u8]) -> Result<(), SinkFault>
    ensures whole { OnOk result (Appends (K.held out.old) (K.held out.new) bytes.now) }
    ensures part { OnErr result (AppendsPart (K.held out.old) (K.held out.new) bytes.now) }
    ensures faults { Counts (IsErrOf result SinkFault.Failed) (K.faults out.old) (K.faults out.new) }
{
    let mut at = 0;
    while at < bytes.len() {
        let (_, rest) = bytes.split_at(at);
        at += out.write(rest)?;
    }
    Ok(())
}
