//! Records as whole inputs.

ghost use Rattle.std.specs.Prelude.{◌≡◌, ◌≤◌, IsTrue, IfOk, length};
ghost use Rattle.dap_messages.specs.Spelled.{Reads, IsOnly};
ghost use Rattle.lane_records.specs.Records.{record_};

use crate::laws::MOST_RECORD;
use crate::record::Record;
use dap_messages::{ReadFault, read_all, write_all};
use std::alloc::{AllocError, Global};

/// The record that the bytes spell, all of them: `Form` with the place of the first fault exactly where there is none.
pub fn read_record(alloc: Global, bytes: &[u8]) -> Result<Record, ReadFault>
    // What is read is spelled so.
    ensures read_as_spelled { IfOk result (λ x. IsTrue (record_.allowed x) × (bytes.now ≡ record_.spell x)) }
    // What is spelled so is read, unless memory runs out.
    ensures every_spelling_is_read { (x : Record) → IsTrue (record_.allowed x)
        → bytes.now ≡ record_.spell x → IsOnly x result }
    // Which place it is.
    ensures first_fault { Reads record_ bytes.now result }
{
    read_all(alloc, bytes)
}

/// The one spelling of a record that has one, of which a block of a journal has room for any.
pub fn write_record(alloc: Global, x: &Record) -> Result<Vec<u8>, AllocError>
    requires { IsTrue (record_.allowed x.now) }
    ensures spelled { IfOk result (λ out. out.items ≡ record_.spell x.now) }
    ensures bounded { IfOk result (λ out. length out.items ≤ MOST_RECORD) }
{
    write_all(alloc, x)
}
